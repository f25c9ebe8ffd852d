//! What a primary has on its thread.

use mp_schedule::Schedule;
use mp_shared::Node;

/// What a primary has on a thread of its own, besides itself.
#[derive(Drop)]
pub struct Runner {
    /// The node that has its part of the table, and no other.
    pub node: Node,
    /// What is left to try of its sessions.
    pub schedule: Schedule,
    /// Whether there was no memory for a turn.
    pub short: bool,
}

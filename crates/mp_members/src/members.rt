//! The members of a run.

use mp_log::Log;
use mp_outside::Disk;
use mp_primary::Primary;
use mp_shared::{Node, Shared};

/// The primaries of a run (1 to 8), that of number n at place n - 1, with the table that they share and the node that has
/// the parts of all; the logs of the primaries that the script doesn't have; and the numbers of the primaries that gave
/// the answers, in the order in which these were given.
#[derive(Drop)]
pub struct Members<D: Disk> {
    pub shared: Shared,
    pub node: Node,
    pub primaries: Vec<Primary<D>>,
    pub idle: Vec<Log<D>>,
    pub order: Vec<u8>,
}

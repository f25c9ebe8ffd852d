//! Gates.

use crossbeam_utils::Backoff;
use std::sync::atomic::{AtomicBool, Ordering};

/// What a primary on a thread of its own calls before the first try of each statement. It may hold the call for a while, and
/// changes nothing that a contract sees.
pub trait Gate {
    /// A statement is about to be tried for the first time: that of this primary (1 to 8), session (1 to 64) and index in its
    /// session (from 1).
    fn at(&self, primary: u8, session: u8, index: u32);
}

/// A gate that holds nobody.
#[derive(Clone, Copy, Debug)]
pub struct OpenGate;

impl Gate for OpenGate {
    fn at(&self, _primary: u8, _session: u8, _index: u32) {}
}

/// For how many turns, of a back-off that ends in yields, a `MeetGate` holds a statement.
pub const MEETING_TURNS: u32 = 1_000_000;

/// A gate where two statements meet: each is held until the other has come too, for at most `MEETING_TURNS` turns. It holds
/// no other. So they meet only where two threads run them at one time.
#[derive(Drop)]
pub struct MeetGate {
    a: (u8, u32),
    b: (u8, u32),
    a_came: AtomicBool,
    b_came: AtomicBool,
    ran_out: AtomicBool,
}

impl MeetGate {
    /// For two different statements, each by its session (1 to 64) and its index in that session (from 1). Neither has come.
    pub fn new(a: (u8, u32), b: (u8, u32)) -> MeetGate {
        MeetGate {
            a,
            b,
            a_came: AtomicBool::new(false),
            b_came: AtomicBool::new(false),
            ran_out: AtomicBool::new(false),
        }
    }

    /// Whether one of them was let go because its turns ran out, before the other came.
    pub fn ran_out(&self) -> bool {
        self.ran_out.load(Ordering::SeqCst)
    }

    // One came: it is held until the other has.
    fn hold(&self, own: &AtomicBool, other: &AtomicBool) {
        own.store(true, Ordering::SeqCst);
        let backoff = Backoff::new();
        for _ in 0..MEETING_TURNS {
            if other.load(Ordering::SeqCst) {
                return;
            }
            backoff.snooze();
        }
        self.ran_out.store(true, Ordering::SeqCst);
    }
}

impl Gate for MeetGate {
    fn at(&self, _primary: u8, session: u8, index: u32) {
        let it = (session, index);
        if it == self.a {
            self.hold(&self.a_came, &self.b_came);
        } else if it == self.b {
            self.hold(&self.b_came, &self.a_came);
        }
    }
}

//! How fast the tries of a primary come one behind another.

use crossbeam_utils::Backoff;
use mp_gates::Gate;
use mp_schedule::Schedule;

// A count for each session. None gets near its end, since a script has at most 10,000 statements.
type Counts = [u32; 256];

/// Of each session of a primary, how many tries there are, how many of them are over, and of how many a gate was told; and for
/// how long to wait before a next try.
#[derive(Drop)]
pub(crate) struct Pace {
    tries: Counts,
    over: Counts,
    told: Counts,
    backoff: Backoff,
}

impl Pace {
    /// That of a schedule, of which nothing was tried.
    pub(crate) fn of(schedule: &Schedule) -> Pace {
        let mut tries = [0u32; 256];
        for it in schedule.tries.as_slice() {
            let session = it.session as usize;
            tries[session] = tries[session].saturating_add(1);
        }
        Pace {
            tries,
            over: [0u32; 256],
            told: [0u32; 256],
            backoff: Backoff::new(),
        }
    }

    /// Before a try of a session: calls the gate, where this is the first try of a statement. The last try of a session is of what
    /// ends it, and no statement's.
    pub(crate) fn meet<G: Gate>(&mut self, gate: &G, primary: u8, session: u8) {
        let own = session as usize;
        let index = self.over[own].saturating_add(1);
        if self.told[own] < index && index < self.tries[own] {
            self.told[own] = index;
            gate.at(primary, session, index);
        }
    }

    /// Behind a try of a session that is over: the next comes at once.
    pub(crate) fn go_on(&mut self, session: u8) {
        let own = session as usize;
        self.over[own] = self.over[own].saturating_add(1);
        self.backoff.reset();
    }

    /// Behind one that waits: other threads are left to themselves for a while, longer each time.
    pub(crate) fn pause(&self) {
        self.backoff.snooze();
    }
}

//! Calls that fail by their numbers, for the sources and sinks in memory.

ghost use Rattle.std.specs.Prelude.{◌≡◌, ◌≤◌, ◌↔◌, Contains, IsTrue, IsErr, IfOk, if◌then◌else◌, is_ok};
ghost use Rattle.mp_outside.specs.Faults.{one_more};
ghost use Rattle.mp_outside.specs.Calls.{no_calls, NextFails, passed, faulted};

use crate::errors::Failed;
use mp_model::Memory;
use std::alloc::Global;
use std::marker::Model;

/// Counts calls, and says which of them fail: those whose numbers, from 1, stand in a list.
#[derive(Debug, Drop)]
pub struct FailingCalls {
    fail: Vec<u32>,
    made: u64,
    faults: u64,
}

impl Model for FailingCalls {
    ghost use Rattle.mp_outside.specs.Calls.{Calls};

    ghost Value = { Calls };

    ghost view = { λ c. record { fail = c.fail.items; made = c.made; faults = c.faults } };
}

impl FailingCalls {
    /// No call was made yet.
    pub fn new(alloc: Global, fail: &[u32]) -> Result<Self, Memory>
        ensures { IfOk result (λ calls. calls ≡ no_calls fail.now) }
    {
        Ok(FailingCalls {
            fail: Vec::from_slice(alloc, fail)?,
            made: 0,
            faults: 0,
        })
    }

    /// Counts a call, and fails it exactly where its number is to fail.
    pub fn make(&mut self) -> Result<(), Failed>
        ensures fails { IsErr result ↔ NextFails self.old }
        ensures counts { self.new ≡ (if is_ok result then passed self.old else faulted self.old) }
        ensures count { self.old.faults ≤ self.new.faults }
    {
        self.made = self.made.saturating_add(1);
        if is_to_fail(&self.fail, self.made) {
            self.count_fault();
            return Err(Failed);
        }
        Ok(())
    }

    /// Counts a fault of the call that was made last.
    pub fn count_fault(&mut self)
        ensures counts { self.new ≡ record self.old { faults = one_more self.old.faults } }
        ensures count { self.old.faults ≤ self.new.faults }
    {
        self.faults = self.faults.saturating_add(1);
    }
}

fn is_to_fail(fail: &[u32], number: u64) -> bool
    ensures { IsTrue result ↔ Contains fail.now number }
{
    fail.iter().any(|failing| u64::from(*failing) == number)
}

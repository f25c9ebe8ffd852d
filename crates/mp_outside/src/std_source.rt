//! Standard input as a source.

ghost use Rattle.std.specs.Prelude.{◌≡◌};

use crate::errors::Failed;
use crate::sources::Source;
use std::io::{Read, Stdin};
use std::marker::Model;

/// Standard input. It tells nothing of what is left, and is seen as its count of the reads that failed.
#[derive(Drop)]
pub struct StdSource {
    input: Stdin,
    faults: u64,
}

impl Model for StdSource {
    ghost use Rattle.std.specs.Prelude.{ℕ};

    ghost Value = { ℕ };

    ghost view = { λ s. s.faults };
}

impl StdSource {
    /// The standard input of this process, with no fault so far.
    pub fn new(rt: HostRuntime) -> Self
        ensures { result ≡ 0 }
    {
        StdSource {
            input: rt.stdin(),
            faults: 0,
        }
    }
}

impl Source for StdSource {
    ghost use Rattle.std.specs.Prelude.{None};

    ghost left = { λ _. None };

    ghost faults = { λ source. source };

    fn read(&mut self, into: &mut [u8]) -> Result<usize, Failed> {
        match self.input.read(into) {
            Ok(count) => Ok(count),
            Err(_) => {
                self.faults = self.faults.saturating_add(1);
                Err(Failed)
            }
        }
    }
}

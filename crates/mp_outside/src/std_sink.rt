//! Standard output as a sink.

ghost use Rattle.std.specs.Prelude.{◌≡◌};

use crate::errors::Failed;
use crate::sinks::Sink;
use std::io::{Stdout, Write};
use std::marker::Model;

/// Standard output. It tells nothing of what was written, and is seen as its count of the writes that failed or took
/// nothing.
#[derive(Drop)]
pub struct StdSink {
    output: Stdout,
    faults: u64,
}

impl Model for StdSink {
    ghost use Rattle.std.specs.Prelude.{ℕ};

    ghost Value = { ℕ };

    ghost view = { λ s. s.faults };
}

impl StdSink {
    /// The standard output of this process, with no fault so far.
    pub fn new(rt: HostRuntime) -> Self
        ensures { result ≡ 0 }
    {
        StdSink {
            output: rt.stdout(),
            faults: 0,
        }
    }
}

impl Sink for StdSink {
    ghost use Rattle.std.specs.Prelude.{None};

    ghost written = { λ _. None };

    ghost faults = { λ sink. sink };

    fn write(&mut self, piece: &[u8]) -> Result<usize, Failed> {
        match self.output.write(piece) {
            Ok(count) => {
                if count == 0 && !piece.is_empty() {
                    self.faults = self.faults.saturating_add(1);
                }
                Ok(count)
            }
            Err(_) => {
                self.faults = self.faults.saturating_add(1);
                Err(Failed)
            }
        }
    }
}

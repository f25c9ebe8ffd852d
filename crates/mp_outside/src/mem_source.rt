//! A source in memory.

ghost use Rattle.std.specs.Prelude.{◌≡◌, ◌↔◌, ◌≤◌, Some, length, min, IfOk, IsErr, OnErr, is_ok, if◌then◌else◌};
ghost use Rattle.std.specs.Io.KnownBytes.{ReadConsumes};
ghost use Rattle.mp_outside.specs.Faults.{Rose};
ghost use Rattle.mp_outside.specs.Calls.{no_calls, NextFails, passed, faulted};

use crate::calls::FailingCalls;
use crate::errors::Failed;
use crate::sources::Source;
use mp_model::Memory;
use std::alloc::Global;
use std::marker::Model;

/// A source of given bytes, of which given calls fail. It takes memory in `new` alone.
#[derive(Debug, Drop)]
pub struct MemSource {
    bytes: Vec<u8>,
    at: usize,
    calls: FailingCalls,
}

impl Model for MemSource {
    ghost use Rattle.std.specs.Prelude.{◌≤◌, drop, vec_len};
    ghost use Rattle.mp_outside.specs.Memory.{SourceState};

    ghost Value = { SourceState };

    ghost view = { λ s. record { left = drop s.at s.bytes.items; calls = s.calls } };

    ghost invariant = { λ s. s.at ≤ vec_len s.bytes };
}

impl MemSource {
    /// A source of these bytes. The calls fail whose numbers, from 1, stand in `fail`.
    pub fn new(alloc: Global, bytes: &[u8], fail: &[u32]) -> Result<Self, Memory>
        ensures { IfOk result
            (λ source. source ≡ record { left = bytes.now; calls = no_calls fail.now }) }
    {
        Ok(MemSource {
            bytes: Vec::from_slice(alloc, bytes)?,
            at: 0,
            calls: FailingCalls::new(alloc, fail)?,
        })
    }
}

impl Source for MemSource {
    ghost left = { λ source. Some source.left };

    ghost faults = { λ source. source.calls.faults };

    /// It gives as many bytes as are left and fit.
    fn read(&mut self, into: &mut [u8]) -> Result<usize, Failed>
        ensures within { IfOk result (λ count. count ≤ length into.old) }
        ensures bytes { ReadConsumes (Some self.old.left) (Some self.new.left) result into.new }
        ensures count { self.old.calls.faults ≤ self.new.calls.faults }
        ensures cause { OnErr result (Rose self.old.calls.faults self.new.calls.faults) }

        // It fails exactly where its number is to fail.
        ensures fails { IsErr result ↔ NextFails self.old.calls }
        ensures gives { IfOk result (λ count. count ≡ min (length into.old) (length self.old.left)) }
        ensures calls { self.new.calls
            ≡ (if is_ok result then passed self.old.calls else faulted self.old.calls) }
    {
        self.calls.make()?;
        let left = &self.bytes[self.at..];
        let count = into.len().min(left.len());
        into[..count].copy_from_slice(&left[..count]);
        self.at += count;
        Ok(count)
    }
}

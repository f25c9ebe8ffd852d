//! A sink in memory.

ghost use Rattle.std.specs.Prelude.{◌≡◌, ◌↔◌, ◌≤◌, ◌<◌, ◌-◌, Some, [], length, min, IfOk, IsErr, OnErr, if◌then◌else◌};
ghost use Rattle.std.specs.Io.KnownBytes.{WriteAppends};
ghost use Rattle.mp_outside.specs.Faults.{Rose};
ghost use Rattle.mp_outside.specs.Calls.{no_calls, NextFails, passed, faulted, took_some};

use crate::calls::FailingCalls;
use crate::errors::Failed;
use crate::sinks::Sink;
use mp_model::{Memory, Text};
use std::alloc::Global;
use std::marker::Model;

/// A sink that keeps what is written, up to a given count of bytes, and of which given calls fail. It takes memory in
/// `new` alone.
#[derive(Debug, Drop)]
pub struct MemSink {
    bytes: Text,
    room: usize,
    calls: FailingCalls,
}

impl Model for MemSink {
    ghost use Rattle.std.specs.Prelude.{◌+◌, ◌≤◌, length};
    ghost use Rattle.mp_outside.specs.Memory.{SinkState};

    ghost Value = { SinkState };

    ghost view = { λ s. record { written = s.bytes.items; room = s.room; calls = s.calls } };

    ghost invariant = { λ s. (length s.bytes.items ≤ s.room) × (s.room ≤ length s.bytes.items + s.bytes.spare) };
}

impl MemSink {
    /// A sink that takes `room` bytes. The calls fail whose numbers, from 1, stand in `fail`.
    pub fn new(alloc: Global, room: usize, fail: &[u32]) -> Result<Self, Memory>
        ensures { IfOk result
            (λ sink. sink ≡ record { written = []; room = room; calls = no_calls fail.now }) }
    {
        let mut bytes = Text::new(alloc);
        bytes.reserve(room)?;
        Ok(MemSink {
            bytes,
            room,
            calls: FailingCalls::new(alloc, fail)?,
        })
    }

    /// The bytes that were written.
    pub fn written(&self) -> &[u8]
        ensures { result.now ≡ self.now.written }
    {
        self.bytes.as_slice()
    }
}

impl Sink for MemSink {
    ghost written = { λ sink. Some sink.written };

    ghost faults = { λ sink. sink.calls.faults };

    /// It takes as many bytes as there is room for, so none once its room is full.
    fn write(&mut self, piece: &[u8]) -> Result<usize, Failed>
        ensures within { IfOk result (λ count. count ≤ length piece.now) }
        ensures bytes { WriteAppends (Some self.old.written) (Some self.new.written) result piece.now }
        ensures count { self.old.calls.faults ≤ self.new.calls.faults }
        ensures cause { OnErr result (Rose self.old.calls.faults self.new.calls.faults) }
        ensures takes { IfOk result
            (λ count. count ≡ 0 → 0 < length piece.now → Rose self.old.calls.faults self.new.calls.faults) }

        // It fails exactly where its number is to fail.
        ensures fails { IsErr result ↔ NextFails self.old.calls }
        ensures fills { IfOk result
            (λ count. count ≡ min (length piece.now) (self.old.room - length self.old.written)) }
        ensures room { self.new.room ≡ self.old.room }
        ensures calls { self.new.calls
            ≡ (if took_some result piece.now then passed self.old.calls else faulted self.old.calls) }
    {
        self.calls.make()?;
        let count = piece.len().min(self.room - self.bytes.len());
        self.bytes.put_all(&piece[..count]);
        if count == 0 && !piece.is_empty() {
            self.calls.count_fault();
        }
        Ok(count)
    }
}

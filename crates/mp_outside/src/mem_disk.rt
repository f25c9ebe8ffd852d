//! A disk in memory.

ghost use Rattle.std.specs.Prelude.{◌≡◌, ◌⊎◌, ◌↔◌, ◌+◌, ◌-◌, ◌<◌, ◌≤◌, ◌^◌, true, IsTrue, List, ℕ, length, take, min, refl, IfOk, IsErr, OnOk, OnErr, is_ok, if◌then◌else◌};
ghost use Rattle.std.proofs.Common.{inl};
ghost use Rattle.mp_outside.specs.Faults.{one_more, Rose};
ghost use Rattle.mp_outside.specs.Calls.{no_calls, NextFails, passed, faulted, next_calls};
ghost use Rattle.mp_outside.specs.Disks.{GivesBytes, written, first_changed, Torn, Cut, Follows, Only, Quiet, Counts};
ghost use Rattle.mp_outside.specs.MemDisks.{settled, after_write, after_cut, after_call, MemImage, Left};

use crate::buffers::{leave, put, settle, with_front};
use crate::calls::FailingCalls;
use crate::disks::Disk;
use crate::errors::Failed;
use crate::marks::{Mark, mark_write};
use mp_model::Memory;
use std::alloc::Global;
use std::marker::Model;

/// A disk that keeps its bytes in memory, of which given calls fail, and which may crash. It takes memory in `new`
/// alone.
#[derive(Debug, Drop)]
pub struct MemDisk {
    /// The file, in the front of a buffer of as many bytes as there is room for.
    bytes: Vec<u8>,
    size: usize,
    /// The file at the last sync, in the front of such a buffer.
    synced: Vec<u8>,
    synced_size: usize,
    /// A crash may leave any length between these two.
    least: usize,
    most: usize,
    marks: Vec<Mark>,
    /// Outside this range nothing waits for a sync, so a sync copies no more.
    from: usize,
    to: usize,
    calls: FailingCalls,
}

impl Model for MemDisk {
    ghost use Rattle.std.specs.Prelude.{length, take};
    ghost use Rattle.mp_outside.specs.MemDisks.{MemDiskState, IsMemDisk, IsBetween};

    ghost Value = { MemDiskState };

    ghost view = { λ d. record { seen = take d.size d.bytes.items; synced = take d.synced_size d.synced.items; marks = d.marks.items; least = d.least; most = d.most; room = length d.bytes.items; calls = d.calls } };

    ghost invariant = { λ d. IsMemDisk d.bytes.items d.synced.items d.marks.items d.size d.synced_size d.from d.to
        × IsBetween d.size d.synced_size d.least d.most };
}

impl MemDisk {
    /// A disk of these bytes, all of them synced, that takes up to `room` bytes. The calls fail whose numbers, from 1,
    /// stand in `fail`, and each write that would end past the room.
    pub fn new(alloc: Global, bytes: &[u8], room: u64, fail: &[u32]) -> Result<Self, Memory>
        requires { length bytes.now ≤ room }
        ensures { IfOk result (λ disk. disk ≡ settled bytes.now room (no_calls fail.now)) }
    {
        let calls = FailingCalls::new(alloc, fail)?;
        let content = with_front(alloc, bytes, room as usize)?;
        let synced = Vec::from_slice(alloc, &content)?;
        let marks = vec![in alloc; Mark::Untouched; room as usize]?;
        Ok(MemDisk {
            bytes: content,
            size: bytes.len(),
            synced,
            synced_size: bytes.len(),
            least: bytes.len(),
            most: bytes.len(),
            marks,
            from: 0,
            to: 0,
            calls,
        })
    }

    /// Crashes, and leaves one image; nothing else is left of it. Choice 0 drops what isn't synced, and choice 1 keeps
    /// it. Choice 2 keeps the first half of each written range, its length rounded down, and has the bytes of the last
    /// sync in the other half, or zeros past its length. Choice 3 fills each written range with the byte a5. Choices 1
    /// to 3 keep the length, and where ranges overlap the later one counts.
    pub fn crash(&mut self, choice: u8)
        requires { choice < 4 }
        ensures image { MemImage self.old self.new.seen }
        ensures only { Only self.new.seen (MemImage self.new) }
        ensures dropped { choice ≡ 0 → self.new.seen ≡ self.old.synced }
        ensures left { 0 < choice → Left choice self.old self.new.seen }
        ensures settled { self.new ≡ settled self.new.seen self.old.room self.old.calls }
    {
        self.lose(choice);
        self.settle();
    }

    fn lose(&mut self, choice: u8)
        ensures image { MemImage self.old self.new.seen }
        ensures dropped { choice ≡ 0 → self.new.seen ≡ self.old.synced }
        ensures left { 0 < choice → Left choice self.old self.new.seen }
        ensures room { self.new.room ≡ self.old.room }
        ensures calls { self.new.calls ≡ self.old.calls }
    {
        if choice == 0 {
            self.restore();
        } else {
            self.damage(choice);
        }
    }

    fn restore(&mut self)
        ensures synced { self.new ≡ record self.old { seen = self.old.synced } }
        ensures image { MemImage self.old self.new.seen }
    {
        self.bytes.copy_from_slice(&self.synced);
        self.size = self.synced_size;
    }

    fn damage(&mut self, choice: u8)
        ensures image { MemImage self.old self.new.seen }
        ensures left { Left choice self.old self.new.seen }
        ensures room { self.new.room ≡ self.old.room }
        ensures calls { self.new.calls ≡ self.old.calls }
    {
        let synced = &self.synced[..self.synced_size];
        leave(&mut self.bytes, self.size, synced, &self.marks, choice);
    }

    /// Moves the range that waits for a sync to where a write begins, while it is empty.
    fn begin(&mut self, place: usize)
        requires { place ≤ self.old.room }
        ensures { self.new ≡ self.old }
    {
        if self.from == self.to {
            self.from = place;
            self.to = place;
        }
    }

    fn put(&mut self, place: usize, bytes: &[u8])
        requires { place + length bytes.now ≤ self.old.room }
        ensures { self.new ≡ after_write place bytes.now self.old self.old.calls }
    {
        let first = place.min(self.size);
        let end = put(&mut self.bytes, self.size, place, bytes);
        mark_write(&mut self.marks, self.size, place, bytes.len());
        self.size = self.size.max(end);
        self.most = self.most.max(end);
        self.from = self.from.min(first);
        self.to = self.to.max(end);
    }

    fn settle(&mut self)
        ensures { self.new ≡ settled self.old.seen self.old.room self.old.calls }
    {
        settle(
            &self.bytes,
            &mut self.synced,
            &mut self.marks,
            self.from,
            self.to,
        );
        self.synced_size = self.size;
        self.least = self.size;
        self.most = self.size;
        self.from = 0;
        self.to = 0;
    }
}

impl Disk for MemDisk {
    ghost tells = { λ _. true };

    ghost seen = { λ disk. disk.seen };

    ghost image = { MemImage };

    ghost seen_is_image = { λ disk _. inl refl };

    ghost known = { λ disk. length disk.seen };

    ghost faults = { λ disk. disk.calls.faults };

    ghost calls = { λ disk. disk.calls.made };

    fn length(&mut self) -> Result<u64, Failed>
        ensures quiet { Quiet self.old.seen (MemImage self.old) self.new.seen (MemImage self.new) }
        ensures is { IfOk result (λ size. size ≡ length self.old.seen) }
        ensures small { IfOk result (λ size. size < 2 ^ 63) }
        ensures known { IfOk result (λ size. length self.new.seen ≡ size) }
        ensures still_known { OnErr result (length self.new.seen ≡ length self.old.seen) }
        ensures counts { Counts result self.old.calls.faults self.new.calls.faults }
        ensures calls { self.new.calls.made ≡ one_more self.old.calls.made }

        // It fails exactly where its number is to fail.
        ensures fails { IsErr result ↔ NextFails self.old.calls }
        ensures after { self.new ≡ after_call self.old (next_calls result self.old.calls) }
    {
        self.calls.make()?;
        Ok(self.size as u64)
    }

    fn read(&mut self, place: u64, into: &mut [u8]) -> Result<usize, Failed>
        ensures quiet { Quiet self.old.seen (MemImage self.old) self.new.seen (MemImage self.new) }
        ensures within { IfOk result (λ count. count ≤ length into.old) }
        ensures gives { IfOk result (λ count. GivesBytes self.old.seen place count into.old into.new) }
        ensures some { IfOk result
            (λ count. place < length self.old.seen → 0 < length into.old → count ≡ 0 → Rose self.old.calls.faults self.new.calls.faults) }
        ensures known { length self.new.seen ≡ length self.old.seen }
        ensures counts { Counts result self.old.calls.faults self.new.calls.faults }
        ensures calls { self.new.calls.made ≡ one_more self.old.calls.made }

        // It fails exactly where its number is to fail, and else it gives as many bytes as there are and fit.
        ensures fails { IsErr result ↔ NextFails self.old.calls }
        ensures count { IfOk result (λ count. count ≡ min (length into.old) (length self.old.seen - place)) }
        ensures after { self.new ≡ after_call self.old (next_calls result self.old.calls) }
    {
        self.calls.make()?;
        if place >= self.size as u64 {
            return Ok(0);
        }
        let left = &self.bytes[place as usize..self.size];
        let count = into.len().min(left.len());
        into[..count].copy_from_slice(&left[..count]);
        Ok(count)
    }

    fn sync(&mut self) -> Result<(), Failed>
        ensures quiet { Quiet self.old.seen (MemImage self.old) self.new.seen (MemImage self.new) }
        ensures safe { OnOk result (Only self.old.seen (MemImage self.new)) }
        ensures known { length self.new.seen ≡ length self.old.seen }
        ensures counts { Counts result self.old.calls.faults self.new.calls.faults }
        ensures calls { self.new.calls.made ≡ one_more self.old.calls.made }

        // It fails exactly where its number is to fail.
        ensures fails { IsErr result ↔ NextFails self.old.calls }
        ensures after { self.new ≡ (if is_ok result then settled self.old.seen self.old.room (passed self.old.calls)
            else after_call self.old (faulted self.old.calls)) }
    {
        self.calls.make()?;
        self.settle();
        Ok(())
    }

    fn write_at(&mut self, place: u64, bytes: &[u8]) -> Result<(), Failed>
        ensures bounded { OnOk result (place + length bytes.now < 2 ^ 63) }
        ensures written { OnOk result (self.new.seen ≡ written place bytes.now self.old.seen) }
        ensures in_part { Torn (first_changed place self.old.seen) (place + length bytes.now) self.old.seen self.new.seen }
        ensures images { Follows
            (Torn (first_changed place self.old.seen) (place + length bytes.now)) (MemImage self.old) (MemImage self.new) }
        ensures known { length self.old.seen ≤ length self.new.seen }
        ensures counts { Counts result self.old.calls.faults self.new.calls.faults }
        ensures calls { self.new.calls.made ≡ one_more self.old.calls.made }

        // It fails exactly where its number is to fail, or where it would end past the room; then nothing is written.
        ensures fails { IsErr result
            ↔ (NextFails self.old.calls ⊎ (self.old.room < place + length bytes.now)) }
        ensures after { self.new ≡ (if is_ok result then after_write place bytes.now self.old (passed self.old.calls)
            else after_call self.old (faulted self.old.calls)) }
    {
        self.calls.make()?;
        let room = self.bytes.len() as u64;
        if place > room || bytes.len() as u64 > room - place {
            self.calls.count_fault();
            return Err(Failed);
        }
        self.begin(place as usize);
        self.put(place as usize, bytes);
        Ok(())
    }

    fn cut(&mut self, size: u64) -> Result<(), Failed>
        ensures cut { OnOk result (self.new.seen ≡ take size self.old.seen) }
        ensures or_not { OnErr result
            ((self.new.seen ≡ self.old.seen) ⊎ (self.new.seen ≡ take size self.old.seen)) }
        ensures images { Follows (Cut size) (MemImage self.old) (MemImage self.new) }
        ensures known { min size (length self.old.seen) ≤ length self.new.seen }
        ensures counts { Counts result self.old.calls.faults self.new.calls.faults }
        ensures calls { self.new.calls.made ≡ one_more self.old.calls.made }

        // It fails exactly where its number is to fail; then nothing is cut.
        ensures fails { IsErr result ↔ NextFails self.old.calls }
        ensures after { self.new ≡ (if is_ok result then after_cut size self.old (passed self.old.calls)
            else after_call self.old (faulted self.old.calls)) }
    {
        self.calls.make()?;
        if size < self.size as u64 {
            self.size = size as usize;
            self.least = self.size.min(self.least);
        }
        Ok(())
    }
}

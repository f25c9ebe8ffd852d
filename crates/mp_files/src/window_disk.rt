//! A disk that reads ahead.

ghost use Rattle.std.specs.Prelude.{◌≡◌, ◌+◌, ◌-◌, ◌<◌, ◌≤◌, ◌^◌, None, IsTrue, IfOk, OnOk, OnErr, length};
ghost use Rattle.std.specs.Option.{ForSome};
ghost use Rattle.mp_outside.specs.Disks.{GivesBytes, Quiet, Counts};
ghost use Rattle.mp_outside.specs.Faults.{one_more, Rose};
ghost use Rattle.mp_files.specs.Windows.{WindowHolds};

use mp_model::Memory;
use mp_outside::{Disk, Failed};
use std::alloc::Global;

/// How many bytes are read at once.
const WINDOW: usize = 32_768;

/// A disk that reads more bytes than it is asked for, and gives later reads from these. It forgets them where something is
/// written or cut, and so the file's length. All else is as on the disk below.
#[derive(Drop)]
pub struct WindowDisk<D: Disk> {
    disk: D,
    window: Vec<u8>,
    /// Where the bytes in the front of the window lie, and how many there are.
    place: u64,
    filled: usize,
    /// The file's length, once it was asked for.
    size: Option<u64>,
    made: u64,
    ghost wide: { length window.items ≡ 32768 },
    ghost within: { filled ≤ length window.items },
    ghost holds: { IsTrue (D.tells disk) → WindowHolds place filled window.items (D.seen disk) },
    ghost small: { ForSome size (λ n. n < 2 ^ 63) },
    ghost known: { ForSome size (λ n. D.known disk ≡ n) },
    ghost sized: { IsTrue (D.tells disk) → ForSome size (λ n. n ≡ length (D.seen disk)) },
}

impl<D: Disk + Drop> WindowDisk<D> {
    /// Reads ahead on a disk. It takes memory here alone.
    pub fn new(alloc: Global, disk: D) -> Result<Self, Memory>
        ensures { IfOk result (λ made. made.disk ≡ disk) }
    {
        let window = vec![in alloc; 0; WINDOW]?;
        Ok(WindowDisk {
            disk,
            window,
            place: 0,
            filled: 0,
            size: None,
            made: 0,
        })
    }
}

impl<D: Disk> WindowDisk<D> {
    /// Counts a call.
    fn count(&mut self)
        ensures made { self.new.made ≡ one_more self.old.made }
        ensures disk { self.new.disk ≡ self.old.disk }
        ensures window { self.new.window ≡ self.old.window }
        ensures place { self.new.place ≡ self.old.place }
        ensures filled { self.new.filled ≡ self.old.filled }
        ensures size { self.new.size ≡ self.old.size }
    {
        self.made = self.made.saturating_add(1);
    }

    /// Counts a call, and forgets what was read ahead.
    fn forget(&mut self)
        ensures made { self.new.made ≡ one_more self.old.made }
        ensures disk { self.new.disk ≡ self.old.disk }
        ensures filled { self.new.filled ≡ 0 }
        ensures size { self.new.size ≡ None }
    {
        self.count();
        self.filled = 0;
        self.size = None;
    }

    /// Whether the byte at a place is in the window.
    fn has(&self, place: u64) -> bool
        ensures low { IsTrue result → self.now.place ≤ place }
        ensures high { IsTrue result → place < self.now.place + self.now.filled }
    {
        self.place <= place && place - self.place < self.filled as u64
    }

    /// Reads ahead from a place on.
    fn fill(&mut self, place: u64) -> Result<(), Failed>
        ensures tells { D.tells self.new.disk ≡ D.tells self.old.disk }
        ensures quiet { Quiet (D.seen self.old.disk) (D.image self.old.disk) (D.seen self.new.disk) (D.image self.new.disk) }
        ensures place { OnOk result (self.new.place ≡ place) }
        ensures some { OnOk result (place < D.known self.old.disk → self.new.filled ≡ 0
            → Rose (D.faults self.old.disk) (D.faults self.new.disk)) }
        ensures known { D.known self.new.disk ≡ D.known self.old.disk }
        ensures counts { Counts result (D.faults self.old.disk) (D.faults self.new.disk) }
        ensures made { self.new.made ≡ self.old.made }
    {
        self.filled = 0;
        let count = self.disk.read(place, &mut self.window)?;
        self.place = place;
        self.filled = count;
        Ok(())
    }

    /// Gives the bytes in the window from a place on that is in it or at its end.
    fn give(&self, place: u64, into: &mut [u8]) -> usize
        requires low { self.now.place ≤ place }
        requires high { place ≤ self.now.place + self.now.filled }
        ensures within { result ≤ length into.old }
        ensures gives { IsTrue (D.tells self.now.disk) → GivesBytes (D.seen self.now.disk) place result into.old into.new }
        ensures some { 0 < length into.old → result ≡ 0 → place ≡ self.now.place + self.now.filled }
    {
        let left = &self.window[(place - self.place) as usize..self.filled];
        let count = into.len().min(left.len());
        into[..count].copy_from_slice(&left[..count]);
        count
    }
}

impl<D: Disk> Disk for WindowDisk<D> {
    ghost tells = { λ w. D.Disk.tells w.disk };

    ghost seen = { λ w. D.Disk.seen w.disk };

    ghost image = { λ w. D.Disk.image w.disk };

    ghost seen_is_image = { λ w. D.Disk.seen_is_image w.disk };

    ghost known = { λ w. D.Disk.known w.disk };

    ghost faults = { λ w. D.Disk.faults w.disk };

    ghost calls = { λ w. w.made };

    fn length(&mut self) -> Result<u64, Failed> {
        self.count();
        if let Some(size) = self.size {
            return Ok(size);
        }
        let size = self.disk.length()?;
        self.size = Some(size);
        Ok(size)
    }

    fn read(&mut self, place: u64, into: &mut [u8]) -> Result<usize, Failed> {
        self.count();
        if !self.has(place) {
            self.fill(place)?;
        }
        Ok(self.give(place, into))
    }

    fn write_at(&mut self, place: u64, bytes: &[u8]) -> Result<(), Failed> {
        self.forget();
        self.disk.write_at(place, bytes)
    }

    fn cut(&mut self, size: u64) -> Result<(), Failed> {
        self.forget();
        self.disk.cut(size)
    }

    fn sync(&mut self) -> Result<(), Failed> {
        self.count();
        self.disk.sync()
    }
}

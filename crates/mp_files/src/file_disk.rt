//! A disk on a file of the system.

ghost use Rattle.std.specs.Prelude.{◌≡◌, ◌≤◌, ◌<◌, ◌^◌, IsTrue, Ok, length, IfOk, OnOk, OnErr};
ghost use Rattle.mp_outside.specs.Faults.{one_more, Rose};
ghost use Rattle.mp_outside.specs.Disks.{Counts};

use mp_model::Memory;
use mp_outside::{Disk, Failed};
use std::fs::{File, OpenOptions};
use std::io::{self, ErrorKind};
use std::os::unix::fs::FileExt;

/// How many bytes a file has at most.
const MOST: u64 = (1 << 63) - 1;

/// Why a file wasn't opened: the system refused it, or there was no memory.
#[derive(Clone, Copy, Debug, PartialEq, Eq)]
pub enum FileRefusal {
    Failed,
    Memory,
}

/// A file of the system. It tells nothing of its content; that the system keeps what it is given isn't proved. Each
/// failure of the system is counted. After a sync that failed each call fails: the system may have given up what
/// wasn't safe, and a later sync would answer Ok all the same. Nothing is tried again, but a write that a signal
/// interrupts goes on.
#[derive(Drop)]
pub struct FileDisk {
    file: File,
    known: u64,
    calls: Calls,
}

/// How many calls there were, how many of them failed, and whether a sync did.
#[derive(Drop)]
struct Calls {
    made: u64,
    faults: u64,
    sync_failed: bool,
}

impl Calls {
    /// Fails a call, and counts that, where a sync failed before.
    fn begin(&mut self) -> Result<(), Failed>
        ensures ready { OnOk result (self.new ≡ self.old) }
        ensures made { OnErr result (self.new.made ≡ one_more self.old.made) }
        ensures faults { Counts result self.old.faults self.new.faults }
    {
        if self.sync_failed {
            return Err(self.fail());
        }
        Ok(())
    }

    /// Counts a call, and its failure, if it failed.
    fn count<T: Drop>(&mut self, answer: io::Result<T>) -> Result<T, Failed>
        ensures made { self.new.made ≡ one_more self.old.made }
        ensures faults { Counts result self.old.faults self.new.faults }
        ensures same { IfOk result (λ value. answer ≡ Ok value) }
    {
        match answer {
            Ok(value) => {
                self.pass();
                Ok(value)
            }
            Err(_) => Err(self.fail()),
        }
    }

    /// Counts a call that didn't fail.
    fn pass(&mut self)
        ensures made { self.new.made ≡ one_more self.old.made }
        ensures faults { self.new.faults ≡ self.old.faults }
    {
        self.made = self.made.saturating_add(1);
    }

    /// Counts a call that failed.
    fn fail(&mut self) -> Failed
        ensures made { self.new.made ≡ one_more self.old.made }
        ensures rose { Rose self.old.faults self.new.faults }
        ensures no_fall { self.old.faults ≤ self.new.faults }
    {
        self.made = self.made.saturating_add(1);
        self.faults = self.faults.saturating_add(1);
        Failed
    }
}

impl FileDisk {
    /// Opens the file of this name in the current folder, and makes an empty one where there is none. It syncs the
    /// folder, so that a crash doesn't lose a file that was made.
    pub fn open(rt: HostRuntime, name: &str) -> Result<FileDisk, FileRefusal> {
        match open_safely(rt, name) {
            Ok(file) => Ok(FileDisk {
                file,
                known: 0,
                calls: Calls {
                    made: 0,
                    faults: 0,
                    sync_failed: false,
                },
            }),
            Err(error) if error.kind() == ErrorKind::OutOfMemory => Err(FileRefusal::Memory),
            Err(_) => Err(FileRefusal::Failed),
        }
    }
}

impl Disk for FileDisk {
    ghost use Rattle.std.specs.Prelude.{false, []};
    ghost use Rattle.mp_files.specs.Files.{no_image, untold};

    ghost tells = { λ _. false };

    ghost seen = { λ _. [] };

    ghost image = { λ _. no_image };

    ghost seen_is_image = { λ _. untold };

    ghost known = { λ disk. disk.known };

    ghost faults = { λ disk. disk.calls.faults };

    ghost calls = { λ disk. disk.calls.made };

    fn length(&mut self) -> Result<u64, Failed> {
        self.calls.begin()?;
        let size = self.calls.count(size_of(&self.file))?;
        self.known = size;
        Ok(size)
    }

    fn read(&mut self, place: u64, into: &mut [u8]) -> Result<usize, Failed> {
        self.calls.begin()?;
        let asked = place < self.known && !into.is_empty();
        match read_at(&self.file, place, into, asked) {
            Ok(count) => {
                self.calls.pass();
                Ok(count)
            }
            Err(_) => Err(self.calls.fail()),
        }
    }

    fn write_at(&mut self, place: u64, bytes: &[u8]) -> Result<(), Failed> {
        self.calls.begin()?;
        if place > MOST || bytes.len() as u64 > MOST - place {
            return Err(self.calls.fail());
        }
        self.calls.count(self.file.write_all_at(bytes, place))
    }

    fn cut(&mut self, size: u64) -> Result<(), Failed> {
        self.calls.begin()?;
        self.known = self.known.min(size);
        self.calls.count(cut_to(&self.file, size))
    }

    fn sync(&mut self) -> Result<(), Failed> {
        self.calls.begin()?;
        let done = self.calls.count(self.file.sync_all());
        self.calls.sync_failed = done.is_err();
        done
    }
}

// The file of this name, made where there is none, in a folder that is safe.
fn open_safely(rt: HostRuntime, name: &str) -> io::Result<File> {
    let mut options = OpenOptions::new();
    options.read(true).write(true).create(true);
    let file = options.open(&rt, name)?;
    File::open(&rt, ".")?.sync_all()?;
    Ok(file)
}

// The file's length, which is an error where it is above what a file may have.
fn size_of(file: &File) -> io::Result<u64>
    ensures { IfOk result (λ size. size < 2 ^ 63) }
{
    let size = file.metadata()?.len();
    if size > MOST {
        return Err(ErrorKind::FileTooLarge.into());
    }
    Ok(size)
}

// Reads at a place. Where bytes are known to be there, to get none is an error.
fn read_at(file: &File, place: u64, into: &mut [u8], asked: bool) -> io::Result<usize>
    ensures within { IfOk result (λ count. count ≤ length into.old) }
    ensures some { IsTrue asked → IfOk result (λ count. 0 < count) }
{
    let count = file.read_at(into, place)?;
    if asked && count == 0 {
        return Err(ErrorKind::UnexpectedEof.into());
    }
    Ok(count)
}

// Cuts the file to a length, and leaves one that isn't longer.
fn cut_to(file: &File, size: u64) -> io::Result<()> {
    if size_of(file)? > size {
        file.set_len(size)?;
    }
    Ok(())
}

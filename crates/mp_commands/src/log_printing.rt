//! The mtrs of the logs.

ghost use Rattle.std.specs.Prelude.{◌≡◌, ◌≢◌, ℕ, ◌+◌, ◌++◌, ◌<◌, ◌≤◌, IsTrue, IfOk, OnOk, length, slice_get};
ghost use Rattle.std.specs.List.{flat_map};
ghost use Rattle.mp_report.specs.Lines.{line};
ghost use Rattle.mp_report.specs.Records.{record_text};
ghost use Rattle.mp_log.specs.Readers.{log_mtrs};
ghost use Rattle.mp_log.specs.Reading.{LogCause};
ghost use Rattle.mp_files.specs.Nine.{At, seen_at, EachTells, KeptDisk, KeptLogs};
ghost use Rattle.mp_commands.specs.LogTexts.{mtr_words, mtr_text, log_words, log_text, read_at, logs_text, fault_below, TellBelow, Did, FindsOwn, FindsLogs, IsRefused, mtrs_words};

use crate::lines::{push_named, push_numbered};
use crate::refusals::LogsRefusal;
use mp_cells::{Mtr, Record};
use mp_log::{LogRefusal, Reader};
use mp_model::{Memory, Text};
use mp_outside::Disk;
use mp_report::print_record;
use std::alloc::Global;

/// The text of the logs, of which there are at most eight: the mtrs of each, from primary 1 on, and how many they are.
/// They are read in this order. `Log` comes exactly for the first log that is off the grammar, at its first fault;
/// `LogDisk` only where the count of faults of that log's disk rose, and those before it are of the grammar; `Memory`
/// where there is none. The disks are read, and keep what they hold. `docs/formats.md` has the text.
pub fn print_logs<D: Disk>(alloc: Global, logs: &mut Vec<D>) -> Result<Text, LogsRefusal>
    requires { length logs.old.items ≤ 8 }
    ensures kept { KeptLogs D.Disk logs.old.items logs.new.items }
    ensures text { EachTells D.Disk logs.old.items
        → IfOk result (λ text. text.items ≡ logs_text (seen_at D.Disk logs.old.items) (length logs.old.items)) }
    ensures finds { FindsLogs D.Disk result logs.old.items logs.new.items }
{
    let mut text = Text::new(alloc);
    let mut total = 0u64;
    for place in 0..logs.len() {
        let count = match push_log_at(alloc, logs, place, &mut text) {
            Ok(count) => count,
            Err(refusal) => return Err(refused(place as u8 + 1, refusal)),
        };
        total = match total.checked_add(count) {
            Some(total) => total,
            None => return Err(LogsRefusal::Memory),
        };
    }
    match push_end(&mut text, total) {
        Ok(()) => Ok(text),
        Err(Memory) => Err(LogsRefusal::Memory),
    }
}

// The refusal of a primary's log among the others.
fn refused(primary: u8, refusal: LogRefusal) -> LogsRefusal
    ensures { IsRefused primary refusal result }
{
    match refusal {
        LogRefusal::Fault { place } => LogsRefusal::Log { primary, place },
        LogRefusal::Disk => LogsRefusal::LogDisk { primary },
        LogRefusal::Memory => LogsRefusal::Memory,
    }
}

// Adds the text of the log at a place. Answers how many mtrs it has.
fn push_log_at<D: Disk>(
    alloc: Global,
    logs: &mut Vec<D>,
    place: usize,
    text: &mut Text,
) -> Result<u64, LogRefusal>
    requires within { place < length logs.old.items }
    requires most { length logs.old.items ≤ 8 }
    ensures count { length logs.new.items ≡ length logs.old.items }
    ensures others { (k : ℕ) → k ≢ place → slice_get logs.new.items k ≡ slice_get logs.old.items k }
    ensures did { At (Did D.Disk (place + 1) text.old.items text.new.items result) logs.old.items logs.new.items place }
{
    push_log(alloc, &mut logs[place], place as u8 + 1, text)
}

// Adds the text of a primary's log. Answers how many mtrs it has.
fn push_log<D: Disk>(
    alloc: Global,
    disk: &mut D,
    primary: u8,
    text: &mut Text,
) -> Result<u64, LogRefusal>
    ensures did { Did D.Disk primary text.old.items text.new.items result disk.old disk.new }
{
    let mut mtrs = Text::new(alloc);
    let count = push_mtrs(alloc, disk, primary, &mut mtrs)?;
    push_log_line(text, primary, count)?;
    text.extend(mtrs.as_slice())?;
    Ok(count)
}

fn push_log_line(text: &mut Text, primary: u8, count: u64) -> Result<(), Memory>
    ensures { OnOk result (text.new.items ≡ text.old.items ++ line (log_words primary count)) }
{
    push_numbered(text, b"log ", u64::from(primary))?;
    push_named(text, b"mtrs", count)?;
    text.push(b'\n')
}

// Adds the texts of the mtrs of a primary's log. Answers how many there are.
fn push_mtrs<D: Disk>(
    alloc: Global,
    disk: &mut D,
    primary: u8,
    text: &mut Text,
) -> Result<u64, LogRefusal>
    ensures kept { KeptDisk D.Disk disk.old disk.new }
    ensures text { IsTrue (D.tells disk.old) → IfOk result (λ count.
        (text.new.items ≡ text.old.items ++ flat_map mtr_text (log_mtrs primary (D.seen disk.old)).0)
        × (count ≡ length (log_mtrs primary (D.seen disk.old)).0)) }
    ensures finds { IsTrue (D.tells disk.old) → FindsOwn (log_mtrs primary (D.seen disk.old)).1 result }
    ensures cause { LogCause (D.faults disk.old) (D.faults disk.new) result }
{
    let mut reader = Reader::new(alloc, primary)?;
    for count in 0..u64::MAX {
        match reader.next(disk) {
            Ok(Some(mtr)) => push_mtr(alloc, text, &mtr)?,
            Ok(None) => return Ok(count),
            Err(refusal) => return Err(refusal),
        }
    }
    Err(LogRefusal::Memory)
}

// Adds the text of an mtr.
fn push_mtr(alloc: Global, text: &mut Text, mtr: &Mtr) -> Result<(), Memory>
    ensures { OnOk result (text.new.items ≡ text.old.items ++ mtr_text mtr.now) }
{
    push_mtr_line(text, mtr)?;
    push_records(alloc, text, mtr.records.as_slice())
}

fn push_mtr_line(text: &mut Text, mtr: &Mtr) -> Result<(), Memory>
    ensures { OnOk result (text.new.items ≡ text.old.items ++ line (mtr_words mtr.now)) }
{
    push_numbered(text, b"mtr llsn ", mtr.llsn)?;
    push_named(text, b"records", mtr.records.len() as u64)?;
    text.push(b'\n')
}

fn push_records(alloc: Global, text: &mut Text, records: &[Record]) -> Result<(), Memory>
    ensures { OnOk result (text.new.items ≡ text.old.items ++ flat_map record_text records.now) }
{
    for item in records {
        push_record(alloc, text, item)?;
    }
    Ok(())
}

fn push_record(alloc: Global, text: &mut Text, item: &Record) -> Result<(), Memory>
    ensures { OnOk result (text.new.items ≡ text.old.items ++ record_text item.now) }
{
    let more = print_record(alloc, item)?;
    text.extend(more.as_slice())
}

// Adds the last line.
fn push_end(text: &mut Text, total: u64) -> Result<(), Memory>
    ensures { OnOk result (text.new.items ≡ text.old.items ++ line (mtrs_words total)) }
{
    push_numbered(text, b"end mtrs ", total)?;
    text.push(b'\n')
}

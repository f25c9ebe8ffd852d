//! Reading a script.

ghost use Rattle.std.specs.Prelude.{◌≡◌, ◌==◌, ◌+◌, ◌<◌, ◌≤◌, ◌^◌, count_by, IfOk, IfErr, OnOk, Some, map, length, Ok};
ghost use Rattle.std.specs.List.{slice_split};
ghost use Rattle.mp_script.specs.Words.{kept_from, words_of};
ghost use Rattle.mp_script.specs.Entries.{nothing_said, with_entry};
ghost use Rattle.mp_script.specs.Faults.{FaultAt, at_line, primaries_in, entry_of, said_below, said_by, said_within, most_script_bytes, script_fault};
ghost use Rattle.mp_script.specs.Spelling.{Spells, IsRead, IsScriptRefused, NamesScriptFault, said_of};
ghost use Rattle.mp_script.specs.Drafts.{said_in, IsTallied};
ghost use Rattle.mp_script.specs.Readings.{GivesSaid};

use crate::drafts::Draft;
use crate::entries::{read_entry, read_header};
use crate::statements::Script;
use crate::words::{BAD_HEADER, TOO_LONG, is_skipped, words_of};
use mp_model::Memory;
use std::alloc::Global;

/// The most bytes that a script may have.
const MOST_BYTES: usize = 1_048_576;

/// Why bytes weren't read as a script.
#[derive(Clone, Copy, Debug, PartialEq, Eq)]
pub enum ScriptRefusal {
    /// The first fault (1 to 9, as `docs/language.md` lists them) and the number of its line, from 1.
    Fault { fault: u8, line: u32 },
    /// There was no memory.
    Memory,
}

impl From<Memory> for ScriptRefusal {
    ghost use Rattle.std.specs.Prelude.{◌≡◌};
    ghost use Rattle.mp_script.specs.declared.reading.ScriptRefusal.TheVariants.{Memory};

    ghost from_gives = { λ _ e. e ≡ Memory };

    fn from(_: Memory) -> Self {
        ScriptRefusal::Memory
    }
}

/// The script that the bytes spell, as `docs/language.md` describes it. `Fault` comes exactly where they spell none,
/// with the first fault; `Memory` only for want of memory.
pub fn parse(alloc: Global, bytes: &[u8]) -> Result<Script, ScriptRefusal>
    ensures found { IfOk result (Spells bytes.now) }
    ensures only { (script : Script) → Spells bytes.now script → IsRead script result }
    ensures fault { IfErr result (NamesScriptFault bytes.now) }
    ensures faulty { (found : FaultAt) → script_fault bytes.now ≡ Some found → IsScriptRefused found result }
{
    read_within(alloc, MOST_BYTES, bytes)
}

// What bytes say, of at most so many.
fn read_within(alloc: Global, most: usize, bytes: &[u8]) -> Result<Script, ScriptRefusal>
    requires { most < 2 ^ 30 }
    ensures { GivesSaid said_of (said_within most bytes.now) result }
{
    if bytes.len() > most {
        return Err(ScriptRefusal::Fault {
            fault: TOO_LONG,
            line: line_behind(&bytes[..most]),
        });
    }
    let lines = lines_of(alloc, bytes)?;
    let draft = read_script(alloc, &lines)?;
    Ok(draft.into_script(alloc)?)
}

// The number of the line of the byte behind these.
fn line_behind(front: &[u8]) -> u32
    requires { length front.now < 2 ^ 31 }
    ensures { result ≡ count_by (λ b. b == 10) front.now + 1 }
{
    front.iter().filter(|byte| **byte == b'\n').count() as u32 + 1
}

fn lines_of<'a>(alloc: Global, bytes: &'a [u8]) -> Result<Vec<&'a [u8]>, Memory>
    ensures { IfOk result (λ lines. map (λ l. l.now) lines.items ≡ slice_split (λ b. b == 10) bytes.now) }
{
    Ok(bytes.split(|byte| *byte == b'\n').collect(alloc)?)
}

// What these lines say, of which the first kept one has the number of primaries.
fn read_script(alloc: Global, lines: &[&[u8]]) -> Result<Draft, ScriptRefusal>
    requires { length lines.now < 2 ^ 31 }
    ensures { GivesSaid said_in (said_by (kept_from 1 (map (λ l. l.now) lines.now))) result }
{
    for (i, line) in lines.iter().enumerate() {
        if !is_skipped(line) {
            let primaries = header_at(alloc, i as u32 + 1, line)?;
            return read_below(alloc, primaries, i, &lines[i + 1..]);
        }
    }
    Err(ScriptRefusal::Fault {
        fault: BAD_HEADER,
        line: 1,
    })
}

// The number of primaries that the line of that number has.
fn header_at(alloc: Global, number: u32, line: &[u8]) -> Result<u8, ScriptRefusal>
    ensures { GivesSaid (λ n. n) (at_line number (primaries_in (words_of line.now)) (λ n. Ok n)) result }
{
    let words = words_of(alloc, line)?;
    match read_header(&words) {
        Ok(primaries) => Ok(primaries),
        Err(fault) => Err(ScriptRefusal::Fault {
            fault,
            line: number,
        }),
    }
}

// What these lines say below the first kept one, which so many lines stand above.
fn read_below(
    alloc: Global,
    primaries: u8,
    above: usize,
    lines: &[&[u8]],
) -> Result<Draft, ScriptRefusal>
    requires { above + length lines.now < 2 ^ 31 }
    ensures { GivesSaid said_in (said_below (nothing_said primaries) (kept_from (above + 2) (map (λ l. l.now) lines.now))) result }
{
    let mut draft = Draft::new(alloc, primaries);
    for (i, line) in lines.iter().enumerate() {
        if !is_skipped(line) {
            read_line(alloc, &mut draft, (above + i + 2) as u32, line)?;
        }
    }
    Ok(draft)
}

// Adds what the line of that number says. After a fault nothing is said of the draft.
fn read_line(
    alloc: Global,
    draft: &mut Draft,
    number: u32,
    line: &[u8],
) -> Result<(), ScriptRefusal>
    requires { IsTallied draft.old }
    ensures said { GivesSaid (λ _. said_in draft.new) (at_line number (entry_of (said_in draft.old) (words_of line.now)) (λ e. Ok (with_entry (said_in draft.old) e))) result }
    ensures tallied { OnOk result (IsTallied draft.new) }
{
    let words = words_of(alloc, line)?;
    match read_entry(draft, &words) {
        Ok(entry) => Ok(draft.add(entry)?),
        Err(fault) => Err(ScriptRefusal::Fault {
            fault,
            line: number,
        }),
    }
}

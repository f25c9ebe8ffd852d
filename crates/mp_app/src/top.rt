//! The call that the program makes.

ghost use Rattle.std.specs.Prelude.{◌≡◌, ◌≢◌, ◌⊎◌, ◌+◌, ◌≤◌, ℕ, None, Some, length, map, string_bytes};
ghost use Rattle.std.specs.Io.KnownBytes.{Appends};
ghost use Rattle.mp_outside.specs.Faults.{Rose};
ghost use Rattle.mp_outside.specs.Sinks.{AppendsFront};
ghost use Rattle.mp_outside.specs.Sources.{TakesUpTo};
ghost use Rattle.mp_model.specs.declared.histories.Opening.{Opening};
ghost use Rattle.mp_model.specs.declared.transcripts.Mode.{Mode};
ghost use Rattle.mp_files.specs.Nine.{AllTell, as_read, StillNine, KeptDisk, KeptNine};
ghost use Rattle.mp_cluster.specs.Runs.{IsOpeningOf};
ghost use Rattle.mp_summary.specs.Summaries.{summary_line};
ghost use Rattle.mp_commands.specs.Fresh.{Made};
ghost use Rattle.mp_app.specs.declared.commands.Command.{Command};
ghost use Rattle.mp_app.specs.declared.commands.Command.TheVariants.{Session, Plain};
ghost use Rattle.mp_app.specs.declared.commands.SessionCommand.{SessionCommand};
ghost use Rattle.mp_app.specs.Commands.{command_in, Names};
ghost use Rattle.mp_app.specs.Calls.{read_of};
ghost use Rattle.mp_app.specs.Complete.{NothingRose, IsInOrder};
ghost use Rattle.mp_app.specs.Outcomes.{LeavesDisks, Says, Recovers, Writes, WritesFront};

use crate::commands::{Command, PlainCommand};
use crate::output::{Output, print};
use crate::plain::plain_call;
use crate::session::session_call;
use crate::status::Status;
use crate::words::read_words;
use mp_files::Disks;
use mp_gates::Gate;
use mp_outside::{Disk, Sink, Source};
use mp_summary::law_one_summary;
use std::alloc::Global;
use std::sync::Wait;
use std::thread::Threads;

/// Does what the words after the program's name ask for. `step` reads a script from the source to its end, runs its
/// sessions by its primaries over the store and the logs, on one thread by a fixed schedule, and prints the transcript. `run`
/// does the same with each primary on a thread of its own, and calls the gate before the first try of each statement; where a
/// thread can't be made, its primary runs to its end before the next one begins. `gen N` prints the script that is made of the
/// number N, 0 to 2^64 - 1, and `step N` and `run N` run that script as `step` and `run` one that was read, and print a line in
/// place of the transcript, its summary. `init` makes the disks a fresh store and eight logs without batches, and prints
/// `ready`. `recover` makes the disks clean after a run or a crash, and prints the rows that are left. `dump` prints the pages
/// of the store, `logs` the mtrs of the logs.
///
/// Two calls of `step` over the same disks are meant to print the same, which no clause says. Two of `run` may differ: in
/// what a statement saw of the other sessions, in who waited for whom or was refused, and in the timestamps; each transcript
/// is legal for the script.
///
/// In a run a primary goes down where its log's disk fails, and where it needs something of one that is down. The others go
/// on, the transcript says which went down and with whose log, and the status is 4 instead of 0. Behind both, whatever a
/// crash leaves of the disks is sound, and the commits that `recover` keeps of it are closed for the transcript: all that it
/// acknowledges, none that it doesn't answer, and with each one those below it of the keys that it read or wrote.
///
/// There are eight logs, before and after. Only `step` and `run` without a number read the source, at most 1,048,577 bytes of
/// it; these two, with a number or without, aren't promised to return. Only `init` and `recover` change the store, and only
/// these and `step` and `run` the logs: a run writes its mtrs, and needs `recover` or `init` before the next one that may
/// begin. Where `init` ends with another status than 0, nothing is promised of the content of disks but that they can be
/// initialised again; with a status of 1, 2, 3 or 5 they are as they were, and so where a run ends with 7. The text is made
/// whole before its first byte is written, and it is written once.
///
/// `docs/language.md` says what each status means and which text goes with it.
pub fn top<R: Threads + Wait + Sync, S: Source, K: Sink, D: Disk + Drop + Send, G: Gate + Sync>(
    rt: &R,
    alloc: Global,
    words: &[String],
    source: &mut S,
    sink: &mut K,
    disks: &mut Disks<D>,
    gate: &G,
) -> Status
    requires eight { length disks.old.logs.items ≡ 8 }
    // What the status says of the words, of the bytes read and of the disks is so, and its text was written.
    ensures written { result ≢ Status.Sink
        → Writes (Says D.Disk (map string_bytes words.now) (read_of S.Source source.old source.new) disks.old disks.new)
        result (K.written sink.old) (K.written sink.new) }
    // Where the sink failed, a front of such a text was written.
    ensures cut { result ≡ Status.Sink
        → WritesFront (Says D.Disk (map string_bytes words.now) (read_of S.Source source.old source.new) disks.old disks.new)
        (K.written sink.old) (K.written sink.new) }
    ensures sink_failed { result ≡ Status.Sink → Rose (K.faults sink.old) (K.faults sink.new) }
    // Where nothing failed and what the command reads is of its grammar, it is done, but for want of memory.
    ensures complete { (command : Command) → Names (map string_bytes words.now) command
        → NothingRose D.Disk (read_of S.Source source.old source.new) (K.faults sink.old) (K.faults sink.new) disks.old disks.new
        → IsInOrder D.Disk command (read_of S.Source source.old source.new) disks.old
        → (result ≡ Status.Done) ⊎ (result ≡ Status.Memory) }
    ensures bound { TakesUpTo 1048577 (S.left source.old) (S.left source.new) }
    ensures unread { ((mode : Mode) → ¬ Names (map string_bytes words.now) (Session (command_in mode None))) → source.new ≡ source.old }
    // All nine disks stand and tell what they told, and no count of faults fell.
    ensures nine { StillNine D.Disk disks.old disks.new }
    // Where `step N` or `run N` does, over disks that tell and with room for the pages of its run, its line is known.
    ensures one { (mode : Mode) (number : ℕ) (opening : Opening) → result ≡ Status.Done
        → Names (map string_bytes words.now) (Session (command_in mode (Some number)))
        → AllTell D.Disk disks.old → IsOpeningOf (as_read D.Disk disks.old) opening → opening.taken + 3760 ≤ 4096
        → Appends (K.written sink.old) (K.written sink.new) (summary_line number 3008 752 512) }
    // Where `init` ends with status 0, the disks are a fresh store and logs without batches.
    ensures ready { result ≡ Status.Done → Names (map string_bytes words.now) (Plain PlainCommand.Init) → Made D.Disk disks.old disks.new }
    // Where `recover` does, over sound disks, each image is clean and has the kept commits.
    ensures recovered { result ≡ Status.Done → Names (map string_bytes words.now) (Plain PlainCommand.Recover)
        → Recovers D.Disk disks.old disks.new }
    // What refuses the words, a script or the content of disks leaves them, and so does a source that failed. So does every
    // command but these two and the runs of scripts, which leave the store.
    ensures refused { LeavesDisks result → KeptNine D.Disk disks.old disks.new }
    ensures untouched { ¬ Names (map string_bytes words.now) (Plain PlainCommand.Init)
        → ¬ Names (map string_bytes words.now) (Plain PlainCommand.Recover)
        → ((command : SessionCommand) → ¬ Names (map string_bytes words.now) (Session command)) → KeptNine D.Disk disks.old disks.new }
    ensures store { ¬ Names (map string_bytes words.now) (Plain PlainCommand.Init)
        → ¬ Names (map string_bytes words.now) (Plain PlainCommand.Recover) → KeptDisk D.Disk disks.old.store disks.new.store }
{
    law_one_summary();
    call(rt, alloc, words, source, sink, disks, gate)
}

// The same, but for what follows from it: that a command without a fault is done.
fn call<R: Threads + Wait + Sync, S: Source, K: Sink, D: Disk + Drop + Send, G: Gate + Sync>(
    rt: &R,
    alloc: Global,
    words: &[String],
    source: &mut S,
    sink: &mut K,
    disks: &mut Disks<D>,
    gate: &G,
) -> Status
    requires eight { length disks.old.logs.items ≡ 8 }
    ensures written { result ≢ Status.Sink
        → Writes (Says D.Disk (map string_bytes words.now) (read_of S.Source source.old source.new) disks.old disks.new)
        result (K.written sink.old) (K.written sink.new) }
    ensures cut { result ≡ Status.Sink
        → WritesFront (Says D.Disk (map string_bytes words.now) (read_of S.Source source.old source.new) disks.old disks.new)
        (K.written sink.old) (K.written sink.new) }
    ensures sink_failed { result ≡ Status.Sink → Rose (K.faults sink.old) (K.faults sink.new) }
    ensures bound { TakesUpTo 1048577 (S.left source.old) (S.left source.new) }
    ensures unread { ((mode : Mode) → ¬ Names (map string_bytes words.now) (Session (command_in mode None))) → source.new ≡ source.old }
    ensures nine { StillNine D.Disk disks.old disks.new }
    ensures ready { result ≡ Status.Done → Names (map string_bytes words.now) (Plain PlainCommand.Init) → Made D.Disk disks.old disks.new }
    ensures recovered { result ≡ Status.Done → Names (map string_bytes words.now) (Plain PlainCommand.Recover)
        → Recovers D.Disk disks.old disks.new }
    ensures refused { LeavesDisks result → KeptNine D.Disk disks.old disks.new }
    ensures untouched { ¬ Names (map string_bytes words.now) (Plain PlainCommand.Init)
        → ¬ Names (map string_bytes words.now) (Plain PlainCommand.Recover)
        → ((command : SessionCommand) → ¬ Names (map string_bytes words.now) (Session command)) → KeptNine D.Disk disks.old disks.new }
    ensures store { ¬ Names (map string_bytes words.now) (Plain PlainCommand.Init)
        → ¬ Names (map string_bytes words.now) (Plain PlainCommand.Recover) → KeptDisk D.Disk disks.old.store disks.new.store }
{
    match read_words(alloc, words) {
        Ok(Command::Session(command)) => {
            session_call(rt, alloc, &command, source, sink, disks, gate)
        }
        Ok(Command::Plain(command)) => plain_call(alloc, &command, source, sink, disks),
        Err(refusal) => print(&Output::words_refusal(refusal), sink),
    }
}

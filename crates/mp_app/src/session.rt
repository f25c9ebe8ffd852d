//! The commands that run a script's sessions.

ghost use Rattle.std.specs.Prelude.{◌≡◌, ◌≢◌, Some, None, IfOk, IfErr, length};
ghost use Rattle.mp_model.specs.declared.transcripts.Mode.{Mode};
ghost use Rattle.mp_report.specs.Readable.{IsReadable};
ghost use Rattle.mp_script.specs.Spelling.{IsSpelled, Spells};
ghost use Rattle.mp_outside.specs.Faults.{Rose};
ghost use Rattle.mp_outside.specs.Sources.{TakesUpTo};
ghost use Rattle.mp_files.specs.Nine.{AllTell, Every, KeptDisk, KeptNine, StillNine, as_read};
ghost use Rattle.mp_opening.specs.Openings.{RunCause};
ghost use Rattle.mp_cluster.specs.Runs.{DownsHaveFailed, IsLegalRun, IsLeftOfRun, RunFinds, RunLeaves, transactions_of};
ghost use Rattle.mp_app.specs.declared.commands.Command.TheVariants.{Session};
ghost use Rattle.mp_app.specs.Calls.{SourceUse, read_of};
ghost use Rattle.mp_app.specs.Commands.{command_in};
ghost use Rattle.mp_app.specs.Outcomes.{run_text, LeavesDisks, SessionSays, CommandSays, Writes, WritesFront};
ghost use Rattle.mp_app.specs.Answered.{BytesSay, RefusesBytes, ScriptSays};
ghost use Rattle.mp_app.specs.Printed.{text_of, PrintsRun};

use crate::commands::SessionCommand;
use crate::output::{Output, print};
use crate::status::Status;
use mp_cluster::{ClusterRefusal, run_all, step_all};
use mp_files::Disks;
use mp_gates::Gate;
use mp_generate::generate;
use mp_model::{Memory, Mode, Text, Transcript};
use mp_outside::{Disk, ReadRefusal, Sink, Source, read_all};
use mp_report::print_transcript;
use mp_script::{Script, ScriptRefusal, parse};
use mp_summary::summarize;
use std::alloc::Global;
use std::sync::Wait;
use std::thread::Threads;

/// The most bytes that are read: one more than a script may have.
const MOST_READ: usize = 1_048_577;

/// Does a command that runs sessions, as `top` does. There are eight logs. Status 0 comes where no primary went down in the
/// run, and 4 where one did and the run went on without it. Behind both, whatever a crash leaves of the disks is sound, and
/// what recovery keeps of it is closed for the transcript. Statuses 2, 3, 5 and 7 come before the run, and leave the disks as
/// they were. A script that is a number's isn't read, and in place of its transcript the summary of it is printed. A `run`
/// calls the gate before the first try of each statement.
pub fn session_call<
    R: Threads + Wait + Sync,
    S: Source,
    K: Sink,
    D: Disk + Drop + Send,
    G: Gate + Sync,
>(
    rt: &R,
    alloc: Global,
    command: &SessionCommand,
    source: &mut S,
    sink: &mut K,
    disks: &mut Disks<D>,
    gate: &G,
) -> Status
    requires eight { length disks.old.logs.items ≡ 8 }
    ensures written { result ≢ Status.Sink
        → Writes (CommandSays D.Disk (Session command.now) (read_of S.Source source.old source.new) disks.old disks.new)
        result (K.written sink.old) (K.written sink.new) }
    ensures cut { result ≡ Status.Sink
        → WritesFront (CommandSays D.Disk (Session command.now) (read_of S.Source source.old source.new) disks.old disks.new)
        (K.written sink.old) (K.written sink.new) }
    ensures sink_failed { result ≡ Status.Sink → Rose (K.faults sink.old) (K.faults sink.new) }
    ensures bound { TakesUpTo 1048577 (S.left source.old) (S.left source.new) }
    ensures unread { ((mode : Mode) → command.now ≢ command_in mode None) → source.new ≡ source.old }
    ensures nine { StillNine D.Disk disks.old disks.new }
    // The logs alone are written, and where the script, its source or what the disks hold is refused, none.
    ensures store { KeptDisk D.Disk disks.old.store disks.new.store }
    ensures refused { LeavesDisks result → KeptNine D.Disk disks.old disks.new }
{
    let output = answer(rt, alloc, command, source, disks, gate);
    print(&output, sink)
}

// What a command comes to.
fn answer<R: Threads + Wait + Sync, S: Source, D: Disk + Drop + Send, G: Gate + Sync>(
    rt: &R,
    alloc: Global,
    command: &SessionCommand,
    source: &mut S,
    disks: &mut Disks<D>,
    gate: &G,
) -> Output
    requires eight { length disks.old.logs.items ≡ 8 }
    ensures says { CommandSays D.Disk (Session command.now) (read_of S.Source source.old source.new) disks.old disks.new result.status (text_of result.printed) }
    ensures bound { TakesUpTo 1048577 (S.left source.old) (S.left source.new) }
    ensures unread { ((mode : Mode) → command.now ≢ command_in mode None) → source.new ≡ source.old }
    ensures nine { StillNine D.Disk disks.old disks.new }
    ensures store { KeptDisk D.Disk disks.old.store disks.new.store }
{
    match command {
        SessionCommand::Step(None) => answer_source(rt, alloc, Mode::Step, source, disks, gate),
        SessionCommand::Step(Some(number)) => {
            answer_number(rt, alloc, Mode::Step, *number, disks, gate)
        }
        SessionCommand::Run(None) => answer_source(rt, alloc, Mode::Run, source, disks, gate),
        SessionCommand::Run(Some(number)) => {
            answer_number(rt, alloc, Mode::Run, *number, disks, gate)
        }
    }
}

// What the script of a number comes to.
fn answer_number<R: Threads + Wait + Sync, D: Disk + Drop + Send, G: Gate + Sync>(
    rt: &R,
    alloc: Global,
    mode: Mode,
    number: u64,
    disks: &mut Disks<D>,
    gate: &G,
) -> Output
    requires eight { length disks.old.logs.items ≡ 8 }
    ensures says { (source : SourceUse) → SessionSays D.Disk mode (Some number) source disks.old disks.new result.status (text_of result.printed) }
    ensures nine { StillNine D.Disk disks.old disks.new }
    ensures store { KeptDisk D.Disk disks.old.store disks.new.store }
{
    match generate(alloc, number) {
        Ok(script) => answer_script(rt, alloc, mode, Some(number), &script, disks, gate),
        Err(Memory) => Output::no_memory(),
    }
}

// What the script of a source comes to.
fn answer_source<R: Threads + Wait + Sync, S: Source, D: Disk + Drop + Send, G: Gate + Sync>(
    rt: &R,
    alloc: Global,
    mode: Mode,
    source: &mut S,
    disks: &mut Disks<D>,
    gate: &G,
) -> Output
    requires eight { length disks.old.logs.items ≡ 8 }
    ensures says { SessionSays D.Disk mode None (read_of S.Source source.old source.new) disks.old disks.new result.status (text_of result.printed) }
    ensures bound { TakesUpTo 1048577 (S.left source.old) (S.left source.new) }
    ensures nine { StillNine D.Disk disks.old disks.new }
    ensures store { KeptDisk D.Disk disks.old.store disks.new.store }
{
    match read_all(alloc, source, MOST_READ) {
        Ok(text) => answer_bytes(rt, alloc, mode, text.as_slice(), disks, gate),
        Err(ReadRefusal::Failed) => Output::source_fault(),
        Err(ReadRefusal::Memory) => Output::no_memory(),
    }
}

// What the bytes of a script come to.
fn answer_bytes<R: Threads + Wait + Sync, D: Disk + Drop + Send, G: Gate + Sync>(
    rt: &R,
    alloc: Global,
    mode: Mode,
    bytes: &[u8],
    disks: &mut Disks<D>,
    gate: &G,
) -> Output
    requires eight { length disks.old.logs.items ≡ 8 }
    ensures says { BytesSay D.Disk mode bytes.now disks.old disks.new result.status (text_of result.printed) }
    ensures nine { StillNine D.Disk disks.old disks.new }
    ensures store { KeptDisk D.Disk disks.old.store disks.new.store }
{
    match script_of(alloc, bytes) {
        Ok(script) => answer_script(rt, alloc, mode, None, &script, disks, gate),
        Err(output) => output,
    }
}

// The script that bytes spell, or else what is printed of their first fault.
fn script_of(alloc: Global, bytes: &[u8]) -> Result<Script, Output>
    ensures spelled { IfOk result (Spells bytes.now) }
    ensures refused { IfErr result (RefusesBytes bytes.now) }
{
    match parse(alloc, bytes) {
        Ok(script) => Ok(script),
        Err(ScriptRefusal::Fault { fault, line }) => Err(Output::script_fault(alloc, fault, line)),
        Err(ScriptRefusal::Memory) => Err(Output::no_memory()),
    }
}

// What a script, that was read or is a number's, comes to.
fn answer_script<R: Threads + Wait + Sync, D: Disk + Drop + Send, G: Gate + Sync>(
    rt: &R,
    alloc: Global,
    mode: Mode,
    number: Option<u64>,
    script: &Script,
    disks: &mut Disks<D>,
    gate: &G,
) -> Output
    requires eight { length disks.old.logs.items ≡ 8 }
    requires spelled { IsSpelled script.now }
    ensures says { ScriptSays D.Disk mode number script.now disks.old disks.new result.status (text_of result.printed) }
    ensures nine { StillNine D.Disk disks.old disks.new }
    ensures store { KeptDisk D.Disk disks.old.store disks.new.store }
{
    match run_script(rt, alloc, mode, script, disks, gate) {
        Ok(transcript) => print_all(alloc, number, script, &transcript),
        Err(refusal) => Output::run_refusal(alloc, refusal),
    }
}

// Runs a script on one thread, or each primary on a thread of its own.
fn run_script<R: Threads + Wait + Sync, D: Disk + Drop + Send, G: Gate + Sync>(
    rt: &R,
    alloc: Global,
    mode: Mode,
    script: &Script,
    disks: &mut Disks<D>,
    gate: &G,
) -> Result<Transcript, ClusterRefusal>
    requires eight { length disks.old.logs.items ≡ 8 }
    requires spelled { IsSpelled script.now }
    ensures nine { StillNine D.Disk disks.old disks.new }
    ensures store { KeptDisk D.Disk disks.old.store disks.new.store }
    ensures finds { AllTell D.Disk disks.old → RunFinds (as_read D.Disk disks.old) (transactions_of script.now) result }
    ensures untouched { IfErr result (RunLeaves D.Disk disks.old disks.new) }
    ensures cause { IfErr result (RunCause D.Disk disks.old disks.new) }
    ensures legal { IfOk result (IsLegalRun D.Disk disks.old script.now) }
    ensures readable { IfOk result IsReadable }
    ensures mode { IfOk result (λ transcript. transcript.mode ≡ mode) }
    ensures downs { IfOk result (DownsHaveFailed D.Disk disks.old disks.new) }
    ensures left { AllTell D.Disk disks.old → IfOk result (λ transcript.
        Every D.Disk disks.new (IsLeftOfRun (as_read D.Disk disks.old) script.now transcript)) }
{
    match mode {
        Mode::Step => step_all(rt, alloc, script, disks),
        Mode::Run => run_all(rt, alloc, script, disks, gate),
    }
}

// The text of a run, with the status that says whether a primary went down.
fn print_all(alloc: Global, number: Option<u64>, script: &Script, transcript: &Transcript) -> Output
    ensures { PrintsRun (run_text number script.now transcript.now) transcript.now result }
{
    match print_run(alloc, number, script, transcript) {
        Ok(text) if transcript.downs.is_empty() => Output::done(text),
        Ok(text) => Output::stopped(text),
        Err(Memory) => Output::no_memory(),
    }
}

// A transcript's text, or its summary where a number is its script's.
fn print_run(
    alloc: Global,
    number: Option<u64>,
    script: &Script,
    transcript: &Transcript,
) -> Result<Text, Memory>
    ensures { IfOk result (λ text. text.items ≡ run_text number script.now transcript.now) }
{
    match number {
        None => print_transcript(alloc, transcript),
        Some(number) => summarize(alloc, number, script, transcript),
    }
}

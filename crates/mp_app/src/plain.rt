//! The commands that run no session.

ghost use Rattle.std.specs.Prelude.{◌≡◌, ◌≢◌, length};
ghost use Rattle.mp_outside.specs.Faults.{Rose};
ghost use Rattle.mp_files.specs.Nine.{KeptDisk, KeptLogs, KeptNine, StillNine};
ghost use Rattle.mp_commands.specs.Fresh.{Made};
ghost use Rattle.mp_app.specs.declared.commands.Command.TheVariants.{Plain};
ghost use Rattle.mp_app.specs.Calls.{SourceUse, read_of};
ghost use Rattle.mp_app.specs.Outcomes.{LeavesDisks, CommandSays, InitSays, RecoverSays, Recovers, DumpSays, LogsSays, GenSays, Writes, WritesFront};
ghost use Rattle.mp_app.specs.Printed.{text_of};

use crate::commands::PlainCommand;
use crate::output::{Output, print};
use crate::status::Status;
use mp_commands::{dump, init, print_logs};
use mp_files::Disks;
use mp_generate::generate;
use mp_model::Memory;
use mp_outside::{Disk, Sink, Source};
use mp_recover::recover;
use mp_script::print as print_script;
use std::alloc::Global;

/// Does a command that runs no session, as `top` does. There are eight logs. No source is read.
pub fn plain_call<S: Source, K: Sink, D: Disk>(
    alloc: Global,
    command: &PlainCommand,
    source: &mut S,
    sink: &mut K,
    disks: &mut Disks<D>,
) -> Status
    requires eight { length disks.old.logs.items ≡ 8 }
    ensures written { result ≢ Status.Sink
        → Writes (CommandSays D.Disk (Plain command.now) (read_of S.Source source.old source.new) disks.old disks.new)
        result (K.written sink.old) (K.written sink.new) }
    ensures cut { result ≡ Status.Sink
        → WritesFront (CommandSays D.Disk (Plain command.now) (read_of S.Source source.old source.new) disks.old disks.new)
        (K.written sink.old) (K.written sink.new) }
    ensures sink_failed { result ≡ Status.Sink → Rose (K.faults sink.old) (K.faults sink.new) }
    ensures unread { source.new ≡ source.old }
    ensures nine { StillNine D.Disk disks.old disks.new }
    // Where `init` ends with status 0, the disks are a fresh store and logs without batches.
    ensures ready { result ≡ Status.Done → command.now ≡ PlainCommand.Init → Made D.Disk disks.old disks.new }
    // Where `recover` does, over sound disks, each image is recovered.
    ensures recovered { result ≡ Status.Done → command.now ≡ PlainCommand.Recover → Recovers D.Disk disks.old disks.new }
    // What refuses the content of disks leaves them, and so does every command but these two.
    ensures refused { LeavesDisks result → KeptNine D.Disk disks.old disks.new }
    ensures untouched { command.now ≢ PlainCommand.Init → command.now ≢ PlainCommand.Recover → KeptNine D.Disk disks.old disks.new }
{
    let output = answer(alloc, command, disks);
    print(&output, sink)
}

// What a command comes to.
fn answer<D: Disk>(alloc: Global, command: &PlainCommand, disks: &mut Disks<D>) -> Output
    requires eight { length disks.old.logs.items ≡ 8 }
    ensures says { (source : SourceUse) → CommandSays D.Disk (Plain command.now) source disks.old disks.new result.status (text_of result.printed) }
    ensures nine { StillNine D.Disk disks.old disks.new }
    ensures untouched { command.now ≢ PlainCommand.Init → command.now ≢ PlainCommand.Recover → KeptNine D.Disk disks.old disks.new }
{
    match command {
        PlainCommand::Init => answer_init(alloc, disks),
        PlainCommand::Recover => answer_recover(alloc, disks),
        PlainCommand::Dump => answer_dump(alloc, &mut disks.store),
        PlainCommand::Logs => answer_logs(alloc, &mut disks.logs),
        PlainCommand::Gen(number) => answer_gen(alloc, *number),
    }
}

// What making the disks anew comes to.
fn answer_init<D: Disk>(alloc: Global, disks: &mut Disks<D>) -> Output
    requires eight { length disks.old.logs.items ≡ 8 }
    ensures says { InitSays D.Disk disks.old disks.new result.status (text_of result.printed) }
    ensures nine { StillNine D.Disk disks.old disks.new }
{
    match init(disks) {
        Ok(()) => Output::ready(),
        Err(fault) => Output::disk_fault(alloc, fault),
    }
}

// What recovering the disks comes to.
fn answer_recover<D: Disk>(alloc: Global, disks: &mut Disks<D>) -> Output
    requires eight { length disks.old.logs.items ≡ 8 }
    ensures says { RecoverSays D.Disk disks.old disks.new result.status (text_of result.printed) }
    ensures nine { StillNine D.Disk disks.old disks.new }
{
    match recover(alloc, disks) {
        Ok(made) => Output::recovered(alloc, &made),
        Err(refusal) => Output::recover_refusal(alloc, refusal),
    }
}

// What the store comes to.
fn answer_dump<D: Disk>(alloc: Global, store: &mut D) -> Output
    ensures says { DumpSays D.Disk store.old store.new result.status (text_of result.printed) }
    ensures kept { KeptDisk D.Disk store.old store.new }
{
    match dump(alloc, store) {
        Ok(text) => Output::done(text),
        Err(refusal) => Output::store_refusal(alloc, refusal),
    }
}

// What the logs come to.
fn answer_logs<D: Disk>(alloc: Global, logs: &mut Vec<D>) -> Output
    requires eight { length logs.old.items ≡ 8 }
    ensures says { LogsSays D.Disk logs.old.items logs.new.items result.status (text_of result.printed) }
    ensures kept { KeptLogs D.Disk logs.old.items logs.new.items }
{
    match print_logs(alloc, logs) {
        Ok(text) => Output::done(text),
        Err(refusal) => Output::logs_refusal(alloc, refusal),
    }
}

// What the script of a number comes to.
fn answer_gen(alloc: Global, number: u64) -> Output
    ensures { GenSays number result.status (text_of result.printed) }
{
    match generate(alloc, number) {
        Ok(script) => match print_script(alloc, &script) {
            Ok(text) => Output::done(text),
            Err(Memory) => Output::no_memory(),
        },
        Err(Memory) => Output::no_memory(),
    }
}

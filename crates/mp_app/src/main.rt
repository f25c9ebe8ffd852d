//! The program `mp`: several primaries over one page store. It makes a store with its logs, runs scripts of several
//! sessions, on one thread or each primary on its own, recovers after a crash, and prints the store's pages and the logs' mtrs.
#![tactic(auto)]

ghost use Rattle.std.specs.Prelude.{◌≢◌, IfErr};

mod command_line;
mod commands;
mod examples;
mod opening;
mod output;
mod plain;
mod recoveries;
mod session;
mod status;
#[cfg(test)]
mod tests;
mod top;
mod words;

pub use commands::{Command, PlainCommand, SessionCommand, WordsRefusal};
pub use examples::law_recovered_text;
use mp_gates::OpenGate;
use mp_outside::{StdSink, StdSource};
use opening::open_disks;
use output::{Output, print};
pub use plain::plain_call;
pub use session::session_call;
pub use status::Status;
use std::process::ExitCode;
use std::sync::Wait;
use std::thread::Threads;
use std::{env, io};
pub use top::top;
use words::read_words;

fn main(rt: HostRuntime) -> ExitCode {
    let mut sink = StdSink::new(rt);
    let status = match words_of(&rt) {
        Ok(words) => call(&rt, rt, &words, &mut sink),
        Err(output) => print(&output, &mut sink),
    };
    ExitCode::from(status.code())
}

// Does what the words ask for, over the files of the current folder; a run has its threads of `threads`, and waits by it. Words
// that are no command make no files.
fn call<R: Threads + Wait + Sync>(
    threads: &R,
    rt: HostRuntime,
    words: &[String],
    sink: &mut StdSink,
) -> Status {
    if let Err(refusal) = read_words(rt.alloc(), words) {
        return print(&Output::words_refusal(refusal), sink);
    }
    match open_disks(rt) {
        Ok(mut disks) => {
            let mut source = StdSource::new(rt);
            let alloc = rt.alloc();
            top(
                threads,
                alloc,
                words,
                &mut source,
                sink,
                &mut disks,
                &OpenGate,
            )
        }
        Err(output) => print(&output, sink),
    }
}

// The words after the program's name. Where one isn't UTF-8 they are no command.
fn words_of(rt: &HostRuntime) -> Result<Vec<String>, Output>
    ensures { IfErr result (λ output. output.status ≢ Status.Sink) }
{
    let mut words = Vec::new(rt.alloc());
    let all = match env::args(rt) {
        Ok(all) => all,
        Err(e) if e.kind() == io::ErrorKind::InvalidData => return Err(Output::usage()),
        Err(_) => return Err(Output::no_memory()),
    };
    for word in all.skip(1) {
        if words.push(word).is_err() {
            return Err(Output::no_memory());
        }
    }
    Ok(words)
}

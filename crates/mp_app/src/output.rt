//! What is to be printed, and the status that goes with it.

ghost use Rattle.std.specs.Prelude.{◌≡◌, ◌≢◌, IfOk, MatchResult};
ghost use Rattle.std.specs.Io.KnownBytes.{Appends};
ghost use Rattle.mp_outside.specs.Faults.{Rose};
ghost use Rattle.mp_outside.specs.Sinks.{AppendsFront};
ghost use Rattle.mp_app.specs.Printed.{text_of, Prints, PrintsFault, PrintsStoreRefusal, PrintsLogFailed, PrintsDiskFault, PrintsLogsRefusal, PrintsRecoverRefusal, PrintsRecovered, PrintsRunRefusal, PrintsWordsRefusal};
ghost use Rattle.mp_app.specs.Texts.{usage_text, script_fault_text, source_fault_text, store_refused_text, store_failed_text, log_failed_text, log_refused_text, gap_text, unfit_change_text, needs_recover_text, spent_text, spent_word, unclean_text, ready_text, no_memory_text};

use crate::commands::WordsRefusal;
use crate::recoveries::print_recovered;
use crate::status::Status;
use mp_cluster::{ClusterRefusal, SpentNumber};
use mp_commands::{DiskFault, LogsRefusal};
use mp_model::{Memory, Text};
use mp_outside::{Sink, write_all};
use mp_recover::{RecoverRefusal, Recovered};
use mp_store::StoreRefusal;
use std::alloc::{AllocError, Global};

/// A text: one of the program's own, or one that was made.
#[derive(Debug, Drop)]
pub enum Printed {
    Fixed(&'static [u8]),
    Made(Text),
}

impl Printed {
    pub fn as_slice(&self) -> &[u8]
        ensures { result.now ≡ text_of self.now }
    {
        match self {
            Printed::Fixed(text) => text,
            Printed::Made(text) => text.as_slice(),
        }
    }
}

/// A status with its text.
#[derive(Debug, Drop)]
pub struct Output {
    pub status: Status,
    pub printed: Printed,
}

impl Output {
    /// The words are no command.
    pub fn usage() -> Output
        ensures { Prints Status.Usage usage_text result }
    {
        Output::fixed(
            Status::Usage,
            b"usage: mp init, step, run, recover, dump, logs or gen N\n",
        )
    }

    /// The script's first fault, with its line. Where there is no memory for the text, that is what is said; so it is
    /// with each text that is made.
    pub fn script_fault(alloc: Global, fault: u8, line: u32) -> Output
        ensures { PrintsFault (record { fault = fault; line = line }) result }
    {
        Output::made(Status::Script, fault_text(alloc, fault, line))
    }

    /// The source failed.
    pub fn source_fault() -> Output
        ensures { Prints Status.Source source_fault_text result }
    {
        Output::fixed(Status::Source, b"fault source\n")
    }

    /// The store is refused.
    pub fn store_refusal(alloc: Global, refusal: StoreRefusal) -> Output
        ensures { PrintsStoreRefusal refusal result }
    {
        match refusal {
            StoreRefusal::NotStore { place } => {
                Output::made(Status::Store, place_text(alloc, place))
            }
            StoreRefusal::Disk => Output::store_failed(),
            StoreRefusal::Memory => Output::no_memory(),
        }
    }

    /// The store's disk failed.
    pub fn store_failed() -> Output
        ensures { Prints Status.Disk store_failed_text result }
    {
        Output::fixed(Status::Disk, b"fault disk store\n")
    }

    /// The disk of a primary's log failed.
    pub fn log_failed(alloc: Global, primary: u8) -> Output
        ensures { PrintsLogFailed primary result }
    {
        Output::made(Status::Disk, log_text(alloc, primary))
    }

    /// A disk failed.
    pub fn disk_fault(alloc: Global, fault: DiskFault) -> Output
        ensures { PrintsDiskFault fault result }
    {
        match fault {
            DiskFault::Store => Output::store_failed(),
            DiskFault::Log { primary } => Output::log_failed(alloc, primary),
        }
    }

    /// The logs are refused.
    pub fn logs_refusal(alloc: Global, refusal: LogsRefusal) -> Output
        ensures { PrintsLogsRefusal refusal result }
    {
        match refusal {
            LogsRefusal::Log { primary, place } => {
                Output::made(Status::Store, log_place_text(alloc, primary, place))
            }
            LogsRefusal::LogDisk { primary } => Output::log_failed(alloc, primary),
            LogsRefusal::Memory => Output::no_memory(),
        }
    }

    /// Recovery is refused.
    pub fn recover_refusal(alloc: Global, refusal: RecoverRefusal) -> Output
        ensures { PrintsRecoverRefusal refusal result }
    {
        match refusal {
            RecoverRefusal::Store { place } => {
                Output::made(Status::Store, place_text(alloc, place))
            }
            RecoverRefusal::StoreDisk => Output::store_failed(),
            RecoverRefusal::Log { primary, place } => {
                Output::made(Status::Store, log_place_text(alloc, primary, place))
            }
            RecoverRefusal::LogDisk { primary } => Output::log_failed(alloc, primary),
            RecoverRefusal::Gap {
                page,
                wanted,
                found,
            } => Output::made(Status::Store, gap_text(alloc, page, wanted, found)),
            RecoverRefusal::NotApplicable { page, llsn } => {
                Output::made(Status::Store, change_text(alloc, page, llsn))
            }
            RecoverRefusal::Spent { base } => Output::made(
                Status::Store,
                spent_text(alloc, SpentNumber::Generations, base, 1),
            ),
            RecoverRefusal::Memory => Output::no_memory(),
        }
    }

    /// A run is refused.
    pub fn run_refusal(alloc: Global, refusal: ClusterRefusal) -> Output
        ensures { PrintsRunRefusal refusal result }
    {
        match refusal {
            ClusterRefusal::Store { place } => Output::made(
                Status::Store,
                place_text(alloc, place),
            ),
            ClusterRefusal::StoreDisk => Output::store_failed(),
            ClusterRefusal::Log { primary, place } => {
                Output::made(Status::Store, log_place_text(alloc, primary, place))
            }
            ClusterRefusal::LogDisk { primary } => Output::log_failed(alloc, primary),
            ClusterRefusal::NeedsRecover { primary, llsn } => {
                Output::made(Status::Store, needs_recover_text(alloc, primary, llsn))
            }
            ClusterRefusal::NotClean => Output::fixed(Status::Store, b"refused unclean store\n"),
            ClusterRefusal::Spent { what, base, add } => {
                Output::made(Status::Store, spent_text(alloc, what, base, add))
            }
            ClusterRefusal::Memory => Output::no_memory(),
        }
    }

    /// What a recovery made.
    pub fn recovered(alloc: Global, made: &Recovered) -> Output
        ensures { PrintsRecovered made.now result }
    {
        match print_recovered(alloc, made) {
            Ok(text) => Output::done(text),
            Err(Memory) => Output::no_memory(),
        }
    }

    /// The disks were made anew.
    pub fn ready() -> Output
        ensures { Prints Status.Done ready_text result }
    {
        Output::fixed(Status::Done, b"ready\n")
    }

    /// The words weren't read.
    pub fn words_refusal(refusal: WordsRefusal) -> Output
        ensures { PrintsWordsRefusal refusal result }
    {
        match refusal {
            WordsRefusal::Usage => Output::usage(),
            WordsRefusal::Memory => Output::no_memory(),
        }
    }

    /// There was no memory.
    pub fn no_memory() -> Output
        ensures { Prints Status.Memory no_memory_text result }
    {
        Output::fixed(Status::Memory, b"no memory\n")
    }

    /// What a command was asked for.
    pub fn done(text: Text) -> Output
        ensures { Prints Status.Done text.items result }
    {
        Output {
            status: Status::Done,
            printed: Printed::Made(text),
        }
    }

    /// The transcript of a run in which a primary went down.
    pub fn stopped(text: Text) -> Output
        ensures { Prints Status.Stopped text.items result }
    {
        Output {
            status: Status::Stopped,
            printed: Printed::Made(text),
        }
    }

    fn fixed(status: Status, text: &'static [u8]) -> Output
        ensures { Prints status text.now result }
    {
        Output {
            status,
            printed: Printed::Fixed(text),
        }
    }

    // A text that was made; where there was no memory for it, that is what is said.
    fn made(status: Status, text: Result<Text, AllocError>) -> Output
        ensures { MatchResult text (λ it. Prints status it.items result) (λ _. Prints Status.Memory no_memory_text result) }
    {
        match text {
            Ok(text) => Output {
                status,
                printed: Printed::Made(text),
            },
            Err(_) => Output::no_memory(),
        }
    }
}

/// Writes an output's text, and answers its status, or that the sink failed.
pub fn print<K: Sink>(output: &Output, sink: &mut K) -> Status
    requires { output.now.status ≢ Status.Sink }
    ensures written { result ≢ Status.Sink
        → (result ≡ output.now.status) × Appends (K.written sink.old) (K.written sink.new) (text_of output.now.printed) }
    ensures cut { result ≡ Status.Sink
        → AppendsFront (K.written sink.old) (K.written sink.new) (text_of output.now.printed) }
    ensures sink_failed { result ≡ Status.Sink → Rose (K.faults sink.old) (K.faults sink.new) }
{
    match write_all(sink, output.printed.as_slice()) {
        Ok(()) => output.status,
        Err(_) => Status::Sink,
    }
}

fn fault_text(alloc: Global, fault: u8, line: u32) -> Result<Text, AllocError>
    ensures { IfOk result (λ text. text.items ≡ script_fault_text (record { fault = fault; line = line })) }
{
    let text = format!(in alloc; "refused script fault {fault} line {line}\n")?;
    Ok(Text::from_vec(text.into_bytes()))
}

fn place_text(alloc: Global, place: u64) -> Result<Text, AllocError>
    ensures { IfOk result (λ text. text.items ≡ store_refused_text place) }
{
    let text = format!(in alloc; "refused store place {place}\n")?;
    Ok(Text::from_vec(text.into_bytes()))
}

fn log_text(alloc: Global, primary: u8) -> Result<Text, AllocError>
    ensures { IfOk result (λ text. text.items ≡ log_failed_text primary) }
{
    let text = format!(in alloc; "fault disk log {primary}\n")?;
    Ok(Text::from_vec(text.into_bytes()))
}

fn log_place_text(alloc: Global, primary: u8, place: u64) -> Result<Text, AllocError>
    ensures { IfOk result (λ text. text.items ≡ log_refused_text primary place) }
{
    let text = format!(in alloc; "refused log {primary} place {place}\n")?;
    Ok(Text::from_vec(text.into_bytes()))
}

fn gap_text(alloc: Global, page: u16, wanted: u64, found: u64) -> Result<Text, AllocError>
    ensures { IfOk result (λ text. text.items ≡ gap_text page wanted found) }
{
    let text = format!(in alloc; "refused gap page {page} wanted {wanted} found {found}\n")?;
    Ok(Text::from_vec(text.into_bytes()))
}

fn change_text(alloc: Global, page: u16, llsn: u64) -> Result<Text, AllocError>
    ensures { IfOk result (λ text. text.items ≡ unfit_change_text page llsn) }
{
    let text = format!(in alloc; "refused change page {page} llsn {llsn}\n")?;
    Ok(Text::from_vec(text.into_bytes()))
}

fn needs_recover_text(alloc: Global, primary: u8, llsn: u64) -> Result<Text, AllocError>
    ensures { IfOk result (λ text. text.items ≡ needs_recover_text primary llsn) }
{
    let text = format!(in alloc; "refused recover primary {primary} llsn {llsn}\n")?;
    Ok(Text::from_vec(text.into_bytes()))
}

fn spent_word(what: SpentNumber) -> &'static str
    ensures { result.now ≡ spent_word what }
{
    match what {
        SpentNumber::Generations => "generations",
        SpentNumber::Versions => "versions",
        SpentNumber::Timestamps => "timestamps",
        SpentNumber::Llsn => "llsn",
    }
}

fn spent_text(alloc: Global, what: SpentNumber, base: u64, add: u64) -> Result<Text, AllocError>
    ensures { IfOk result (λ text. text.items ≡ spent_text what base add) }
{
    let word = spent_word(what);
    let text = format!(in alloc; "refused spent {word} base {base} add {add}\n")?;
    Ok(Text::from_vec(text.into_bytes()))
}

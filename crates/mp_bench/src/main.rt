//! Work to be timed from outside. The words name the work, or all of it, and a number of rounds; what is printed depends on
//! all that was done, and is the same for the same words.
#![tactic(auto)]

mod changes;
mod commits;
mod mtrs;
mod pages;
mod tables;
mod turns;

use mp_model::Memory;
use std::alloc::Global;
use std::process::ExitCode;
use std::thread::Threads;
use std::{env, io};

fn main(rt: HostRuntime) -> io::Result<ExitCode> {
    let mut words = env::args(&rt)?.skip(1);
    let (Some(work), Some(rounds), None) = (words.next(), words.next(), words.next()) else {
        return usage(&rt);
    };
    let (Ok(rounds), Some(works)) = (rounds.parse::<u32>(), works_of(work.as_str())) else {
        return usage(&rt);
    };
    for work in works {
        match work.sum(&rt, rt.alloc(), rounds) {
            Ok(sum) => println!(rt; "{} {rounds} sum {sum}", work.name())?,
            Err(Memory) => return Err(io::ErrorKind::OutOfMemory.into()),
        }
    }
    Ok(ExitCode::SUCCESS)
}

fn usage(rt: &HostRuntime) -> io::Result<ExitCode> {
    println!(*rt;
        "usage: mp_bench pages, mtrs, commits, threads, tables, turns, contend, changes, rivals or all ROUNDS"
    )?;
    Ok(ExitCode::from(1))
}

/// What can be timed.
#[derive(Clone, Copy, Debug)]
enum Work {
    /// Leaves are filled, written as bytes and read back.
    Pages,
    /// Mtrs are written as bytes and read back.
    Mtrs,
    /// One thread commits 200 transactions over a shared table.
    Commits,
    /// Four threads commit 200 transactions each over a shared table.
    Threads,
    /// A table is opened and closed.
    Tables,
    /// One thread takes one page 10,000 times in turn over a shared table.
    Turns,
    /// Four threads take one page 10,000 times each in turn over a shared table.
    Contend,
    /// One thread changes one page 5,000 times in turn over a shared table.
    Changes,
    /// Four threads change one page 5,000 times each in turn over a shared table.
    Rivals,
}

// The works that a word names.
fn works_of(word: &str) -> Option<&'static [Work]> {
    match word {
        "pages" => Some(&[Work::Pages]),
        "mtrs" => Some(&[Work::Mtrs]),
        "commits" => Some(&[Work::Commits]),
        "threads" => Some(&[Work::Threads]),
        "tables" => Some(&[Work::Tables]),
        "turns" => Some(&[Work::Turns]),
        "contend" => Some(&[Work::Contend]),
        "changes" => Some(&[Work::Changes]),
        "rivals" => Some(&[Work::Rivals]),
        "all" => Some(&[
            Work::Pages,
            Work::Mtrs,
            Work::Commits,
            Work::Threads,
            Work::Tables,
            Work::Turns,
            Work::Contend,
            Work::Changes,
            Work::Rivals,
        ]),
        _ => None,
    }
}

impl Work {
    fn name(self) -> &'static str {
        match self {
            Work::Pages => "pages",
            Work::Mtrs => "mtrs",
            Work::Commits => "commits",
            Work::Threads => "threads",
            Work::Tables => "tables",
            Work::Turns => "turns",
            Work::Contend => "contend",
            Work::Changes => "changes",
            Work::Rivals => "rivals",
        }
    }

    fn sum<R: Threads + Sync>(self, rt: &R, alloc: Global, rounds: u32) -> Result<u64, Memory> {
        match self {
            Work::Pages => Ok(pages::write_and_read(rounds)),
            Work::Mtrs => mtrs::write_and_read(alloc, rounds),
            Work::Commits => commits::by_one(alloc, rounds),
            Work::Threads => commits::by_four(rt, alloc, rounds),
            Work::Tables => tables::open_and_close_each(alloc, rounds),
            Work::Turns => turns::by_one(alloc, rounds),
            Work::Contend => turns::by_four(rt, alloc, rounds),
            Work::Changes => changes::by_one(alloc, rounds),
            Work::Rivals => changes::by_four(rt, alloc, rounds),
        }
    }
}

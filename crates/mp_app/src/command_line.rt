//! The command line's parser.

use clap::{Arg, ArgAction, Command, Error};
use std::alloc::Global;

/// Whether the command line's parser takes words that are a command. It refuses them only where there is no memory.
pub(crate) fn is_parsed(alloc: Global, words: &[String]) -> bool {
    match parse(alloc, words) {
        Ok(taken) => taken,
        Err(_) => false,
    }
}

// Whether the parser finds a command among the words.
fn parse(alloc: Global, words: &[String]) -> Result<bool, Error> {
    let name = Arg::new(alloc, "command")
        .required(true)
        .action(ArgAction::Set);
    let number = Arg::new(alloc, "number").action(ArgAction::Set);
    let command = Command::new(alloc, "mp")
        .no_binary_name(true)
        .arg(name)?
        .arg(number)?;
    let matches = command.try_get_matches_from(words)?;
    Ok(matches.contains_id("command"))
}

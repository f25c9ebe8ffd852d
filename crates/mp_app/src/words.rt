//! The words after the program's name, and which command they are.

ghost use Rattle.std.specs.Prelude.{◌≡◌, ◌↔◌, ◌<◌, ◌^◌, ℕ, [], ◌∷◌, IsTrue, None, IfSome, map, string_bytes, decimal};
ghost use Rattle.mp_app.specs.Commands.{Names, NoCommand, ReadsWords};

use crate::command_line::is_parsed;
use crate::commands::{Command, PlainCommand, SessionCommand, WordsRefusal};
use itoa::Buffer;
use std::alloc::Global;

/// The command that the words after the program's name are. `Usage` comes exactly where they are none, also where they
/// begin with `-` or are `help`, or a number has a leading zero or is 2^64 or more; `Memory` only for words that are a command.
pub fn read_words(alloc: Global, words: &[String]) -> Result<Command, WordsRefusal>
    ensures { ReadsWords (map string_bytes words.now) result }
{
    let Some(command) = command_of(words) else {
        return Err(WordsRefusal::Usage);
    };
    if is_parsed(alloc, words) {
        Ok(command)
    } else {
        Err(WordsRefusal::Memory)
    }
}

// The command that the words are.
fn command_of(words: &[String]) -> Option<Command>
    ensures some { IfSome result (Names (map string_bytes words.now)) }
    ensures none { result ≡ None → NoCommand (map string_bytes words.now) }
{
    match words {
        [word] => command_named(word.as_str()),
        [word, number] => command_numbered(word.as_str(), number.as_str()),
        _ => None,
    }
}

// The command of one word.
fn command_named(word: &str) -> Option<Command>
    ensures some { IfSome result (Names (word.now ∷ [])) }
    ensures none { result ≡ None → NoCommand (word.now ∷ []) }
{
    if is_word(word, "step") {
        Some(Command::Session(SessionCommand::Step(None)))
    } else if is_word(word, "run") {
        Some(Command::Session(SessionCommand::Run(None)))
    } else if is_word(word, "init") {
        Some(Command::Plain(PlainCommand::Init))
    } else if is_word(word, "recover") {
        Some(Command::Plain(PlainCommand::Recover))
    } else if is_word(word, "dump") {
        Some(Command::Plain(PlainCommand::Dump))
    } else if is_word(word, "logs") {
        Some(Command::Plain(PlainCommand::Logs))
    } else {
        None
    }
}

// The command of a word and a number.
fn command_numbered(word: &str, number: &str) -> Option<Command>
    ensures some { IfSome result (Names (word.now ∷ number.now ∷ [])) }
    ensures none { result ≡ None → NoCommand (word.now ∷ number.now ∷ []) }
{
    let number = read_number(number)?;
    if is_word(word, "step") {
        Some(Command::Session(SessionCommand::Step(Some(number))))
    } else if is_word(word, "run") {
        Some(Command::Session(SessionCommand::Run(Some(number))))
    } else if is_word(word, "gen") {
        Some(Command::Plain(PlainCommand::Gen(number)))
    } else {
        None
    }
}

// The number whose decimal text a word is.
fn read_number(word: &str) -> Option<u64>
    ensures some { IfSome result (λ number. word.now ≡ decimal number) }
    ensures none { result ≡ None → (number : ℕ) → number < 2 ^ 64 → word.now ≡ decimal number → ⊥ }
{
    match word.parse::<u64>() {
        Ok(number) if is_word(Buffer::new().format(number), word) => Some(number),
        Ok(_) => None,
        Err(_) => None,
    }
}

fn is_word(word: &str, wanted: &str) -> bool
    ensures { IsTrue result ↔ (word.now ≡ wanted.now) }
{
    word == wanted
}

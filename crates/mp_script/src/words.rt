//! Words, numbers and statements as they stand in a line.

ghost use Rattle.std.specs.Prelude.{◌≡◌, ◌==◌, IfOk, map};
ghost use Rattle.std.specs.List.{list_all};
ghost use Rattle.std.specs.Option.{option_map};
ghost use Rattle.std.specs.Char.{is_ascii_digit};
ghost use Rattle.mp_script.specs.Words.{is_numeral, word_number, bare_stmt, key_stmt, put_stmt, copy_stmt, scan_stmt, pair_stmt, stmt_of};
ghost use Rattle.mp_script.specs.Words.{words_of, is_skipped, name_digits};

use crate::statements::Stmt;
use mp_model::{Memory, Value};
use std::alloc::Global;
use std::str;

/// The first kept line isn't two words of which the first is `primaries`.
pub const BAD_HEADER: u8 = 1;
/// A first word that is none, an unknown verb, or a count of words that isn't the verb's.
pub const UNKNOWN_WORD: u8 = 2;
/// A number that isn't one of the language, or is 0 or too high where it may not be.
pub const BAD_NUMBER: u8 = 3;
/// A value that isn't 1 to 32 bytes of 33 to 126.
pub const BAD_VALUE: u8 = 4;
/// A session that isn't declared above, or is declared twice.
pub const UNKNOWN_SESSION: u8 = 5;
/// A statement outside a transaction.
pub const NO_TRANSACTION: u8 = 6;
/// A `begin` inside a transaction.
pub const OPEN_TWICE: u8 = 7;
/// More primaries, sessions, rows or statements than there may be.
pub const TOO_MANY: u8 = 8;
/// More bytes than there may be.
pub const TOO_LONG: u8 = 9;

/// The most rows that a `scan` may ask for.
const MOST_ROWS: u32 = 100;

/// The words of a line, which each single space parts.
pub fn words_of<'a>(alloc: Global, line: &'a [u8]) -> Result<Vec<&'a [u8]>, Memory>
    ensures { IfOk result (λ words. map (λ w. w.now) words.items ≡ words_of line.now) }
{
    Ok(line.split(|byte| *byte == b' ').collect(alloc)?)
}

/// Whether a line is skipped: it is empty, or begins with `#`.
pub fn is_skipped(line: &[u8]) -> bool
    ensures { result ≡ is_skipped line.now }
{
    match line.first() {
        Some(first) => *first == b'#',
        None => true,
    }
}

/// What stands behind the letter s in a session's name: one or more digits. None where the word is no name.
pub fn name_digits(word: &[u8]) -> Option<&[u8]>
    ensures { option_map (λ d. d.now) result ≡ name_digits word.now }
{
    let (letter, digits) = word.split_first()?;
    if *letter == b's' && !digits.is_empty() && are_digits(digits) {
        Some(digits)
    } else {
        None
    }
}

/// The number that a word is: `0`, or digits that begin with 1 to 9, of at most 4294967295.
pub fn read_number(word: &[u8]) -> Option<u32>
    ensures { result ≡ word_number word.now }
{
    if !is_numeral(word) {
        return None;
    }
    match str::from_utf8(word) {
        Ok(text) => text.parse::<u32>().ok(),
        Err(_) => None,
    }
}

fn is_numeral(word: &[u8]) -> bool
    ensures { result ≡ is_numeral word.now }
{
    match word.first() {
        None => false,
        Some(first) => (*first != b'0' || word.len() == 1) && are_digits(word),
    }
}

fn are_digits(word: &[u8]) -> bool
    ensures { result ≡ list_all is_ascii_digit word.now }
{
    word.iter().all(|byte| byte.is_ascii_digit())
}

/// The statement that words say behind their session's name, or the first fault in them.
pub fn read_stmt(words: &[&[u8]]) -> Result<Stmt, u8>
    ensures { result ≡ stmt_of (map (λ w. w.now) words.now) }
{
    match words {
        [verb] => bare_stmt(verb),
        [verb, key] => key_stmt(verb, key),
        [verb, first, second] => pair_stmt(verb, first, second),
        [] => Err(UNKNOWN_WORD),
        [_, _, _, _, ..] => Err(UNKNOWN_WORD),
    }
}

fn bare_stmt(verb: &[u8]) -> Result<Stmt, u8>
    ensures { result ≡ bare_stmt verb.now }
{
    if verb == b"begin".as_slice() {
        Ok(Stmt::Begin)
    } else if verb == b"commit".as_slice() {
        Ok(Stmt::Commit)
    } else if verb == b"rollback".as_slice() {
        Ok(Stmt::Rollback)
    } else {
        Err(UNKNOWN_WORD)
    }
}

fn key_stmt(verb: &[u8], word: &[u8]) -> Result<Stmt, u8>
    ensures { result ≡ key_stmt verb.now word.now }
{
    if verb == b"get".as_slice() {
        let key = read_number(word).ok_or(BAD_NUMBER)?;
        Ok(Stmt::Get { key })
    } else if verb == b"del".as_slice() {
        let key = read_number(word).ok_or(BAD_NUMBER)?;
        Ok(Stmt::Del { key })
    } else {
        Err(UNKNOWN_WORD)
    }
}

fn pair_stmt(verb: &[u8], first: &[u8], second: &[u8]) -> Result<Stmt, u8>
    ensures { result ≡ pair_stmt verb.now first.now second.now }
{
    if verb == b"put".as_slice() {
        put_stmt(read_number(first), second)
    } else if verb == b"copy".as_slice() {
        copy_stmt(read_number(first), read_number(second))
    } else if verb == b"scan".as_slice() {
        scan_stmt(read_number(first), read_number(second))
    } else {
        Err(UNKNOWN_WORD)
    }
}

fn put_stmt(key: Option<u32>, word: &[u8]) -> Result<Stmt, u8>
    ensures { result ≡ put_stmt key word.now }
{
    let key = key.ok_or(BAD_NUMBER)?;
    let value = Value::read(word).ok_or(BAD_VALUE)?;
    Ok(Stmt::Put { key, value })
}

fn copy_stmt(from: Option<u32>, to: Option<u32>) -> Result<Stmt, u8>
    ensures { result ≡ copy_stmt from to }
{
    Ok(Stmt::Copy {
        from: from.ok_or(BAD_NUMBER)?,
        to: to.ok_or(BAD_NUMBER)?,
    })
}

fn scan_stmt(low: Option<u32>, most: Option<u32>) -> Result<Stmt, u8>
    ensures { result ≡ scan_stmt low most }
{
    let low = low.ok_or(BAD_NUMBER)?;
    let most = most.ok_or(BAD_NUMBER)?;
    if most > MOST_ROWS {
        return Err(TOO_MANY);
    }
    Ok(Stmt::Scan { low, most })
}

//! Reading replies.

ghost use Rattle.std.specs.Prelude.{◌≡◌, ℕ, List, true, false, drop, IfOk, IfSome, IfNone, Option, Some, None};
ghost use Rattle.std.specs.Option.{option_map};
ghost use Rattle.mp_model.specs.declared.ids.TrxName.{TrxName};
ghost use Rattle.mp_model.specs.declared.key_value.KeyValue.{KeyValue};
ghost use Rattle.mp_model.specs.declared.replies.Reply.{Reply};
ghost use Rattle.mp_report.specs.Shown.{texts, bare_found};
ghost use Rattle.mp_report.specs.Reading.{is_first, with_first, read_stamp, read_statement, read_primary, read_found, read_commit, read_verb, read_write, read_other, read_all, read_row, read_names, read_scan, read_rows, read_reply, read_waits, read_answer};
ghost use Rattle.mp_report.specs.Bare.{bare_answer};

use crate::read::words::{read_number, read_primary, read_row, read_stamp, read_statement};
use mp_model::{Answer, KeyValue, Memory, Names, Reply, Rows, TrxName, Value, WriteVerb};
use std::alloc::Global;

// The words behind the first, where that is this one.
fn behind<'a, 'b>(first: &[u8], words: &'a [&'b [u8]]) -> Option<&'a [&'b [u8]]>
    ensures some { IfSome result (λ rest. (is_first first.now (texts words.now) ≡ true) × (texts rest.now ≡ drop 1 (texts words.now))) }
    ensures none { IfNone result (is_first first.now (texts words.now) ≡ false) }
{
    let (word, rest) = words.split_first()?;
    if *word == first { Some(rest) } else { None }
}

// The timestamp that the first word is, and the words behind it.
fn first_stamp<'a, 'b>(words: &'a [&'b [u8]]) -> Option<(u64, &'a [&'b [u8]])>
    ensures { (reply : ℕ → Reply) → option_map (λ found. (reply found.0, texts found.1.now)) result ≡ with_first read_stamp reply (texts words.now) }
{
    let (word, rest) = words.split_first()?;
    let stamp = read_stamp(word)?;
    Some((stamp, rest))
}

// The transaction that the first word is, and the words behind it.
fn first_name<'a, 'b>(words: &'a [&'b [u8]]) -> Option<(TrxName, &'a [&'b [u8]])>
    ensures { (reply : TrxName → Reply) → option_map (λ found. (reply found.0, texts found.1.now)) result ≡ with_first read_statement reply (texts words.now) }
{
    let (word, rest) = words.split_first()?;
    let name = read_statement(word)?;
    Some((name, rest))
}

// The primary that the first word is, and the words behind it.
fn first_primary<'a, 'b>(words: &'a [&'b [u8]]) -> Option<(u8, &'a [&'b [u8]])>
    ensures { (reply : ℕ → Reply) → option_map (λ found. (reply found.0, texts found.1.now)) result ≡ with_first read_primary reply (texts words.now) }
{
    let (word, rest) = words.split_first()?;
    let primary = read_primary(word)?;
    Some((primary, rest))
}

// What a `get` found, by the words behind it.
fn read_found<'a, 'b>(words: &'a [&'b [u8]]) -> Option<(Reply, &'a [&'b [u8]])>
    ensures { option_map bare_found result ≡ read_found (texts words.now) }
{
    if let Some(rest) = behind(b"no", words)
        && let Some(rest) = behind(b"row", rest)
    {
        return Some((Reply::Got(None), rest));
    }
    let (word, rest) = words.split_first()?;
    let value = Value::read(word)?;
    Some((Reply::Got(Some(value)), rest))
}

// How a `commit` ended, by the words behind it.
fn read_commit<'a, 'b>(words: &'a [&'b [u8]]) -> Option<(Reply, &'a [&'b [u8]])>
    ensures { option_map bare_found result ≡ read_commit (texts words.now) }
{
    if let Some(rest) = behind(b"none", words) {
        return Some((Reply::CommittedNone, rest));
    }
    if let Some(rest) = behind(b"unknown", words) {
        let (cts, rest) = first_stamp(rest)?;
        return Some((Reply::Unknown(cts), rest));
    }
    let (cts, rest) = first_stamp(words)?;
    Some((Reply::Committed(cts), rest))
}

fn read_verb(word: &[u8]) -> Option<WriteVerb>
    ensures { result ≡ read_verb word.now }
{
    if word == b"put".as_slice() {
        Some(WriteVerb::Put)
    } else if word == b"del".as_slice() {
        Some(WriteVerb::Del)
    } else if word == b"copy".as_slice() {
        Some(WriteVerb::Copy)
    } else {
        None
    }
}

// How a write ended, by the words behind its verb.
fn read_write<'a, 'b>(verb: WriteVerb, words: &'a [&'b [u8]]) -> Option<(Reply, &'a [&'b [u8]])>
    ensures { option_map bare_found result ≡ read_write verb (texts words.now) }
{
    if let Some(rest) = behind(b"ok", words) {
        return Some((Reply::Wrote(verb), rest));
    }
    if let Some(rest) = behind(b"conflict", words) {
        let (cts, rest) = first_stamp(rest)?;
        return Some((Reply::Conflict(verb, cts), rest));
    }
    if let Some(rest) = behind(b"held", words) {
        let (name, rest) = first_name(rest)?;
        return Some((Reply::Held(verb, name), rest));
    }
    let rest = behind(b"full", words)?;
    let rest = behind(b"4096", rest)?;
    Some((Reply::Full(verb), rest))
}

// A reply that begins with none of `begin`, `get`, `scan` and `commit`, and the words behind it.
fn read_other<'a, 'b>(word: &[u8], words: &'a [&'b [u8]]) -> Option<(Reply, &'a [&'b [u8]])>
    ensures { option_map bare_found result ≡ read_other word.now (texts words.now) }
{
    if word == b"rollback".as_slice() {
        let rest = behind(b"ok", words)?;
        Some((Reply::RolledBack, rest))
    } else if word == b"skipped".as_slice() {
        Some((Reply::Skipped, words))
    } else if word == b"stopped".as_slice() {
        let (by, rest) = first_primary(words)?;
        Some((Reply::Stopped(by), rest))
    } else {
        let verb = read_verb(word)?;
        read_write(verb, words)
    }
}

// The rows that the words are, where each is one.
fn rows_of(alloc: Global, words: &[&[u8]]) -> Result<Option<Rows>, Memory>
    ensures { IfOk result (λ found. option_map (λ rows. rows.items) found ≡ read_all read_row (texts words.now)) }
{
    let mut rows = Rows::new(alloc);
    for word in words {
        let Some(row) = read_row(word) else {
            return Ok(None);
        };
        rows.push(row)?;
    }
    Ok(Some(rows))
}

// The transactions that the words are, where each is one.
fn names_of(alloc: Global, words: &[&[u8]]) -> Result<Option<Names>, Memory>
    ensures { IfOk result (λ found. option_map (λ names. names.items) found ≡ read_names (texts words.now)) }
{
    let mut names = Names::new(alloc);
    for word in words {
        let Some(name) = read_statement(word) else {
            return Ok(None);
        };
        names.push(name)?;
    }
    Ok(Some(names))
}

// So many rows, and the words behind them.
fn read_rows<'a, 'b>(
    alloc: Global,
    count: u64,
    words: &'a [&'b [u8]],
) -> Result<Option<(Rows, &'a [&'b [u8]])>, Memory>
    ensures { IfOk result (λ found. option_map (λ rows. (rows.0.items, texts rows.1.now)) found ≡ read_rows count (texts words.now)) }
{
    if (words.len() as u64) < count {
        return Ok(None);
    }
    let (front, rest) = words.split_at(count as usize);
    match rows_of(alloc, front)? {
        Some(rows) => Ok(Some((rows, rest))),
        None => Ok(None),
    }
}

// The rows of a `scan`, by the words behind it.
fn read_scan<'a, 'b>(
    alloc: Global,
    words: &'a [&'b [u8]],
) -> Result<Option<(Reply, &'a [&'b [u8]])>, Memory>
    ensures { IfOk result (λ found. option_map bare_found found ≡ read_scan (texts words.now)) }
{
    let Some((word, rest)) = words.split_first() else {
        return Ok(None);
    };
    let Some(count) = read_number(word, 0, u64::MAX) else {
        return Ok(None);
    };
    match read_rows(alloc, count, rest)? {
        Some((rows, rest)) => Ok(Some((Reply::Scanned(rows), rest))),
        None => Ok(None),
    }
}

// A reply, and the words behind it.
fn read_reply<'a, 'b>(
    alloc: Global,
    words: &'a [&'b [u8]],
) -> Result<Option<(Reply, &'a [&'b [u8]])>, Memory>
    ensures { IfOk result (λ found. option_map bare_found found ≡ read_reply (texts words.now)) }
{
    let Some((word, rest)) = words.split_first() else {
        return Ok(None);
    };
    if *word == b"begin".as_slice() {
        Ok(read_began(rest))
    } else if *word == b"get".as_slice() {
        Ok(read_found(rest))
    } else if *word == b"scan".as_slice() {
        read_scan(alloc, rest)
    } else if *word == b"commit".as_slice() {
        Ok(read_commit(rest))
    } else {
        Ok(read_other(word, rest))
    }
}

// The view of a `begin`, by the words behind it.
fn read_began<'a, 'b>(words: &'a [&'b [u8]]) -> Option<(Reply, &'a [&'b [u8]])>
    ensures { option_map bare_found result ≡ with_first read_stamp Reply.Began (texts words.now) }
{
    let (view, rest) = first_stamp(words)?;
    Some((Reply::Began(view), rest))
}

// The transactions that a statement waited for, by the words behind its reply.
fn read_waits(alloc: Global, words: &[&[u8]]) -> Result<Option<Names>, Memory>
    ensures { IfOk result (λ found. option_map (λ names. names.items) found ≡ read_waits (texts words.now)) }
{
    let Some((word, names)) = words.split_first() else {
        return Ok(Some(Names::new(alloc)));
    };
    if *word == b"after".as_slice() && !names.is_empty() {
        names_of(alloc, names)
    } else {
        Ok(None)
    }
}

/// The answer that the words of a line say. None where they say none.
pub fn read_answer(alloc: Global, words: &[&[u8]]) -> Result<Option<Answer>, Memory>
    ensures { IfOk result (λ found. option_map bare_answer found ≡ read_answer (texts words.now)) }
{
    let Some((word, rest)) = words.split_first() else {
        return Ok(None);
    };
    let Some(statement) = read_statement(word) else {
        return Ok(None);
    };
    let Some((reply, rest)) = read_reply(alloc, rest)? else {
        return Ok(None);
    };
    match read_waits(alloc, rest)? {
        Some(waits) => Ok(Some(Answer {
            session: statement.session,
            index: statement.first,
            reply,
            waits,
        })),
        None => Ok(None),
    }
}

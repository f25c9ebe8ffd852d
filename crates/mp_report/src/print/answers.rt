//! Printing an answer: its statement, its reply, and the transactions that it waited for.

ghost use Rattle.std.specs.Prelude.{◌≡◌, ◌++◌, OnOk, map};
ghost use Rattle.mp_report.specs.Lines.{spaced, line};
ghost use Rattle.mp_report.specs.Answers.{reply_words, wait_words, answer_words, row_word, name_word};

use crate::print::words::{push_name, push_row, push_statement, push_verb};
use mp_model::{Answer, KeyValue, Memory, Reply, Rows, Text, TrxName, Value, WriteVerb};
use mp_script::push_numbered;

/// Adds the line of an answer.
pub fn push_answer(text: &mut Text, answer: &Answer) -> Result<(), Memory>
    ensures { OnOk result (text.new.items ≡ text.old.items ++ line (answer_words answer.now)) }
{
    push_statement(text, answer.session, answer.index)?;
    push_reply(text, &answer.reply)?;
    push_waits(text, answer.waits.as_slice())?;
    text.push(b'\n')
}

fn push_reply(text: &mut Text, reply: &Reply) -> Result<(), Memory>
    ensures { OnOk result (text.new.items ≡ text.old.items ++ spaced (reply_words reply.now)) }
{
    match reply {
        Reply::Began(view) => push_numbered(text, b" begin ", *view),
        Reply::Got(value) => push_found(text, value),
        Reply::Scanned(rows) => push_rows(text, rows),
        Reply::Wrote(verb) => push_verb(text, *verb, b" ok"),
        Reply::Committed(cts) => push_numbered(text, b" commit ", *cts),
        Reply::CommittedNone => text.extend(b" commit none"),
        Reply::Unknown(cts) => push_numbered(text, b" commit unknown ", *cts),
        Reply::RolledBack => text.extend(b" rollback ok"),
        Reply::Conflict(verb, cts) => push_conflict(text, *verb, *cts),
        Reply::Held(verb, name) => push_held(text, *verb, *name),
        Reply::Full(verb) => push_verb(text, *verb, b" full 4096"),
        Reply::Skipped => text.extend(b" skipped"),
        Reply::Stopped(by) => push_numbered(text, b" stopped ", u64::from(*by)),
    }
}

fn push_found(text: &mut Text, value: &Option<Value>) -> Result<(), Memory>
    ensures { OnOk result (text.new.items ≡ text.old.items ++ spaced (reply_words (Reply.Got value.now))) }
{
    match value {
        Some(value) => {
            text.extend(b" get ")?;
            text.extend(value.as_slice())
        }
        None => text.extend(b" get no row"),
    }
}

fn push_conflict(text: &mut Text, verb: WriteVerb, cts: u64) -> Result<(), Memory>
    ensures { OnOk result (text.new.items ≡ text.old.items ++ spaced (reply_words (Reply.Conflict verb cts))) }
{
    push_verb(text, verb, b" conflict ")?;
    push_numbered(text, b"", cts)
}

fn push_held(text: &mut Text, verb: WriteVerb, name: TrxName) -> Result<(), Memory>
    ensures { OnOk result (text.new.items ≡ text.old.items ++ spaced (reply_words (Reply.Held verb name))) }
{
    push_verb(text, verb, b" held")?;
    push_name(text, name)
}

fn push_rows(text: &mut Text, rows: &Rows) -> Result<(), Memory>
    ensures { OnOk result (text.new.items ≡ text.old.items ++ spaced (reply_words (Reply.Scanned rows.now))) }
{
    push_numbered(text, b" scan ", rows.len() as u64)?;
    push_row_words(text, rows.as_slice())
}

fn push_row_words(text: &mut Text, rows: &[KeyValue]) -> Result<(), Memory>
    ensures { OnOk result (text.new.items ≡ text.old.items ++ spaced (map row_word rows.now)) }
{
    for row in rows {
        push_row(text, row)?;
    }
    Ok(())
}

fn push_waits(text: &mut Text, waits: &[TrxName]) -> Result<(), Memory>
    ensures { OnOk result (text.new.items ≡ text.old.items ++ spaced (wait_words waits.now)) }
{
    if waits.is_empty() {
        return Ok(());
    }
    text.extend(b" after")?;
    push_name_words(text, waits)
}

fn push_name_words(text: &mut Text, names: &[TrxName]) -> Result<(), Memory>
    ensures { OnOk result (text.new.items ≡ text.old.items ++ spaced (map name_word names.now)) }
{
    for name in names {
        push_name(text, *name)?;
    }
    Ok(())
}

//! Pieces of printed lines.

ghost use Rattle.std.specs.Prelude.{◌≡◌, ◌∷◌, ◌++◌, OnOk};
ghost use Rattle.mp_report.specs.Answers.{statement_word, name_word, row_word, verb_word};

use mp_model::{KeyValue, Memory, Text, TrxName, WriteVerb};
use mp_script::push_numbered;

/// Adds a statement by its session and its number there.
pub fn push_statement(text: &mut Text, session: u8, index: u32) -> Result<(), Memory>
    ensures { OnOk result (text.new.items ≡ text.old.items ++ statement_word session index) }
{
    push_numbered(text, b"s", u64::from(session))?;
    push_numbered(text, b".", u64::from(index))
}

/// Adds a transaction after a space.
pub fn push_name(text: &mut Text, name: TrxName) -> Result<(), Memory>
    ensures { OnOk result (text.new.items ≡ text.old.items ++ 32 ∷ name_word name) }
{
    text.push(b' ')?;
    push_statement(text, name.session, name.first)
}

/// Adds a row after a space.
pub fn push_row(text: &mut Text, row: &KeyValue) -> Result<(), Memory>
    ensures { OnOk result (text.new.items ≡ text.old.items ++ 32 ∷ row_word row.now) }
{
    push_numbered(text, b" ", u64::from(row.key))?;
    text.push(b'=')?;
    text.extend(row.value.as_slice())
}

/// Adds a verb after a space, and then these bytes.
pub fn push_verb(text: &mut Text, verb: WriteVerb, bytes: &[u8]) -> Result<(), Memory>
    ensures { OnOk result (text.new.items ≡ text.old.items ++ 32 ∷ verb_word verb ++ bytes.now) }
{
    let word = match verb {
        WriteVerb::Put => b" put".as_slice(),
        WriteVerb::Del => b" del".as_slice(),
        WriteVerb::Copy => b" copy".as_slice(),
    };
    text.extend(word)?;
    text.extend(bytes)
}

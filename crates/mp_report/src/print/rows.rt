//! Printing rows: a line for each, and how many they are.

ghost use Rattle.std.specs.Prelude.{◌≡◌, ◌++◌, IfOk, OnOk, map};
ghost use Rattle.mp_report.specs.Lines.{line, text_of_lines};
ghost use Rattle.mp_report.specs.Rows.{present_words, rows_end_words, rows_text};

use mp_model::{KeyValue, Memory, Rows, Text};
use mp_script::push_numbered;
use std::alloc::Global;

/// The text of rows, in their order: a line for each, and one that has their count.
pub fn print_rows(alloc: Global, rows: &Rows) -> Result<Text, Memory>
    ensures { IfOk result (λ text. text.items ≡ rows_text rows.now.items) }
{
    let mut text = Text::new(alloc);
    push_rows(&mut text, rows.as_slice())?;
    push_end(&mut text, rows.len())?;
    Ok(text)
}

fn push_rows(text: &mut Text, rows: &[KeyValue]) -> Result<(), Memory>
    ensures { OnOk result (text.new.items ≡ text.old.items ++ text_of_lines (map present_words rows.now)) }
{
    for row in rows {
        push_row(text, row)?;
    }
    Ok(())
}

fn push_row(text: &mut Text, row: &KeyValue) -> Result<(), Memory>
    ensures { OnOk result (text.new.items ≡ text.old.items ++ line (present_words row.now)) }
{
    push_numbered(text, b"row ", u64::from(row.key))?;
    text.push(b' ')?;
    text.extend(row.value.as_slice())?;
    text.push(b'\n')
}

fn push_end(text: &mut Text, count: usize) -> Result<(), Memory>
    ensures { OnOk result (text.new.items ≡ text.old.items ++ line (rows_end_words count)) }
{
    push_numbered(text, b"end rows ", count as u64)?;
    text.push(b'\n')
}

//! What a recovery made, as text.

ghost use Rattle.std.specs.Prelude.{◌≡◌, ◌++◌, IfOk, OnOk};
ghost use Rattle.mp_report.specs.Lines.{line};
ghost use Rattle.mp_app.specs.Recoveries.{recovered_words, recovered_text};

use mp_model::{Memory, Text};
use mp_recover::Recovered;
use mp_report::print_rows;
use mp_script::push_numbered;
use std::alloc::Global;

/// The text of what a recovery made: the new base, how many commits it kept and how many rows it rolled back, and then
/// the rows. `docs/recovery.md` has the text.
pub fn print_recovered(alloc: Global, made: &Recovered) -> Result<Text, Memory>
    ensures { IfOk result (λ text. text.items ≡ recovered_text made.now) }
{
    let mut text = Text::new(alloc);
    push_counts(&mut text, made.base, made.kept, made.undone)?;
    let rows = print_rows(alloc, &made.rows)?;
    text.extend(rows.as_slice())?;
    Ok(text)
}

// Adds the first line.
fn push_counts(text: &mut Text, base: u64, kept: u64, undone: u64) -> Result<(), Memory>
    ensures { OnOk result (text.new.items ≡ text.old.items ++ line (recovered_words base kept undone)) }
{
    push_numbered(text, b"recovered base ", base)?;
    push_numbered(text, b" kept ", kept)?;
    push_numbered(text, b" undone ", undone)?;
    text.push(b'\n')
}

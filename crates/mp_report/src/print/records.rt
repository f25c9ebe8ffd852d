//! Records of a log.

ghost use Rattle.std.specs.Prelude.{◌≡◌, [], ◌∷◌, ◌++◌, IfOk, OnOk, map, length, codes};
ghost use Rattle.mp_cells.specs.declared.records.Record.TheVariants.{Page, Commit};
ghost use Rattle.mp_report.specs.Lines.{spaced, line, text_of_lines};
ghost use Rattle.mp_report.specs.Pages.{id_word, row_words, child_words, front};
ghost use Rattle.mp_report.specs.Records.{change_word, make_words, field_words, change_line, record_text};

use crate::print::pages::{push_child_line, push_held, push_row_line, push_writer};
use mp_cells::{Change, Child, ChildCells, Record, Row, RowCells};
use mp_model::{Memory, Text, TrxId};
use mp_script::push_numbered;
use std::alloc::Global;

/// The text of a record: a line, and a line for each row or child of a new page.
pub fn print_record(alloc: Global, item: &Record) -> Result<Text, Memory>
    ensures { IfOk result (λ text. text.items ≡ record_text item.now) }
{
    let mut text = Text::new(alloc);
    match item {
        Record::Page { page, prev, change } => push_change(&mut text, *page, *prev, change)?,
        Record::Commit { id, cts } => push_commit(&mut text, id, *cts)?,
    }
    Ok(text)
}

fn push_commit(text: &mut Text, id: &TrxId, cts: u64) -> Result<(), Memory>
    ensures { OnOk result (text.new.items ≡ text.old.items ++ record_text (Commit id.now cts)) }
{
    push_id(text, id)?;
    push_numbered(text, b" at ", cts)?;
    text.push(b'\n')
}

fn push_id(text: &mut Text, id: &TrxId) -> Result<(), Memory>
    ensures { OnOk result (text.new.items ≡ text.old.items ++ front (codes "commit" ∷ id_word id.now ∷ [])) }
{
    push_numbered(text, b"commit ", u64::from(id.node))?;
    push_numbered(text, b".", u64::from(id.slot))?;
    push_numbered(text, b".", u64::from(id.version))
}

fn push_change(text: &mut Text, page: u16, prev: u64, change: &Change) -> Result<(), Memory>
    ensures { OnOk result (text.new.items ≡ text.old.items ++ record_text (Page page prev change.now)) }
{
    push_change_line(text, page, prev, change)?;
    match change {
        Change::MakeLeaf { rows, .. } => push_row_lines(text, rows.as_slice()),
        Change::MakeInner { children, .. } => push_child_lines(text, children.as_slice()),
        _ => Ok(()),
    }
}

fn push_row_lines(text: &mut Text, rows: &[Row]) -> Result<(), Memory>
    ensures { OnOk result (text.new.items ≡ text.old.items ++ text_of_lines (map row_words rows.now)) }
{
    for row in rows {
        push_row_line(text, row)?;
    }
    Ok(())
}

fn push_child_lines(text: &mut Text, children: &[Child]) -> Result<(), Memory>
    ensures { OnOk result (text.new.items ≡ text.old.items ++ text_of_lines (map child_words children.now)) }
{
    for child in children {
        push_child_line(text, child)?;
    }
    Ok(())
}

fn push_change_line(text: &mut Text, page: u16, prev: u64, change: &Change) -> Result<(), Memory>
    ensures { OnOk result (text.new.items ≡ text.old.items ++ line (change_line page prev change.now)) }
{
    text.extend(change_word(change))?;
    push_numbered(text, b" page ", u64::from(page))?;
    push_numbered(text, b" prev ", prev)?;
    push_fields(text, change)?;
    text.push(b'\n')
}

fn change_word(change: &Change) -> &'static [u8]
    ensures { result.now ≡ change_word change.now }
{
    match change {
        Change::MakeLeaf { .. } => b"makeleaf",
        Change::MakeInner { .. } => b"makeinner",
        Change::MakeUndo => b"makeundo",
        Change::PutRow { .. } => b"putrow",
        Change::RestoreRow { .. } => b"restore",
        Change::Cut { .. } => b"cut",
        Change::PutChild { .. } => b"putchild",
        Change::PutUndo { .. } => b"putundo",
        Change::TakePage { .. } => b"take",
    }
}

fn push_fields(text: &mut Text, change: &Change) -> Result<(), Memory>
    ensures { OnOk result (text.new.items ≡ text.old.items ++ spaced (field_words change.now)) }
{
    match change {
        Change::MakeLeaf { low, high, rows } => push_leaf_words(text, *low, *high, rows),
        Change::MakeInner {
            low,
            high,
            children,
        } => push_inner_words(text, *low, *high, children),
        Change::MakeUndo => Ok(()),
        Change::PutRow { row } => push_row_words(text, row),
        Change::RestoreRow { row } => push_row_words(text, row),
        Change::Cut { from } => push_numbered(text, b" from ", u64::from(*from)),
        Change::PutChild { child } => push_child_words(text, child),
        Change::PutUndo { row } => push_row_words(text, row),
        Change::TakePage { page } => push_numbered(text, b" bit ", u64::from(*page)),
    }
}

fn push_leaf_words(text: &mut Text, low: u64, high: u64, rows: &RowCells) -> Result<(), Memory>
    ensures { OnOk result (text.new.items ≡ text.old.items ++ spaced (make_words low high (codes "rows") (length rows.now))) }
{
    push_numbered(text, b" low ", low)?;
    push_numbered(text, b" high ", high)?;
    push_numbered(text, b" rows ", rows.len() as u64)
}

fn push_inner_words(
    text: &mut Text,
    low: u64,
    high: u64,
    children: &ChildCells,
) -> Result<(), Memory>
    ensures { OnOk result (text.new.items ≡ text.old.items ++ spaced (make_words low high (codes "children") (length children.now))) }
{
    push_numbered(text, b" low ", low)?;
    push_numbered(text, b" high ", high)?;
    push_numbered(text, b" children ", children.len() as u64)
}

fn push_row_words(text: &mut Text, row: &Row) -> Result<(), Memory>
    ensures { OnOk result (text.new.items ≡ text.old.items ++ spaced (row_words row.now)) }
{
    text.push(b' ')?;
    push_held(text, row.key, &row.value)?;
    push_writer(text, &row.writer, &row.link)
}

fn push_child_words(text: &mut Text, child: &Child) -> Result<(), Memory>
    ensures { OnOk result (text.new.items ≡ text.old.items ++ spaced (child_words child.now)) }
{
    push_numbered(text, b" child ", u64::from(child.low))?;
    push_numbered(text, b" ", u64::from(child.page))
}

//! Printing a page: its line, and a line for each row, record or child.

ghost use Rattle.std.specs.Prelude.{◌≡◌, [], ◌∷◌, ◌++◌, IfOk, OnOk, map, length, codes};
ghost use Rattle.mp_report.specs.Lines.{spaced, line, text_of_lines};
ghost use Rattle.mp_report.specs.Pages.{id_word, link_word, held_words, writer_words, row_words, child_words, kind_word, fence_words, size_words, cell_lines, page_words, page_text, front};
ghost use Rattle.mp_cells.specs.PageView.{count_of};

use mp_cells::{Child, Kind, Link, Row};
use mp_model::{Memory, Text, TrxId, Value};
use mp_page::Page;
use mp_script::push_numbered;
use std::alloc::Global;

/// The text of a page (its number below 4,096): a line, and a line for each row, record or child.
pub fn print_page(alloc: Global, number: u16, page: &Page) -> Result<Text, Memory>
    ensures { IfOk result (λ text. text.items ≡ page_text number page.now) }
{
    let mut text = Text::new(alloc);
    push_page_line(&mut text, number, page)?;
    push_cells(&mut text, page)?;
    Ok(text)
}

fn push_cells(text: &mut Text, page: &Page) -> Result<(), Memory>
    ensures { OnOk result (text.new.items ≡ text.old.items ++ text_of_lines (cell_lines page.now.kind page.now)) }
{
    match page.kind() {
        Kind::Leaf | Kind::Undo => push_rows(text, page),
        Kind::Inner => push_children(text, page),
        Kind::Blank | Kind::Meta => Ok(()),
    }
}

fn push_page_line(text: &mut Text, number: u16, page: &Page) -> Result<(), Memory>
    ensures { OnOk result (text.new.items ≡ text.old.items ++ line (page_words number page.now)) }
{
    push_numbered(text, b"page ", u64::from(number))?;
    push_kind(text, page.kind())?;
    push_numbered(text, b" llsn ", page.llsn())?;
    push_fences(text, page)?;
    push_size(text, page)?;
    text.push(b'\n')
}

fn push_kind(text: &mut Text, kind: Kind) -> Result<(), Memory>
    ensures { OnOk result (text.new.items ≡ text.old.items ++ spaced (kind_word kind ∷ [])) }
{
    let word = match kind {
        Kind::Blank => b" blank".as_slice(),
        Kind::Meta => b" meta".as_slice(),
        Kind::Leaf => b" leaf".as_slice(),
        Kind::Inner => b" inner".as_slice(),
        Kind::Undo => b" undo".as_slice(),
    };
    text.extend(word)
}

fn push_fences(text: &mut Text, page: &Page) -> Result<(), Memory>
    ensures { OnOk result (text.new.items ≡ text.old.items ++ spaced (fence_words page.now.kind page.now)) }
{
    match page.kind() {
        Kind::Leaf | Kind::Inner => {
            push_numbered(text, b" low ", page.low())?;
            push_numbered(text, b" high ", page.high())
        }
        Kind::Blank | Kind::Meta | Kind::Undo => Ok(()),
    }
}

fn push_size(text: &mut Text, page: &Page) -> Result<(), Memory>
    ensures { OnOk result (text.new.items ≡ text.old.items ++ spaced (size_words page.now.kind page.now)) }
{
    let count = u64::from(page.count());
    match page.kind() {
        Kind::Blank => Ok(()),
        Kind::Meta => push_numbered(text, b" taken ", count),
        Kind::Leaf => push_numbered(text, b" rows ", count),
        Kind::Inner => push_numbered(text, b" children ", count),
        Kind::Undo => push_numbered(text, b" records ", count),
    }
}

fn push_rows(text: &mut Text, page: &Page) -> Result<(), Memory>
    requires { count_of page.now ≡ length page.now.rows }
    ensures { OnOk result (text.new.items ≡ text.old.items ++ text_of_lines (map row_words page.now.rows)) }
{
    for i in 0..page.count() {
        push_row_line(text, &page.row(i))?;
    }
    Ok(())
}

fn push_children(text: &mut Text, page: &Page) -> Result<(), Memory>
    requires { count_of page.now ≡ length page.now.children }
    ensures { OnOk result (text.new.items ≡ text.old.items ++ text_of_lines (map child_words page.now.children)) }
{
    for i in 0..page.count() {
        push_child_line(text, &page.child(i))?;
    }
    Ok(())
}

/// Adds the line of a row or an undo record.
pub fn push_row_line(text: &mut Text, row: &Row) -> Result<(), Memory>
    ensures { OnOk result (text.new.items ≡ text.old.items ++ line (row_words row.now)) }
{
    push_held(text, row.key, &row.value)?;
    push_writer(text, &row.writer, &row.link)?;
    text.push(b'\n')
}

/// Adds a row's key with its value, or as gone.
pub fn push_held(text: &mut Text, key: u32, value: &Option<Value>) -> Result<(), Memory>
    ensures { OnOk result (text.new.items ≡ text.old.items ++ front (held_words key value.now)) }
{
    match value {
        Some(value) => {
            push_numbered(text, b"row ", u64::from(key))?;
            text.push(b' ')?;
            text.extend(value.as_slice())
        }
        None => push_numbered(text, b"gone ", u64::from(key)),
    }
}

/// Adds a row's writer and where the version before is, after a space.
pub fn push_writer(
    text: &mut Text,
    writer: &Option<TrxId>,
    link: &Option<Link>,
) -> Result<(), Memory>
    ensures { OnOk result (text.new.items ≡ text.old.items ++ spaced (writer_words writer.now link.now)) }
{
    let Some(id) = writer else {
        return Ok(());
    };
    push_id(text, id)?;
    match link {
        Some(link) => push_link(text, link),
        None => Ok(()),
    }
}

fn push_id(text: &mut Text, id: &TrxId) -> Result<(), Memory>
    ensures { OnOk result (text.new.items ≡ text.old.items ++ spaced (codes "by" ∷ id_word id.now ∷ [])) }
{
    push_numbered(text, b" by ", u64::from(id.node))?;
    push_numbered(text, b".", u64::from(id.slot))?;
    push_numbered(text, b".", u64::from(id.version))
}

fn push_link(text: &mut Text, link: &Link) -> Result<(), Memory>
    ensures { OnOk result (text.new.items ≡ text.old.items ++ spaced (codes "undo" ∷ link_word link.now ∷ [])) }
{
    push_numbered(text, b" undo ", u64::from(link.page))?;
    push_numbered(text, b".", u64::from(link.index))
}

/// Adds the line of a child.
pub fn push_child_line(text: &mut Text, child: &Child) -> Result<(), Memory>
    ensures { OnOk result (text.new.items ≡ text.old.items ++ line (child_words child.now)) }
{
    push_numbered(text, b"child ", u64::from(child.low))?;
    push_numbered(text, b" ", u64::from(child.page))?;
    text.push(b'\n')
}

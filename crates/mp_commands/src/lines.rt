//! Lines of the commands' texts.

ghost use Rattle.std.specs.Prelude.{◌≡◌, [], ◌∷◌, ◌++◌, OnOk, codes, decimal};
ghost use Rattle.mp_report.specs.Lines.{spaced, line};
ghost use Rattle.mp_report.specs.Pages.{front};
ghost use Rattle.mp_commands.specs.Dumps.{generation_words, header_words, end_words};

use itoa::Buffer;
use mp_model::{Memory, Text};
use mp_store::Header;

/// Adds these bytes and then a number.
pub(crate) fn push_numbered(text: &mut Text, bytes: &[u8], number: u64) -> Result<(), Memory>
    ensures { OnOk result (text.new.items ≡ text.old.items ++ (bytes.now ++ decimal number)) }
{
    text.extend(bytes)?;
    text.extend(Buffer::new().format(number).as_bytes())
}

/// Adds a word and a number, each after a space.
pub(crate) fn push_named(text: &mut Text, word: &[u8], number: u64) -> Result<(), Memory>
    ensures { OnOk result (text.new.items ≡ text.old.items ++ spaced (word.now ∷ decimal number ∷ [])) }
{
    text.push(b' ')?;
    text.extend(word)?;
    push_numbered(text, b" ", number)
}

/// Adds the line of a store's header.
pub(crate) fn push_header(text: &mut Text, header: &Header) -> Result<(), Memory>
    ensures { OnOk result (text.new.items ≡ text.old.items ++ line (header_words header.now)) }
{
    push_generation(text, header)?;
    push_named(text, b"llsn", header.llsn)?;
    push_named(text, b"version", u64::from(header.version))?;
    text.push(b'\n')
}

fn push_generation(text: &mut Text, header: &Header) -> Result<(), Memory>
    ensures { OnOk result (text.new.items ≡ text.old.items ++ front (generation_words header.now)) }
{
    push_numbered(text, b"store format 1 generation ", header.generation)?;
    push_numbered(text, b" base ", header.base)
}

/// Adds the last line of a dump.
pub(crate) fn push_end(text: &mut Text, pages: u16) -> Result<(), Memory>
    ensures { OnOk result (text.new.items ≡ text.old.items ++ line (end_words pages)) }
{
    push_numbered(text, b"end pages ", u64::from(pages))?;
    text.push(b'\n')
}

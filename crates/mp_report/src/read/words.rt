//! Reading printed words.

ghost use Rattle.std.specs.Prelude.{◌≡◌, ◌==◌, ◌≤◌, ◌<◌, ◌^◌, ℕ, IfSome, decimal, length, position};
ghost use Rattle.std.specs.Option.{option_map};
ghost use Rattle.mp_report.specs.Reading.{read_number, cut_at, read_statement, read_row, read_stamp, read_primary};

use itoa::Buffer;
use mp_model::{KeyValue, TrxName, Value};
use std::str;

/// What stands before and after the first such byte. None where there is none.
pub fn cut_at(byte: u8, word: &[u8]) -> Option<(&[u8], &[u8])>
    ensures { option_map (λ parts. (parts.0.now, parts.1.now)) result ≡ cut_at byte word.now }
{
    let place = place_of(byte, word)?;
    Some((word.split_at(place).0, word.split_at(place + 1).1))
}

fn place_of(byte: u8, word: &[u8]) -> Option<usize>
    ensures value { result ≡ position (λ b. b == byte) word.now }
    ensures within { IfSome result (λ place. place < length word.now) }
{
    word.iter().position(|b| *b == byte)
}

/// The number from `low` to `high` whose decimal text the word is. None where it isn't one.
pub fn read_number(word: &[u8], low: u64, high: u64) -> Option<u64>
    ensures value { result ≡ read_number low high word.now }
    ensures within { IfSome result (λ number. (low ≤ number) × (number ≤ high)) }
{
    let number = parse_number(word)?;
    if number < low || high < number || Buffer::new().format(number).as_bytes() != word {
        return None;
    }
    Some(number)
}

// The number that the word spells, where it is a decimal text.
fn parse_number(word: &[u8]) -> Option<u64>
    ensures { (n : ℕ) → n < 2 ^ 64 → word.now ≡ decimal n → result ≡ Some n }
{
    match str::from_utf8(word) {
        Ok(text) => text.parse::<u64>().ok(),
        Err(_) => None,
    }
}

/// A timestamp. None where the word isn't one.
pub fn read_stamp(word: &[u8]) -> Option<u64>
    ensures { result ≡ read_stamp word.now }
{
    read_number(word, 0, 274_877_906_943)
}

/// A primary, 1 to 8. None where the word isn't one.
pub fn read_primary(word: &[u8]) -> Option<u8>
    ensures { result ≡ read_primary word.now }
{
    let primary = read_number(word, 1, 8)?;
    Some(primary as u8)
}

/// A statement or a transaction, as `s2.3`. None where the word isn't one.
pub fn read_statement(word: &[u8]) -> Option<TrxName>
    ensures { result ≡ read_statement word.now }
{
    let (first, rest) = word.split_first()?;
    if *first != b's' {
        return None;
    }
    let (session, index) = cut_at(b'.', rest)?;
    let session = read_number(session, 1, 64)?;
    let index = read_number(index, 1, 10_000)?;
    Some(TrxName {
        session: session as u8,
        first: index as u32,
    })
}

/// A row, as `7=a`. None where the word isn't one.
pub fn read_row(word: &[u8]) -> Option<KeyValue>
    ensures { result ≡ read_row word.now }
{
    let (key, value) = cut_at(b'=', word)?;
    let key = read_number(key, 0, 4_294_967_295)?;
    let value = Value::read(value)?;
    Some(KeyValue {
        key: key as u32,
        value,
    })
}

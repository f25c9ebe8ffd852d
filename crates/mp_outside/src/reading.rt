//! Reading a source to its end.

ghost use Rattle.std.specs.Prelude.{ℕ, ◌≤◌, length, IfOk, IfErr};
ghost use Rattle.mp_outside.specs.Sources.{ReadsUpTo, TakesUpTo, ReadCause};

use crate::errors::ReadRefusal;
use crate::sources::Source;
use mp_model::Text;
use std::alloc::Global;

const PIECE: usize = 4096;

/// ReadsUpTo a source to its end, or its first `most` bytes where it has more, in pieces of 4,096 bytes. A refusal says
/// that a read failed or that there was no memory; at most `most` bytes were taken then, and they are lost.
pub fn read_all<S: Source>(alloc: Global, source: &mut S, most: usize) -> Result<Text, ReadRefusal>
    ensures bytes { IfOk result
        (λ text. ReadsUpTo most (S.left source.old) (S.left source.new) text.items) }
    ensures bound { IfOk result (λ text. length text.items ≤ most) }
    ensures takes { TakesUpTo most (S.left source.old) (S.left source.new) }
    ensures count { S.faults source.old ≤ S.faults source.new }
    ensures cause { IfErr result (ReadCause (S.faults source.old) (S.faults source.new)) }
{
    let mut text = Text::new(alloc);
    let mut piece = [0; PIECE];
    'pieces: while text.len() < most {
        let size = PIECE.min(most - text.len());
        let count = source.read(&mut piece[..size])?;
        if count == 0 {
            break;
        }
        text.extend(&piece[..count])?;
    }
    Ok(text)
}

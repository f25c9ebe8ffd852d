//! Writing all of a text.

ghost use Rattle.std.specs.Prelude.{ℕ, ◌≤◌, OnOk, OnErr};
ghost use Rattle.std.specs.Io.KnownBytes.{Appends};
ghost use Rattle.mp_outside.specs.Faults.{Rose};
ghost use Rattle.mp_outside.specs.Sinks.{AppendsFront};

use crate::errors::Failed;
use crate::sinks::Sink;

/// Writes all these bytes. Where a write fails or takes nothing, it stops: a front of the bytes is written then.
pub fn write_all<K: Sink>(sink: &mut K, bytes: &[u8]) -> Result<(), Failed>
    ensures ok { OnOk result (Appends (K.written sink.old) (K.written sink.new) bytes.now) }
    ensures err { OnErr result (AppendsFront (K.written sink.old) (K.written sink.new) bytes.now) }
    ensures count { K.faults sink.old ≤ K.faults sink.new }
    ensures cause { OnErr result (Rose (K.faults sink.old) (K.faults sink.new)) }
{
    let mut written = 0;
    'pieces: while written < bytes.len() {
        let count = sink.write(&bytes[written..])?;
        if count == 0 {
            return Err(Failed);
        }
        written += count;
    }
    Ok(())
}

//! Checks of bytes.

ghost use Rattle.std.specs.Prelude.{◌≡◌, ◌+◌, ◌≤◌, ◌<◌, ◌^◌, length};
ghost use Rattle.mp_store.specs.Checks.{unless, fixed_fault};

/// A fault at a place, unless a test holds.
pub(crate) fn unless(test: bool, place: u64) -> Option<u64>
    ensures { result ≡ unless test place }
{
    if test { None } else { Some(place) }
}

/// The place of the first byte, of bytes that lie from a place on, that isn't the wanted one.
pub(crate) fn fixed_fault(place: u64, wanted: &[u8], bytes: &[u8]) -> Option<u64>
    requires long { length wanted.now ≤ length bytes.now }
    requires fits { place + length wanted.now < 2 ^ 64 }
    ensures { result ≡ fixed_fault place wanted.now bytes.now }
{
    let mut at = place;
    for (i, byte) in wanted.iter().enumerate() {
        if bytes[i] != *byte {
            return Some(at);
        }
        at += 1;
    }
    None
}

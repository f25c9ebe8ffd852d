//! The two sides of a home.

ghost use Rattle.std.specs.Prelude.{◌≡◌, ◌<◌, length};
ghost use Rattle.mp_store.specs.Layout.{is_open, other};

/// Which side of a home.
#[derive(Clone, Copy, Debug, PartialEq, Eq)]
pub(crate) enum Side {
    First,
    Second,
}

impl Side {
    /// The other side of the home.
    pub(crate) fn other(self) -> Side
        ensures { result ≡ other self }
    {
        match self {
            Side::First => Side::Second,
            Side::Second => Side::First,
        }
    }
}

/// The byte of an open gate. Any other byte is a closed one.
pub(crate) const OPEN: u8 = 165;

/// Whether a side's gate is open.
pub(crate) fn is_open(side: &[u8]) -> bool
    requires { 0 < length side.now }
    ensures { result ≡ is_open side.now }
{
    side[0] == OPEN
}

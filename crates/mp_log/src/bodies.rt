//! The bytes of a batch behind its gate, as they are written.

ghost use Rattle.std.specs.Prelude.{◌≡◌, ◌≤◌, [], ◌∷◌, ◌++◌, length, IfOk};
ghost use Rattle.byteorder.specs.Endian.{little_bytes};

use mp_cells::u32_bytes;
use mp_model::{Memory, Text};
use std::alloc::Global;
use std::marker::Model;

/// The bytes from a batch's count to the closed gate behind it, seen as their list. It takes all its memory when it is
/// made.
#[derive(Debug, Drop)]
pub struct Body {
    text: Text,
}

impl Model for Body {
    ghost use Rattle.std.specs.Prelude.{ℕ, List, ◌+◌, ◌≤◌, length};

    ghost Value = { List ℕ };

    ghost view = { λ body. body.text.items };

    ghost invariant = { λ body. 65541 ≤ length body.text.items + body.text.spare };
}

impl Body {
    /// With room for the longest batch.
    pub fn new(alloc: Global) -> Result<Body, Memory> {
        let mut text = Text::new(alloc);
        text.reserve(65541)?;
        Ok(Body { text })
    }

    /// Makes it the count of some bytes, they, and a closed gate. It takes no memory.
    pub fn fill(&mut self, bytes: &[u8])
        requires { length bytes.now ≤ 65536 }
        ensures { self.new ≡ little_bytes 4 (length bytes.now) ++ (bytes.now ++ 0 ∷ []) }
    {
        self.text.clear();
        self.text.put_all(&u32_bytes(bytes.len() as u32));
        self.text.put_all(bytes);
        self.text.put(0);
    }

    /// The bytes as a slice.
    pub fn as_slice(&self) -> &[u8]
        ensures { result.now ≡ self.now }
    {
        self.text.as_slice()
    }
}

//! What a transaction slot shows in its word.
ghost use Rattle.std.specs.Prelude.{◌≡◌, ◌^◌, ◌<◌};
ghost use Rattle.mp_core_trx.specs.Words.{tag_number, tag_of, word_showing, shown_of};

/// Where the slot's transaction stands. `Prep` says that its commit has begun.
#[derive(Clone, Copy, Debug, PartialEq, Eq)]
pub enum SlotTag {
    Free,
    Active,
    Prep,
    Committed,
}

/// The fields of a slot's word.
#[derive(Clone, Copy, Debug, PartialEq, Eq)]
pub struct Shown {
    pub tag: SlotTag,
    /// The version of the id of the slot's last transaction (below 2^24). It is 0 where the slot had none.
    pub version: u32,
    /// The timestamp where the tag is `Committed`, else 0 (below 2^38).
    pub cts: u64,
}

impl SlotTag {
    fn number(self) -> u64
        ensures { result ≡ tag_number self }
    {
        match self {
            SlotTag::Free => 0,
            SlotTag::Active => 1,
            SlotTag::Prep => 2,
            SlotTag::Committed => 3,
        }
    }

    fn of(number: u64) -> SlotTag
        ensures { result ≡ tag_of number }
    {
        match number {
            0 => SlotTag::Free,
            1 => SlotTag::Active,
            2 => SlotTag::Prep,
            _ => SlotTag::Committed,
        }
    }
}

impl Shown {
    /// Reads a slot's word: the tag in its bits 0 and 1, the version in bits 2 to 25, the timestamp in bits 26 to 63.
    pub fn read(word: u64) -> Shown
        ensures fields { result ≡ shown_of word }
        ensures again { word_showing result ≡ word }
    {
        Shown {
            tag: SlotTag::of(word & 3),
            version: (word >> 2 & 0xff_ffff) as u32,
            cts: word >> 26,
        }
    }

    /// The slot's word.
    pub fn word(self) -> u64
        requires { (self.version < 2 ^ 24) × (self.cts < 2 ^ 38) }
        ensures word { result ≡ word_showing self }
        ensures again { shown_of result ≡ self }
    {
        self.tag.number() + (u64::from(self.version) << 2) + (self.cts << 26)
    }
}

//! The word of a page's lock: bit p - 1 for each node p that reads, or 256 times the node that writes. Nodes are
//! numbered from 1 to 8.
ghost use Rattle.std.specs.Prelude.{ℕ, ◌≡◌, ◌<◌, ◌≤◌, ◌*◌, ◌==◌, if◌then◌else◌, IsTrue, IsFalse, bit_and};
ghost use Rattle.mp_core_pages.specs.declared.page_lock.Held.TheVariants.{No, Read, Write};
ghost use Rattle.mp_core_pages.specs.LockWords.{holder, mask_of, IsLockWord, LacksReader, TakesShared};

use crate::page_lock::Held;

/// How node `p` holds the lock.
pub fn held_by(word: u64, p: u8) -> Held
    requires node { (1 ≤ p) × (p ≤ 8) }
    ensures { result ≡ holder word p }
{
    if word >> 8 == u64::from(p) {
        Held::Write
    } else if word >> (p - 1) & 1 == 1 {
        Held::Read
    } else {
        Held::No
    }
}

/// The word with node `p` as one more reader.
pub fn shared_with(word: u64, p: u8) -> u64
    requires node { (1 ≤ p) × (p ≤ 8) }
    requires lacks { LacksReader word p }
    ensures takes { TakesShared p word result }
    ensures word { IsLockWord result }
    ensures reads { (m : ℕ) → 1 ≤ m → m ≤ 8 → holder result m ≡ (if m == p then Read else holder word m) }
{
    word + (1 << (p - 1))
}

/// The word with node `p` as the writer, and nobody else.
pub fn exclusive(p: u8) -> u64
    requires node { (1 ≤ p) × (p ≤ 8) }
    ensures takes { result ≡ 256 * p }
    ensures word { IsLockWord result }
    ensures writes { (m : ℕ) → 1 ≤ m → m ≤ 8 → holder result m ≡ (if m == p then Write else No) }
{
    u64::from(p) << 8
}

/// The bits that a word keeps as node `p` lets the lock go: all but its own bit and the writer's number.
pub fn release_mask(p: u8) -> u64
    requires node { (1 ≤ p) × (p ≤ 8) }
    ensures mask { result ≡ mask_of p }
    ensures frees { (word : ℕ) (m : ℕ) → IsLockWord word → ¬ (holder word p ≡ No) → 1 ≤ m → m ≤ 8
        → holder (bit_and word result) m ≡ (if m == p then No else holder word m) }
{
    !(1 << (p - 1) | 0xf00)
}

/// Whether another node than `p` writes. If not, and `p` does not hold the lock, it may come to read.
pub fn has_other_writer(word: u64, p: u8) -> bool
    requires node { (1 ≤ p) × (p ≤ 8) }
    requires lock { IsLockWord word }
    ensures found { IsTrue result → (m : ℕ) × (1 ≤ m) × (m ≤ 8) × (¬ (m ≡ p)) × (holder word m ≡ Write) }
    ensures none { IsFalse result → (m : ℕ) → 1 ≤ m → ¬ (m ≡ p) → ¬ (holder word m ≡ Write) }
    ensures may_read { IsFalse result → holder word p ≡ No → LacksReader word p }
{
    word > 255 && word >> 8 != u64::from(p)
}

/// Whether another node than `p` reads or writes.
pub fn has_other(word: u64, p: u8) -> bool
    requires node { (1 ≤ p) × (p ≤ 8) }
    requires lock { IsLockWord word }
    ensures found { IsTrue result → ¬ ((m : ℕ) → 1 ≤ m → m ≤ 8 → ¬ (m ≡ p) → holder word m ≡ No) }
    ensures none { IsFalse result → (m : ℕ) → 1 ≤ m → m ≤ 8 → ¬ (m ≡ p) → holder word m ≡ No }
{
    if word == 0 {
        return false;
    }
    if word == 1 << (p - 1) {
        return false;
    }
    word >> 8 != u64::from(p)
}

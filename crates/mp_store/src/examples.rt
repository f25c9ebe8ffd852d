//! Worked examples of the definitions, good ones and bad ones.

ghost use Rattle.std.specs.Prelude.{◌≡◌, ◌≤◌, ◌<◌, ℕ, List, [], ◌∷◌, None, Some, length, drop, true, false};
ghost use Rattle.mp_store.specs.HeaderSides.{header_in, header_fault};
ghost use Rattle.mp_store.specs.PageSides.{side_in_force};
ghost use Rattle.mp_store.specs.StoreFiles.{header_in_force, page_in_force, homes_fault, store_fault};
ghost use Rattle.mp_store.specs.SideWrites.{SideLeft};
ghost use Rattle.mp_store.specs.SmallSides.{small_side, small_header};
ghost use Rattle.mp_store.specs.declared.sides.Side.TheVariants.{First, Second};
ghost use Rattle.mp_store.specs.OpenStores.{is_later, NoLater};
ghost use Rattle.mp_store.specs.LaterSides.{SideShut};
ghost use Rattle.mp_store.specs.FreshStores.{NoHeader, IsFresh};
ghost use Rattle.mp_store.specs.CleanStores.{IsCleanStore};

/// Which side is in force, which file is no store, and which side a stopped write can't leave, on small examples.
pub fn law_store_examples()
    // The greater generation, then the greater LLSN, and the first of two equal ones.
    ensures greater { side_in_force 2 (small_side 1 9) (small_side 2 5) ≡ Some Second }
    ensures llsn { side_in_force 2 (small_side 1 5) (small_side 1 6) ≡ Some Second }
    ensures equal { side_in_force 2 (small_side 1 5) (small_side 1 5) ≡ Some First }
    // A side of a later generation doesn't count, nor does a closed one.
    ensures later { side_in_force 1 (small_side 1 5) (small_side 2 6) ≡ Some First }
    ensures none { side_in_force 1 (small_side 2 5) (0 ∷ []) ≡ None }
    // The header of the greater generation.
    ensures header { header_in (small_header 1) (small_header 2) ≡ Second }
    ensures first { header_in (small_header 2) (small_header 1) ≡ First }
    // Files that are no stores, and a header with a wrong first letter.
    ensures empty { store_fault [] ≡ Some 0 }
    ensures short { (file : List ℕ) → length file ≡ 128 → store_fault file ≡ Some 128 }
    ensures mark { (rest : List ℕ) → header_fault 0 (165 ∷ 0 ∷ rest) ≡ Some 1 }
    // A stopped write leaves a closed gate before any body, but no open gate before another one.
    ensures closed { SideLeft 0 (165 ∷ 2 ∷ []) (165 ∷ 1 ∷ []) (0 ∷ 3 ∷ []) }
    ensures torn { SideLeft 0 (165 ∷ 2 ∷ []) (165 ∷ 1 ∷ []) (165 ∷ 3 ∷ []) → ⊥ }
    // A later side is an open one of a later generation.
    ensures is_later { is_later 1 (small_side 2 5) ≡ true }
    ensures in_time { is_later 2 (small_side 2 5) ≡ false }
    ensures shut_later { is_later 1 (0 ∷ []) ≡ false }
    // A gate that closes a later side changes no more than the gate, and no side that counts.
    ensures gate { SideShut 1 (small_side 2 5) (0 ∷ drop 1 (small_side 2 5)) }
    ensures counting { SideShut 2 (small_side 2 5) (0 ∷ drop 1 (small_side 2 5)) → ⊥ }
    // A file without an open header isn't a store.
    ensures no_header { (file : List ℕ) → NoHeader file → store_fault file ≡ None → ⊥ }
{}

/// Where no page has an open side of a later generation than this one, each later generation shows the same pages, and
/// finds no fault where this one finds none. So a header of a later generation can be flipped to.
pub fn law_no_later()
    ensures pages { (generation : ℕ) (later : ℕ) (number : ℕ) (file : List ℕ) → NoLater generation file
        → generation ≤ later → number < 4096
        → page_in_force later number file ≡ page_in_force generation number file }
    ensures homes { (generation : ℕ) (later : ℕ) (file : List ℕ) → NoLater generation file → generation ≤ later
        → homes_fault generation 4096 file ≡ None → homes_fault later 4096 file ≡ None }
{}

/// A fresh store is clean. A file without an open header isn't, nor one whose header's LLSN is below that of a page.
pub fn law_clean_stores()
    ensures fresh { (file : List ℕ) → IsFresh file → IsCleanStore file }
    ensures no_header { (file : List ℕ) → NoHeader file → IsCleanStore file → ⊥ }
    ensures llsn { (file : List ℕ)
        → (header_in_force file).llsn < (page_in_force (header_in_force file).generation 1 file).llsn
        → IsCleanStore file → ⊥ }
{}

//! Small cases of the definitions of a checkpoint, good ones and bad ones.

ghost use Rattle.std.specs.Prelude.{◌≡◌, ℕ, List, [], ◌∷◌, true, false, None};
ghost use Rattle.mp_cells.specs.PageView.{blank_page, undo_page};
ghost use Rattle.mp_store.specs.StoreFiles.{store_fault};
ghost use Rattle.mp_store.specs.FreshStores.{NoHeader};
ghost use Rattle.mp_checkpoint.specs.Saving.{IsSaved, MarksChange, ShowsSame};

/// A page whose content is the stored one's stays as it is stored, whatever its LLSN; a new one gets the header's. A file
/// that has no fault shows what it shows; one without an open header shows nothing.
pub fn law_saved_examples()
    ensures stays { IsSaved 9 (blank_page 5) (blank_page 7) (blank_page 5) }
    ensures changes { IsSaved 9 (blank_page 5) (undo_page 7 []) (undo_page 9 []) }
    ensures rewritten { IsSaved 9 (blank_page 5) (blank_page 7) (blank_page 9) → ⊥ }
    ensures unmarked { MarksChange false (blank_page 5) (blank_page 7) }
    ensures marked { MarksChange true (blank_page 5) (blank_page 7) → ⊥ }
    ensures same { (file : List ℕ) → store_fault file ≡ None → ShowsSame file file }
    ensures no_header { (file new : List ℕ) → NoHeader new → ShowsSame file new → ⊥ }
{}

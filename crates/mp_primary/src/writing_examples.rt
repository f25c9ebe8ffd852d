//! What the words of a write's turn say, tried on one session, as the contract of a function that does nothing.
ghost use Rattle.std.specs.Prelude.{◌≡◌, ℕ, true, false, [], ◌∷◌, slice_get, None, Some};
ghost use Rattle.mp_cells.specs.declared.records.Mtr.{Mtr};
ghost use Rattle.mp_core_pages.specs.declared.part.Placed.{Placed};
ghost use Rattle.mp_book.specs.declared.stage.Stage.{Stage};
ghost use Rattle.mp_book.specs.SmallBooks.{its_begun, its_name, row_seven, session_with};
ghost use Rattle.mp_primary.specs.Primaries.{PrimaryView};
ghost use Rattle.mp_primary.specs.Holders.{id_in_turns, may_hold, may_hold_in, fits_book, stranger_wait};
ghost use Rattle.mp_primary.specs.WriteTurns.{mtr_of_put, former_to_keep};

/// A session may hold the key that its open transaction wrote, and no other. A holder fits the book where its name is of
/// another session than the statement's. Of a key the first version is kept that the transaction replaced.
pub fn law_holder_examples()
    ensures goes_on { id_in_turns (Stage.Open its_begun) ≡ Some its_begun.id }
    ensures ended { id_in_turns Stage.Closed ≡ None }
    ensures holds { may_hold (session_with 2 (Stage.Open its_begun) (row_seven ∷ [])) its_begun.id 7 ≡ true }
    ensures wrote_nothing { may_hold (session_with 1 (Stage.Open its_begun) []) its_begun.id 7 ≡ false }
    ensures no_session { may_hold_in None its_begun.id 7 ≡ false }
    ensures own_session { (pr : PrimaryView ℕ) → fits_book pr 1 its_begun.id 7 its_name ≡ false }
    ensures other_session { (pr : PrimaryView ℕ)
        → slice_get pr.book.sessions.items 1 ≡ Some (session_with 2 (Stage.Open its_begun) (row_seven ∷ []))
        → fits_book pr 2 its_begun.id 7 its_name ≡ true }
    ensures waits_for { (stranger_wait its_begun.id).at ≡ 1 }
    ensures first { former_to_keep [] 7 row_seven ≡ Some row_seven }
    ensures no_second { former_to_keep (row_seven ∷ []) 7 row_seven ≡ None }
    ensures its_put { (x : Placed Mtr) → (mtr_of_put its_begun x).of ≡ Some its_begun.id }
{}

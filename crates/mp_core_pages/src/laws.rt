//! The laws, as the contracts of functions that do nothing.
ghost use Rattle.std.specs.Prelude.{◌≡◌, ℕ, ◌+◌, ◌*◌, ◌≤◌, [], ◌∷◌, ◌++◌, length, Some};
ghost use Rattle.mp_machine.specs.Machine.{AllowedFrom};
ghost use Rattle.mp_core_pages.specs.declared.opening.TheConstants.{MOST_MTRS};
ghost use Rattle.mp_core_pages.specs.declared.opening.Brief.{Brief};
ghost use Rattle.mp_core_pages.specs.declared.event.PagesEvent.{PagesEvent};
ghost use Rattle.mp_core_pages.specs.PageWorld.{PagesWorld, pages_part, pages_start, pages_after, paging};
ghost use Rattle.mp_core_pages.specs.Histories.{placed, HistoryInOrder, PageRises, TellsItsList};
ghost use Rattle.mp_core_pages.specs.PageInvariant.{PageLocks, IsPrefix, IsGiven, PagesInv};
ghost use Rattle.mp_core_pages.specs.Briefs.{llsn_ops, AtAllTimes};
ghost use Rattle.mp_core_pages.specs.declared.event.PagesEvent.TheVariants.{LockWord, UnlockWord, TakeFrame, GiveFrame, StoreLlsn, StoreDurable};
ghost use Rattle.mp_core_pages.specs.PageParts.{given_page, content_at, last_llsn, PagesExtends};
ghost use Rattle.mp_core_pages.specs.PageExamples.{two_pages, brief, led_to, MayFollow, TwoPrevs, writes_page, read_page, makes_mtr, forces_mtr, hands_over, goes_on};

/// From every opening whose pages are there and whose LLSNs fit, after any steps each of which was allowed when it
/// came: the invariant holds, the mtrs on a page were made in the order of their LLSNs, a page's LLSN tells which mtrs
/// made it, and no node's LLSN is above the base by more than the mtrs that 8 nodes may make.
pub fn law_pages_inv()
    ensures kept { AtAllTimes (λ opening w. PagesInv llsn_ops opening w) }
    ensures ordered { AtAllTimes (λ _ w. (k : ℕ) → PageRises llsn_ops k w.history) }
    ensures listed { AtAllTimes (λ opening w. (h k : ℕ) → h ≤ length w.history
        → TellsItsList llsn_ops opening w.history h k) }
    ensures bounded { AtAllTimes
        (λ opening w. (n : ℕ) → last_llsn llsn_ops opening.base (w.made n) ≤ opening.base + 8 * MOST_MTRS) }
{}

/// Whatever a node's part has noted, it has after any step of any node.
pub fn law_pages_grow()
    ensures { (known : ℕ) (w : PagesWorld ℕ Brief) (e : PagesEvent ℕ Brief) (n : ℕ) → PagesExtends (pages_part w n)
        (pages_part (pages_after llsn_ops known w e) n) }
{}

/// The conditions of the steps, tried on small lists of steps. Allowed: a node writes a page, makes an mtr, forces it,
/// puts its content into the frame and lets the page go, and another node is given the new content, comes to write it and
/// makes the next mtr; two nodes read a page; a second record of a page in one mtr tells the mtr's own LLSN. Not allowed,
/// each alone: what the other clauses name.
pub fn law_pages_examples()
    ensures goes_on { AllowedFrom (paging llsn_ops two_pages) (pages_start two_pages) goes_on }
    ensures given_the_new { (led_to hands_over).given 2 ≡ given_page 0 1 0 1 ∷ [] }
    ensures made_second { (led_to goes_on).made 2 ≡ placed 1 (brief 2 2 1) ∷ [] }
    ensures its_content { content_at llsn_ops ((led_to goes_on).contents 2) 0 ≡ Some 2 }
    ensures read_page { AllowedFrom (paging llsn_ops two_pages) (pages_start two_pages) read_page }
    ensures second_record { TwoPrevs 3 5 }
    ensures second_writer { ¬ MayFollow writes_page (LockWord 2 0 256 512) }
    ensures writer_beside_reader { ¬ MayFollow read_page (LockWord 2 0 3 512) }
    ensures reader_beside_writer { ¬ MayFollow writes_page (LockWord 2 0 256 258) }
    ensures unlock_before_force { ¬ MayFollow makes_mtr (UnlockWord 1 0) }
    ensures unlock_before_push { ¬ MayFollow forces_mtr (UnlockWord 1 0) }
    ensures unlock_with_frame { ¬ MayFollow read_page (UnlockWord 1 0) }
    ensures take_without_lock { ¬ MayFollow [] (TakeFrame 1 0) }
    ensures give_before_force { ¬ MayFollow (makes_mtr ++ TakeFrame 1 0 ∷ []) (GiveFrame 1 0 1) }
    ensures give_not_taken { ¬ MayFollow writes_page (GiveFrame 1 0 0) }
    ensures another_page_by_reader { ¬ MayFollow read_page (GiveFrame 1 0 1) }
    ensures make_as_reader { ¬ MayFollow read_page (StoreLlsn 1 (brief 1 1 0)) }
    ensures make_without_content { ¬ MayFollow (LockWord 1 0 0 256 ∷ []) (StoreLlsn 1 (brief 1 1 0)) }
    ensures make_for_another { ¬ MayFollow writes_page (StoreLlsn 1 (brief 2 1 0)) }
    ensures wrong_prev { ¬ MayFollow writes_page (StoreLlsn 1 (brief 1 1 1)) }
    ensures second_record_as_the_first { ¬ TwoPrevs 3 3 }
    ensures llsn_too_high { ¬ MayFollow writes_page (StoreLlsn 1 (brief 1 2 0)) }
    ensures llsn_again { ¬ MayFollow makes_mtr (StoreLlsn 1 (brief 1 1 1)) }
    ensures durable_too_high { ¬ MayFollow makes_mtr (StoreDurable 1 2) }
    ensures durable_falls { ¬ MayFollow forces_mtr (StoreDurable 1 0) }
{}

/// Parts of the invariant, each on a small state where it holds and on one where it does not: page 0 with one or two mtrs
/// on it, by nodes that have said that all or nothing of it is durable.
pub fn law_pages_worked()
    ensures in_order { HistoryInOrder llsn_ops two_pages (brief 2 2 1 ∷ brief 1 1 0 ∷ []) }
    ensures out_of_order { ¬ HistoryInOrder llsn_ops two_pages (brief 2 1 1 ∷ brief 1 1 0 ∷ []) }
    ensures durable_frame { IsPrefix llsn_ops two_pages (brief 1 1 0 ∷ []) (λ _. 1 ∷ []) 0 (Some 1) }
    ensures undurable_frame { ¬ IsPrefix llsn_ops two_pages (brief 1 1 0 ∷ []) (λ _. []) 0 (Some 1) }
    ensures given_own { IsGiven llsn_ops two_pages (brief 1 1 0 ∷ []) (λ _. []) 1 (given_page 0 1 0 1) }
    ensures given_undurable { ¬ IsGiven llsn_ops two_pages (brief 1 1 0 ∷ []) (λ _. []) 2 (given_page 0 1 0 1) }
    ensures nobody_holds { PageLocks 2 (λ _. 0) (λ _. []) }
    ensures held_by_nobody { ¬ PageLocks 2 (λ _. 256) (λ _. []) }
{}

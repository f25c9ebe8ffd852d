//! The laws, as the contracts of functions that do nothing.
ghost use Rattle.std.specs.Prelude.{◌≡◌, ℕ, true, false, List, [], ◌∷◌, Some};
ghost use Rattle.mp_cells.specs.declared.records.Mtr.{Mtr};
ghost use Rattle.mp_cells.specs.PageView.{PageView};
ghost use Rattle.mp_cells.specs.PageMaps.{after_mtr};
ghost use Rattle.mp_core_pages.specs.declared.part.PagesPart.{PagesPart};
ghost use Rattle.mp_core_pages.specs.Histories.{Touches};
ghost use Rattle.mp_core_pages.specs.PageEvents.{with_mtr};
ghost use Rattle.mp_core.specs.Contents.{page_ops};
ghost use Rattle.mp_buffer_fusion.specs.declared.buffer.Buffer.{Buffer};
ghost use Rattle.mp_buffer_fusion.specs.Buffers.{buffer_of, IsBuffered, pool_recorded};
ghost use Rattle.mp_buffer_fusion.specs.Agreement.{AgreesWith};
ghost use Rattle.mp_buffer_fusion.specs.PoolExamples.{blank_buffer, given_part, owing_part};

/// After the changes of an mtr's records in their order, each buffer has what the mtr makes of its page. So a pool that
/// agreed with its part before the mtr, with a buffer for each page that the mtr touches, agrees with it again.
pub fn law_recorded()
    ensures pages { (pool : List Buffer) (m : Mtr) (k : ℕ) (b : Buffer) → buffer_of pool k ≡ Some b → (later : Buffer) × (buffer_of (pool_recorded m.llsn m.records pool) k ≡ Some later) × (later.page ≡ after_mtr m (λ _. b.page) k) }
    ensures agrees { (pool : List Buffer) (part : PagesPart PageView Mtr) (at : ℕ) (m : Mtr) → AgreesWith pool part → ((k : ℕ) → Touches page_ops m k → IsBuffered pool k) → AgreesWith (pool_recorded m.llsn m.records pool) (with_mtr at m part) }
{}

/// The agreement, on small pools and parts. A pool agrees with the part whose content it has, and with one whose record is
/// missing in the frame where its buffer is not clean. It does not with another page's content, nor where that buffer is
/// clean, or dropped.
pub fn law_pool_examples()
    ensures content { AgreesWith (blank_buffer 5 true ∷ []) given_part }
    ensures owing { AgreesWith (blank_buffer 5 false ∷ []) owing_part }
    ensures other_content { ¬ AgreesWith (blank_buffer 4 true ∷ []) given_part }
    ensures clean_owing { ¬ AgreesWith (blank_buffer 5 true ∷ []) owing_part }
    ensures dropped_owing { ¬ AgreesWith [] owing_part }
{}

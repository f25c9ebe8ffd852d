//! What holds of every merge and of every redo.

ghost use Rattle.std.specs.Prelude.{◌≡◌, ℕ, ◌<◌, ◌≤◌, List, map, Some, None, slice_index};
ghost use Rattle.mp_model.specs.declared.ids.TrxId.{TrxId};
ghost use Rattle.std.specs.List.{AllByRecursion};
ghost use Rattle.mp_cells.specs.declared.records.Mtr.{Mtr};
ghost use Rattle.mp_cells.specs.Mtrs.{IsMtr};
ghost use Rattle.mp_cells.specs.Trees.{PageMap, IsTree, height_of, rows_in, tree_rows};
ghost use Rattle.mp_files.specs.declared.disks.Disks.{Disks};
ghost use Rattle.mp_files.specs.Nine.{Image, as_read, log_of, seen_at};
ghost use Rattle.mp_recover.specs.declared.lanes.Lane.{Lane};
ghost use Rattle.mp_histories.specs.Chains.{row_of_key};
ghost use Rattle.mp_recover.specs.Images.{all_logged, SoundImage};
ghost use Rattle.mp_recover.specs.KeptCommits.{CommitsOnce, kept_commits, present, folded_in};
ghost use Rattle.mp_recover.specs.Merging.{AreFresh, Merges};
ghost use Rattle.mp_recover.specs.PageRecords.{InOrder, pages_redone};
ghost use Rattle.mp_recover.specs.Recovering.{HasNoFault, redone_by};
ghost use Rattle.mp_recover.specs.Redoing.{mtrs_redone};
ghost use Rattle.mp_recover.specs.Settling.{pages_settled};
ghost use Rattle.mp_recover.specs.Standing.{ChainsStand};

use mp_outside::Disk;

/// A merge that read nothing yet has all mtrs of the logs left, in the order of recovery: whatever the files hold,
/// those before each log's first fault.
pub fn law_merge<D: Disk>()
    ensures { (lanes : List Lane) (disks : Disks D) → AreFresh lanes
        → Merges lanes (seen_at D.Disk disks.logs.items) (all_logged (as_read D.Disk disks)) }
{}

/// Mtrs above a base that are in order over pages at or below it are all redone, one after another, and no record is
/// refused. What they leave is each page with all records of its own.
pub fn law_redo()
    ensures { (base : ℕ) (stored : PageMap) (mtrs : List Mtr) → ((n : ℕ) → (stored n).llsn ≤ base)
        → AllByRecursion (λ mtr. base < mtr.llsn) mtrs → AllByRecursion IsMtr mtrs → InOrder base stored mtrs
        → mtrs_redone mtrs stored ≡ (pages_redone stored mtrs, None) }
{}

/// A sound image isn't refused for what it holds: neither the store nor a log has a fault, and where the logs are bytes,
/// each mtr above the base is redone: no page lacks an mtr, and each change fits.
pub fn law_sound_redone()
    ensures no_fault { (image : Image) → SoundImage image → HasNoFault image }
    ensures redone { (image : Image) → ((n place : ℕ) → slice_index (log_of n image) place < 256) → SoundImage image
        → (redone_by image).1 ≡ None }
{}

/// A tree that is rolled back is a tree of the same height. Where the chains of a tree stand for the commits that some mtrs
/// keep, over the rows of stored pages, the rows that the rolled back tree shows are the stored ones with these commits
/// folded in.
pub fn law_rolled_back()
    ensures tree { (ids : List TrxId) (pages : PageMap) (height : ℕ) → IsTree pages height → IsTree (pages_settled ids pages) height }
    ensures rows { (stored pages : PageMap) (mtrs : List Mtr) → IsTree stored (height_of stored) → IsTree pages (height_of pages)
        → AllByRecursion IsMtr mtrs → CommitsOnce (kept_commits mtrs)
        → ChainsStand (kept_commits mtrs) pages (row_of_key stored)
        → present (tree_rows (pages_settled (map (λ k. k.id) (kept_commits mtrs)) pages) (height_of pages))
        ≡ folded_in (present (rows_in stored)) (kept_commits mtrs) }
{}

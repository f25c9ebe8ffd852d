//! Cuts of a history, the order of logs, and what a cut leaves of pages and chains.

ghost use Rattle.std.specs.Prelude.{◌≡◌, ℕ, ◌<◌, ◌≤◌, IsTrue, Bool, List, [], ◌∷◌, ◌++◌, filter, Option, Some, None};
ghost use Rattle.std.specs.List.{AllByRecursion};
ghost use Rattle.mp_model.specs.declared.ids.TrxId.{TrxId};
ghost use Rattle.mp_cells.specs.declared.records.Mtr.{Mtr};
ghost use Rattle.mp_cells.specs.Plans.{plan_of, touches};
ghost use Rattle.mp_cells.specs.Orders.{sorted_by};
ghost use Rattle.mp_cells.specs.Trees.{PageMap, IsClean};
ghost use Rattle.mp_histories.specs.KeyOps.{kept_version, put_last, NeverBack};
ghost use Rattle.mp_histories.specs.Commits.{Stamp};
ghost use Rattle.mp_histories.specs.Histories.{History, pages_after, touching, mtrs_by_node, by_version, ops_on, live_on, commits_in};
ghost use Rattle.mp_histories.specs.Stamped.{OpsFit, AreDrawn, AreAmong, OpsStandFor};
ghost use Rattle.mp_histories.specs.Chains.{row_of_key, RunsFrom, HasChains};
ghost use Rattle.mp_histories.specs.Cuts.{IsCut, Rise, PrevsHold, IsClosed, log_place, in_log_order};

/// A page after a history is what the mtrs that change it leave, in their order. Where an mtr's LLSN is above those of
/// the earlier ones on its pages, the order by LLSN and node is, page by page, the order of making, and leaves the same
/// pages. That goes on with an mtr whose LLSN is above that of each page that it changes. Lists with the same mtrs of
/// each node, in their order, are one list in the order of logs.
pub fn law_order()
    ensures page { (opening : PageMap) (one other : History) (n : ℕ) → touching n one ≡ touching n other → pages_after opening one n ≡ pages_after opening other n }
    ensures order { (made : History) (n : ℕ) → AllByRecursion (λ mtr. mtr.node ≤ 8) made → Rise made → touching n (in_log_order made) ≡ touching n made }
    ensures pages { (opening : PageMap) (made : History) (n : ℕ) → AllByRecursion (λ mtr. mtr.node ≤ 8) made → Rise made → pages_after opening (in_log_order made) n ≡ pages_after opening made n }
    ensures rises { (opening : PageMap) (made : History) (mtr : Mtr) → Rise made → ((n : ℕ) → IsTrue (touches n (plan_of mtr.records)) → (pages_after opening made n).llsn < mtr.llsn) → Rise (mtr ∷ made) }
    ensures nodes { (one other : List Mtr) → AllByRecursion (λ mtr. mtr.node ≤ 8) one → AllByRecursion (λ mtr. mtr.node ≤ 8) other → ((node : ℕ) → mtrs_by_node node one ≡ mtrs_by_node node other) → sorted_by log_place one ≡ sorted_by log_place other }
{}

/// Mtrs that are kept with all earlier ones on their pages are a cut, in the order of making and in that of logs; so
/// are the first mtrs of a history.
pub fn law_closed()
    ensures made { (keep : Mtr → Bool) (made : History) → Rise made → IsClosed keep made → IsCut made (filter keep made) }
    ensures logged { (keep : Mtr → Bool) (made : History) → AllByRecursion (λ mtr. mtr.node ≤ 8) made → Rise made → IsClosed keep made → IsCut made (in_log_order (filter keep made)) }
    ensures first { (later made : History) → IsCut (later ++ made) made }
{}

/// Over clean pages the mtrs of a cut of well-made mtrs are well made over those of the cut before them, and each put
/// comes over what it may cover, where it did in the history. Where each record's `prev` was right, it is right in the
/// cut.
pub fn law_cuts()
    ensures runs { (base : ℕ) (opening : PageMap) (made cut : History) → IsClean base opening → RunsFrom opening made → IsCut made cut → RunsFrom opening cut }
    ensures fits { (base : ℕ) (opening : PageMap) (made cut : History) (committed drew : List Stamp) (key : ℕ) → IsClean base opening → RunsFrom opening made → IsCut made cut → OpsFit committed drew (ops_on key made) → OpsFit committed drew (ops_on key cut) }
    ensures prevs { (opening : PageMap) (made cut : History) → IsCut made cut → PrevsHold opening made → PrevsHold opening cut }
{}

/// A cut leaves a tree whose chains stand for the commits with a record in it, where it has the record of each commit
/// that a put came over, and only timestamps that were drawn. What a writer wrote there, where nothing of it was put
/// back in the history, is what it put last in the cut.
pub fn law_cut_state()
    ensures chains { (base : ℕ) (opening : PageMap) (made cut : History) → IsClean base opening → RunsFrom opening made → IsCut made cut → HasChains opening cut }
    ensures stands { (base : ℕ) (opening : PageMap) (made cut : History) (committed drew : List Stamp) (key : ℕ) → IsClean base opening → RunsFrom opening made → IsCut made cut → AreDrawn committed drew → AreAmong committed (commits_in cut) → AreAmong (commits_in cut) drew → OpsFit committed drew (ops_on key made) → OpsStandFor (commits_in cut) (row_of_key opening key) (ops_on key cut) }
    ensures wrote { (base : ℕ) (opening : PageMap) (made cut : History) (writer : Option TrxId) (key : ℕ) → IsClean base opening → RunsFrom opening made → IsCut made cut → NeverBack by_version writer (ops_on key made) → kept_version by_version writer (ops_on key cut) ≡ put_last by_version writer (ops_on key cut) }
{}

//! The laws, as the contracts of functions that do nothing.

ghost use Rattle.std.specs.Prelude.{◌≡◌, ℕ, ◌<◌, true, List, [], None, Some};
ghost use Rattle.std.specs.List.{AllByRecursion};
ghost use Rattle.mp_machine.specs.Machine.{AllowedFrom, run_from};
ghost use Rattle.mp_model.specs.declared.ids.TrxId.{TrxId};
ghost use Rattle.mp_files.specs.Nine.{Image};
ghost use Rattle.mp_histories.specs.Commits.{HasStamp};
ghost use Rattle.mp_histories.specs.Chains.{row_of_key};
ghost use Rattle.mp_core.specs.declared.opening.CoreOpening.{CoreOpening};
ghost use Rattle.mp_core.specs.declared.event.CoreEvent.{CoreEvent};
ghost use Rattle.mp_core.specs.World.{CoreWorld, core_start, core_part, core};
ghost use Rattle.mp_core.specs.Invariant.{NumbersFit};
ghost use Rattle.mp_facts.specs.Facts.{opening_pages, IsRecorded, IsForced, Facts};
ghost use Rattle.mp_recover.specs.KeptCommits.{KeptCommit, kept_commits, stamps_of};
ghost use Rattle.mp_recover.specs.Closed.{is_kept, WasCommitted, KeptAreClosed};
ghost use Rattle.mp_script.specs.Execution.{Execution};
ghost use Rattle.mp_script.specs.Transactions.{acknowledged_cts};
ghost use Rattle.mp_recover.specs.Standing.{IsRecoverable};
ghost use Rattle.mp_recover.specs.Images.{logged_above, SoundImage, IsOpenedStore};
ghost use Rattle.mp_cuts.specs.ValidCuts.{IsValidCut, mtrs_of_cut};
ghost use Rattle.mp_log.specs.Readers.{log_mtrs};
ghost use Rattle.mp_recover.specs.Redoing.{mtrs_above};
ghost use Rattle.mp_supports.specs.Work.{Work};
ghost use Rattle.mp_supports.specs.Media.{IsOnImage};
ghost use Rattle.mp_supports.specs.Supports.{Trace, Supports};
ghost use Rattle.mp_model.specs.declared.replies.Answer.{Answer};
ghost use Rattle.mp_cuts.specs.LeftBehind.{LeavesFirst, IsOpenedOver, IsLeftBehind};

/// After any steps from any opening whose numbers fit, each of which was allowed when it came, the mtrs of every valid cut
/// can be redone over the opening's pages, and leave a tree whose chains stand for the commits with a record in the cut. The
/// facts of the world alone say so.
pub fn law_cuts()
    ensures reached { (opening : CoreOpening) (events : List CoreEvent) (count : ℕ → ℕ) → NumbersFit opening → AllowedFrom (core opening) (core_start opening) events
        → IsValidCut opening (run_from (core opening) (core_start opening) events) count
        → IsRecoverable opening.trx.base.llsn (row_of_key (opening_pages opening)) (opening_pages opening) (mtrs_of_cut (run_from (core opening) (core_start opening) events) count) }
    ensures facts { (o : CoreOpening) (w : CoreWorld) (count : ℕ → ℕ) → NumbersFit o → Facts o w → IsValidCut o w count
        → IsRecoverable o.trx.base.llsn (row_of_key (opening_pages o)) (opening_pages o) (mtrs_of_cut w count) }
{}

/// Every valid cut keeps each commit whose record is durable, and none that its transaction's node didn't record.
pub fn law_cut_commits()
    ensures forced { (o : CoreOpening) (w : CoreWorld) (count : ℕ → ℕ) (id : TrxId) (cts : ℕ) → NumbersFit o → Facts o w → IsValidCut o w count
        → IsForced o w id cts → HasStamp (stamps_of (kept_commits (mtrs_of_cut w count))) (Some id) cts }
    ensures recorded { (o : CoreOpening) (w : CoreWorld) (count : ℕ → ℕ) (id : TrxId) (cts : ℕ) → NumbersFit o → Facts o w → IsValidCut o w count
        → HasStamp (stamps_of (kept_commits (mtrs_of_cut w count))) (Some id) cts → IsRecorded w id cts }
{}

/// What a crash leaves of a run, whatever is left of each log behind its durable mtrs, is sound: its mtrs are those of a valid
/// cut. The store is the one that was opened.
pub fn law_left_behind()
    ensures cut { (o : CoreOpening) (w : CoreWorld) (opened : List ℕ) (image : Image) → NumbersFit o → Facts o w → IsOpenedOver opened o → IsLeftBehind o w opened image
        → (count : ℕ → ℕ) × IsValidCut o w count × (logged_above image ≡ mtrs_of_cut w count) }
    ensures sound { (o : CoreOpening) (w : CoreWorld) (opened : List ℕ) (image : Image) → NumbersFit o → Facts o w → IsOpenedOver opened o → IsLeftBehind o w opened image
        → SoundImage image }
    ensures store { (o : CoreOpening) (w : CoreWorld) (opened : List ℕ) (image : Image) → IsLeftBehind o w opened image → IsOpenedStore opened image }
{}

/// Commits of a run are closed where each acknowledged one is kept and each kept one was committed: what a commit rests on
/// was acknowledged.
pub fn law_kept_closed()
    ensures { (run : Execution) (commits : List KeptCommit)
        → AllByRecursion (λ answer. (number : ℕ) → acknowledged_cts answer.reply ≡ Some number → is_kept commits number ≡ true) run.answers
        → AllByRecursion (WasCommitted run) commits → KeptAreClosed run commits }
{}

/// What a primary keeps of its log's images is what a crash may leave of it. So is a log that no primary runs on, where it has
/// nothing above the base.
pub fn law_kept_image()
    ensures own { (o : CoreOpening) (w : CoreWorld) (work : Work) (n : ℕ) (file : List ℕ) → Facts o w → work.base ≡ o.trx.base
        → IsOnImage work n (core_part w n) file → LeavesFirst o w n file }
    ensures idle { (o : CoreOpening) (w : CoreWorld) (n : ℕ) (file : List ℕ) → Facts o w → o.trx.primaries < n
        → (log_mtrs n file).1 ≡ None → mtrs_above o.trx.base.llsn (log_mtrs n file).0 ≡ [] → LeavesFirst o w n file }
{}

/// Every valid cut keeps the commits that were acknowledged.
pub fn law_acknowledged_kept()
    ensures { (o : CoreOpening) (w : CoreWorld) (count : ℕ → ℕ) (work : Work) (n down : ℕ) (answer : Answer) (trace : Trace) (number : ℕ) → NumbersFit o → Facts o w → IsValidCut o w count
        → Supports work (core_part w n) down answer trace → acknowledged_cts answer.reply ≡ Some number
        → is_kept (kept_commits (mtrs_of_cut w count)) number ≡ true }
{}

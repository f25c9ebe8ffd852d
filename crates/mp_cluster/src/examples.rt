//! What the words of a run mean in small cases, as the contracts of functions that do nothing.
ghost use Rattle.std.specs.Prelude.{◌≡◌, ◌≢◌, ◌+◌, false, List, [], ◌∷◌, length, slice_get, None, Some, Ok, Err};
ghost use Rattle.mp_model.specs.declared.histories.Opening.{Opening};
ghost use Rattle.mp_model.specs.declared.transcripts.Mode.TheVariants.{Run};
ghost use Rattle.mp_model.specs.declared.transcripts.Transcript.{Transcript};
ghost use Rattle.mp_script.specs.declared.statements.Line.{Line};
ghost use Rattle.mp_script.specs.declared.statements.Script.{Script};
ghost use Rattle.mp_script.specs.declared.statements.Stmt.TheVariants.{Begin, Commit};
ghost use Rattle.mp_script.specs.Legal.{Legal};
ghost use Rattle.mp_files.specs.declared.disks.Disks.{Disks};
ghost use Rattle.mp_files.specs.Nine.{Image, AllTell, DiskRose, as_read};
ghost use Rattle.mp_store.specs.StoreFiles.{header_in_force, store_fault};
ghost use Rattle.mp_core.specs.declared.opening.CoreOpening.{CoreOpening};
ghost use Rattle.mp_opening.specs.declared.refusals.ClusterRefusal.TheVariants as cluster;
ghost use Rattle.mp_opening.specs.Openings.{MayBegin};
ghost use Rattle.mp_core_trx.specs.declared.opening.Base.{Base};
ghost use Rattle.mp_files.specs.Nine.{AreImages, EachTells};
ghost use Rattle.mp_recover.specs.Images.{logged_above, SoundImage, IsOpenedStore};
ghost use Rattle.mp_cuts.specs.LeftBehind.{IsOpenedOver};
ghost use Rattle.mp_members.specs.declared.members.Members.{Members};
ghost use Rattle.mp_members.specs.Running.{downs_in, logs_of};
ghost use Rattle.mp_cluster.specs.Runs.{transactions_of, DownsHaveFailed, IsOpeningOf, RunFinds, IsLegalRun, IsLeftOfRun, RunLeaves};
ghost use Rattle.mp_cluster.specs.StepRuns.{AreLinedUp, AreStillThere, DownsRose, HasIdleLogs, IsClosedFor, IsRefusedOver, IsToldRun, LeavesClosed, LinesUpOver, StopsFor};
ghost use Rattle.mp_cluster.specs.RunTranscripts.{IsRunOver};
ghost use Rattle.mp_cluster.specs.StepTranscripts.{first_opening, IsStepOver};
ghost use Rattle.mp_cluster.specs.SmallRuns.{script_of, step_transcript, apart_transcript, down_transcript, acknowledging_transcript, opening_as};

use mp_outside::Disk;

/// A script's transactions are its `begin` lines. What nine files have is what a run begins from, and no other timestamp is. A run
/// that may begin is answered, and a store without a fault isn't refused for one.
pub fn law_run_examples()
    ensures one { (line : Line) → transactions_of (script_of (record line { stmt = Begin } ∷ record line { stmt = Commit } ∷ [])) ≡ 1 }
    ensures not_two { (line : Line) → transactions_of (script_of (record line { stmt = Begin } ∷ record line { stmt = Commit } ∷ [])) ≢ 2 }
    ensures opening { (image : Image) → IsOpeningOf image (opening_as image 0) }
    ensures not_later { (image : Image) → ¬ IsOpeningOf image (opening_as image 1) }
    ensures answered { (image : Image) (transcript : Transcript) → MayBegin image 3 → RunFinds image 3 (Ok transcript) }
    ensures not_refused { (image : Image) → store_fault image.store ≡ None → ¬ RunFinds image 3 (Err (cluster.Store 0)) }
{}

/// A legal transcript over what the disks hold is a legal run's, and one that begins at another timestamp isn't. A refusal for what
/// the disks hold, or for a disk, leaves them as they are; a store that tells other than before isn't as it was. Want of memory
/// asks nothing.
pub fn law_legal_run_examples<D: Disk>()
    ensures legal { (disks : Disks D) (script : Script) (opening : Opening) (transcript : Transcript)
        → (AllTell D.Disk disks → IsOpeningOf (as_read D.Disk disks) opening)
        → Legal script opening transcript → IsLegalRun D.Disk disks script transcript }
    ensures not_another { (disks : Disks D) (script : Script) (transcript : Transcript) → AllTell D.Disk disks
        → transcript.base ≢ (header_in_force (as_read D.Disk disks).store).base → ¬ IsLegalRun D.Disk disks script transcript }
    ensures left { (disks : Disks D) → RunLeaves D.Disk disks disks cluster.NotClean }
    ensures not_left { (old new : Disks D) → D.Disk.tells new.store ≢ D.Disk.tells old.store → ¬ RunLeaves D.Disk old new cluster.NotClean }
    ensures memory { (old new : Disks D) → RunLeaves D.Disk old new cluster.Memory }
    ensures log { (old new : Disks D) → D.Disk.tells new.store ≢ D.Disk.tells old.store → ¬ RunLeaves D.Disk old new (cluster.LogDisk 1) }
{}

/// A table's first opening has its timestamp. A transcript without answers has one part, of primary 0, and no commit, and tells
/// those that are down. That of two primaries on threads of their own has a part for each, the first one's first.
pub fn law_transcript_examples()
    ensures timestamp { (o : CoreOpening) → (first_opening o).base ≡ o.trx.base.ts }
    ensures no_other { (o : CoreOpening) → (first_opening o).base ≢ o.trx.base.ts + 1 }
    ensures empty { IsStepOver 7 [] [] (step_transcript 0 0) }
    ensures not_primary_1 { ¬ IsStepOver 7 [] [] (step_transcript 1 0) }
    ensures not_one_commit { ¬ IsStepOver 7 [] [] (step_transcript 0 1) }
    ensures down { IsStepOver 7 [] (record { primary = 2; by = 1 } ∷ []) (down_transcript 2 1) }
    ensures not_untold { ¬ IsStepOver 7 [] (record { primary = 2; by = 1 } ∷ []) (step_transcript 0 0) }
    ensures apart { IsRunOver 7 ([] ∷ [] ∷ []) [] (apart_transcript 1 2) }
    ensures not_descending { ¬ IsRunOver 7 ([] ∷ [] ∷ []) [] (apart_transcript 2 1) }
    ensures not_one_thread { ¬ IsRunOver 7 ([] ∷ []) [] (step_transcript 1 0) }
{}

/// No disk is still there where there was one. A run doesn't stop for a disk. Members aren't lined up where one is down, and logs
/// aren't idle where there are none; where eight primaries have the eight logs, none is. Over the same disks no primary went down
/// with another, and primary 0 has no log. Members aren't lined up over disks whose list isn't empty. Disks that are as they were may
/// belong to a refusal for want of memory, and not to one that blames the store's. No run on threads has a transcript of mode Step.
pub fn law_lined_up_examples<D: Disk>()
    ensures none_there { AreStillThere D.Disk [] [] }
    ensures not_gone { (disk : D) → ¬ AreStillThere D.Disk (disk ∷ []) [] }
    ensures memory { StopsFor cluster.Memory }
    ensures not_a_disk { ¬ StopsFor (cluster.LogDisk 1) }
    ensures not_down { (script : Script) (base : Base) (m : Members D) → downs_in m 1 ≡ 1 → ¬ AreLinedUp D.Disk script base m }
    ensures no_logs { (base : Base) (m : Members D) → logs_of m ≡ [] → ¬ HasIdleLogs D.Disk base m }
    ensures all_at_work { (base : Base) (m : Members D) → length (logs_of m) ≡ 8 → length m.primaries.items ≡ 8
        → HasIdleLogs D.Disk base m }
    ensures all_up { (old new : Disks D) → DownsHaveFailed D.Disk old new (step_transcript 0 0) }
    ensures not_without_a_fault { (disks : Disks D) (disk : D) → slice_get disks.logs.items 0 ≡ Some disk → D.faults disk ≡ 0
        → ¬ DownsHaveFailed D.Disk disks disks (down_transcript 2 1) }
    ensures not_with_nobody { (old new : List D) → ¬ DownsRose D.Disk old new (down_transcript 2 0) }
    ensures not_over { (script : Script) (base : Base) (m : Members D) (disks : Disks D) (disk : D) → disks.logs.items ≡ disk ∷ []
        → ¬ LinesUpOver D.Disk script disks disks base m }
    ensures refused { (disks : Disks D) → IsRefusedOver D.Disk 3 disks disks cluster.Memory }
    ensures not_blamed { (disks : Disks D) → ¬ DiskRose D.Disk disks.store disks.store → ¬ IsRefusedOver D.Disk 3 disks disks cluster.StoreDisk }
    ensures not_another_mode { (script : Script) (o : CoreOpening) (old new : List D) → ¬ IsToldRun D.Disk script o Run old new (step_transcript 0 0) }
{}

/// Where nothing was answered, a sound image of the opened store without an mtr above it may be left. Where a commit was
/// acknowledged it may not, and neither may another store. Of a disk that doesn't tell nothing is said.
pub fn law_left_run_examples<D: Disk>()
    ensures nothing { (opened image : Image) (script : Script) → IsOpenedStore opened.store image → SoundImage image
        → logged_above image ≡ [] → IsLeftOfRun opened script (step_transcript 0 0) image }
    ensures not_lost { (opened image : Image) (script : Script) → logged_above image ≡ []
        → ¬ IsLeftOfRun opened script (acknowledging_transcript 8) image }
    ensures not_another { (opened image : Image) (script : Script) (transcript : Transcript)
        → (header_in_force image.store).llsn ≢ (header_in_force opened.store).llsn → ¬ IsLeftOfRun opened script transcript image }
    ensures closed { (o : CoreOpening) (image : Image) (script : Script) → SoundImage image → logged_above image ≡ []
        → IsClosedFor script o (step_transcript 0 0) image }
    ensures not_closed { (o : CoreOpening) (image : Image) (script : Script) → logged_above image ≡ []
        → ¬ IsClosedFor script o (acknowledging_transcript 8) image }
    ensures untold { (o : CoreOpening) (script : Script) (transcript : Transcript) (disk : D) → D.tells disk ≡ false
        → LeavesClosed D.Disk script o (disk ∷ []) transcript }
    ensures not_left_so { (o : CoreOpening) (image : Image) (script : Script) (disks : List D) → EachTells D.Disk disks
        → IsOpenedOver image.store o → AreImages D.Disk disks image.logs → logged_above image ≡ []
        → ¬ LeavesClosed D.Disk script o disks (acknowledging_transcript 8) }
{}

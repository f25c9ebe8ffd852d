//! Small cases of the definitions of opening, good ones and bad ones, as the contracts of functions that do nothing.

ghost use Rattle.std.specs.Prelude.{◌≡◌, ◌≢◌, ℕ, ◌+◌, ◌*◌, ◌-◌, ◌^◌, ◌<◌, true, false, List, [], ◌∷◌, length, Some, None, Ok, Err, IsTrue};
ghost use Rattle.mp_core_trx.specs.declared.opening.Base.{Base};
ghost use Rattle.mp_files.specs.declared.disks.Disks.{Disks};
ghost use Rattle.mp_files.specs.Nine.{Image, KeptDisk};
ghost use Rattle.mp_log.specs.declared.refusals.LogRefusal.TheVariants as refusals;
ghost use Rattle.mp_log.specs.Logs.{IsText, HoldsOnly};
ghost use Rattle.mp_log.specs.Tails.{LogView};
ghost use Rattle.mp_store.specs.declared.refusals.StoreRefusal.TheVariants as stores;
ghost use Rattle.mp_store.specs.FreshStores.{IsFresh};
ghost use Rattle.mp_store.specs.StoreFiles.{header_in_force, store_fault};
ghost use Rattle.mp_recover.specs.Images.{logged_above};
ghost use Rattle.mp_recover.specs.Recovering.{IsRecovered};
ghost use Rattle.mp_recover.specs.SmallLogs.{small_image};
ghost use Rattle.mp_opening.specs.declared.opening.Opened.{Opened};
ghost use Rattle.mp_opening.specs.declared.contents.StoreContent.{StoreContent};
ghost use Rattle.mp_opening.specs.declared.refusals.ClusterRefusal.{ClusterRefusal};
ghost use Rattle.mp_opening.specs.declared.refusals.ClusterRefusal.TheVariants as cluster;
ghost use Rattle.mp_opening.specs.declared.refusals.SpentNumber.TheVariants as spent;
ghost use Rattle.mp_opening.specs.Openings.{base_of, first_spent, least_above, IsFirstAbove, RefusesRun, MayBegin, OpensAs, IsLogFrom, IsLogFromAt, HandsOut, RunCause};
ghost use Rattle.mp_opening.specs.ReadingContents.{run_refused_by_store, IsContent, ContentFinds, ContentCause};
ghost use Rattle.mp_opening.specs.OpeningLogs.{run_refused_by_log, LogsFind, OpensLogOn, RefusedFor, OpensFirst, RefusesAtFirst, AreOpenedOn, TakesOut, StopsAt, LogsCause};
ghost use Rattle.mp_opening.specs.BeginningChecks.{llsns_in_log, above_at, NoneAboveBelow, IsFirstToHave, LogsMayBegin, PagesMayBegin, NumbersMayBegin, AllMayBegin, IsCleanContent};
ghost use Rattle.mp_opening.specs.SmallOpenings.{reached, one_mtr_log, first_log};

use mp_outside::Disk;

/// The table of numbers, each at the last value that serves and at the first that doesn't, and in its order where several
/// are spent. A base is taken from a header, each number from its own field.
pub fn law_spent_examples()
    ensures none { first_spent (reached 1 0 0 0) 10000 ≡ None }
    ensures generations { first_spent (reached (2 ^ 64 - 1) 0 0 0) 0 ≡ Some (cluster.Spent spent.Generations (2 ^ 64 - 1) 1) }
    ensures generations_serve { first_spent (reached (2 ^ 64 - 2) 0 0 0) 0 ≡ None }
    ensures versions { first_spent (reached 1 0 0 (2 ^ 24 - 1)) 1 ≡ Some (cluster.Spent spent.Versions (2 ^ 24 - 1) 1) }
    ensures versions_serve { first_spent (reached 1 0 0 (2 ^ 24 - 1)) 0 ≡ None }
    ensures timestamps { first_spent (reached 1 (2 ^ 38 - 8) 0 0) 1 ≡ Some (cluster.Spent spent.Timestamps (2 ^ 38 - 8) 8) }
    ensures timestamps_serve { first_spent (reached 1 (2 ^ 38 - 9) 0 0) 1 ≡ None }
    ensures llsns { first_spent (reached 1 0 (2 ^ 62 - 240000) 0) 0 ≡ Some (cluster.Spent spent.Llsn (2 ^ 62 - 240000) 240000) }
    ensures llsns_serve { first_spent (reached 1 0 (2 ^ 62 - 240001) 0) 0 ≡ None }
    ensures all { first_spent (reached (2 ^ 64 - 1) (2 ^ 38 - 1) (2 ^ 62 - 1) (2 ^ 24 - 1)) 1
        ≡ Some (cluster.Spent spent.Generations (2 ^ 64 - 1) 1) }
    ensures three { first_spent (reached 1 (2 ^ 38 - 1) (2 ^ 62 - 1) (2 ^ 24 - 1)) 1
        ≡ Some (cluster.Spent spent.Versions (2 ^ 24 - 1) 1) }
    ensures two { first_spent (reached 1 (2 ^ 38 - 1) (2 ^ 62 - 1) 0) 1
        ≡ Some (cluster.Spent spent.Timestamps (2 ^ 38 - 1) 8) }
    ensures base { base_of (reached 1 2 3 4) ≡ record { ts = 2; llsn = 3; version = 4 } }
    ensures not_mixed { base_of (reached 1 2 3 4) ≢ record { ts = 3; llsn = 2; version = 4 } }
{}

/// The log of primary 1 holds one mtr, of LLSN 6: it is the first above a base of 5, and isn't above a base of 6. No other
/// primary than 1 to 8 is the first. A log without mtrs has none above any base.
pub fn law_above_examples()
    ensures least { (store : List ℕ) → (header_in_force store).llsn ≡ 5
        → least_above (small_image store one_mtr_log) 0 ≡ Some 6 }
    ensures not_least { (store : List ℕ) → (header_in_force store).llsn ≡ 6
        → least_above (small_image store one_mtr_log) 0 ≡ None }
    ensures first { (store : List ℕ) → (header_in_force store).llsn ≡ 5 → IsFirstAbove (small_image store one_mtr_log) 1 6 }
    ensures not_first { (store : List ℕ) → (header_in_force store).llsn ≡ 6
        → ¬ IsFirstAbove (small_image store one_mtr_log) 1 6 }
    ensures empty { (store : List ℕ) → least_above (small_image store (0 ∷ [])) 0 ≡ None }
    ensures not_zero { (image : Image) (llsn : ℕ) → ¬ IsFirstAbove image 0 llsn }
    ensures not_nine { (image : Image) (llsn : ℕ) → ¬ IsFirstAbove image 9 llsn }
{}

/// A fresh store with logs that hold no mtr may begin a run of 10,000 transactions, and so may what recovery left, where no
/// number is spent; it may not where one is. A store without a fault isn't refused for one, and one with a fault is refused
/// for nothing else but a disk or memory. A file that may not begin isn't opened.
pub fn law_may_begin()
    ensures fresh { (store : List ℕ) → IsFresh store → MayBegin (small_image store (0 ∷ [])) 10000 }
    ensures recovered { (before after : Image) (begins : ℕ) → IsRecovered before after
        → first_spent (header_in_force after.store) begins ≡ None → MayBegin after begins }
    ensures not_spent { (image : Image) → header_in_force image.store ≡ reached 1 0 0 (2 ^ 24 - 1) → ¬ MayBegin image 1 }
    ensures fault { (image : Image) (begins place : ℕ) → store_fault image.store ≡ Some place
        → RefusesRun image begins (cluster.Store place) }
    ensures no_fault { (image : Image) (begins place : ℕ) → store_fault image.store ≡ None
        → ¬ RefusesRun image begins (cluster.Store place) }
    ensures not_recover { (image : Image) (begins place primary llsn : ℕ) → store_fault image.store ≡ Some place
        → ¬ RefusesRun image begins (cluster.NeedsRecover primary llsn) }
    ensures not_clean_first { (image : Image) (begins : ℕ) → logged_above image ≢ [] → ¬ RefusesRun image begins cluster.NotClean }
    ensures clean { (store : List ℕ) (begins : ℕ) → IsFresh store → ¬ RefusesRun (small_image store (0 ∷ [])) begins cluster.NotClean }
    ensures serves { (image : Image) → header_in_force image.store ≡ reached 1 0 0 0
        → ¬ RefusesRun image 1 (cluster.Spent spent.Versions 0 1) }
    ensures log_nine { (image : Image) (begins place : ℕ) → ¬ RefusesRun image begins (cluster.Log 9 place) }
    ensures memory { (image : Image) (begins : ℕ) → RefusesRun image begins cluster.Memory }
    ensures not_opened { (image : Image) (opened : Opened ℕ) → header_in_force image.store ≡ reached 1 0 0 (2 ^ 24 - 1)
        → ¬ OpensAs image 1 (Ok opened) }
    ensures refused { (image : Image) (begins : ℕ) → OpensAs {D = ℕ} image begins (Err cluster.Memory) }
{}

/// A log of primary 1 without mtrs is one that a run begins with, on a disk that holds none; not where it is closed, is that
/// of another primary, or has an LLSN above the base. What is handed out leaves no disk in the list, and of the store a crash
/// leaves nothing but what was read. A disk is to blame only where its count of faults rose, and there is no ninth log.
pub fn law_handed_examples<D: Disk>()
    ensures first { (disk : D) → IsText [] (D.seen disk) → HoldsOnly [] (D.image disk) → IsLogFrom D.Disk 0 1 (first_log disk) }
    ensures not_second { (disk : D) → ¬ IsLogFrom D.Disk 0 2 (first_log disk) }
    ensures not_closed { (log : LogView D) → log.tail.live ≡ false → ¬ IsLogFrom D.Disk 0 1 log }
    ensures not_above { (log : LogView D) → log.tail.last ≡ 6 → ¬ IsLogFrom D.Disk 5 1 log }
    ensures at_its_place { (disk : D) → IsText [] (D.seen disk) → HoldsOnly [] (D.image disk)
        → IsLogFromAt D.Disk 0 (first_log disk ∷ []) 0 }
    ensures not_at_another { (disk : D) → ¬ IsLogFromAt D.Disk 0 (first_log disk ∷ first_log disk ∷ []) 1 }
    ensures none_left { (old new : Disks D) (opened : Opened D) → length new.logs.items ≡ 1 → ¬ HandsOut D.Disk old new opened }
    ensures not_unsynced { (old new : Disks D) (opened : Opened D) (file : List ℕ) → IsTrue (D.tells old.store) → D.image new.store file
        → file ≢ D.seen new.store → ¬ HandsOut D.Disk old new opened }
    ensures memory { (old new : Disks D) → RunCause D.Disk old new cluster.Memory }
    ensures not_to_blame { (old new : Disks D) → D.faults old.store ≡ 0 → D.faults new.store ≡ 0
        → ¬ RunCause D.Disk old new cluster.StoreDisk }
    ensures no_ninth { (old new : Disks D) → length old.logs.items ≡ 8 → ¬ RunCause D.Disk old new (cluster.LogDisk 9) }
{}

/// The steps on the way: whose refusal becomes which, which log is the first above a base, and what each check lets pass.
pub fn law_step_examples<D: Disk>()
    ensures store { run_refused_by_store (stores.NotStore 3) ≡ cluster.Store 3 }
    ensures not_log { run_refused_by_store stores.Disk ≢ cluster.LogDisk 1 }
    ensures log { run_refused_by_log 2 (refusals.Fault 3) ≡ cluster.Log 2 3 }
    ensures not_store { run_refused_by_log 2 refusals.Disk ≢ cluster.StoreDisk }
    ensures no_content { (content : StoreContent) → ¬ IsContent [] content }
    ensures faults { ContentFinds [] (Err (cluster.Store 0)) }
    ensures not_elsewhere { ¬ ContentFinds [] (Err (cluster.Store 1)) }
    ensures wants_memory { (disk : D) → ContentCause D.Disk disk disk cluster.Memory }
    ensures no_log_yet { (disk : D) → ¬ ContentCause D.Disk disk disk (cluster.LogDisk 1) }
    ensures finds { LogsFind {T = ℕ} (λ place. 0 ∷ []) (Ok 0) }
    ensures finds_none { ¬ LogsFind {T = ℕ} (λ place. 0 ∷ []) (Err (cluster.Log 1 0)) }
    ensures opened { (disk : D) → ¬ OpensLogOn D.Disk 2 disk (first_log disk) }
    ensures same_log { (disk : D) → IsText [] (D.seen disk) → HoldsOnly [] (D.image disk) → OpensLogOn D.Disk 1 disk (first_log disk) }
    ensures refused { (disk : D) → RefusedFor D.Disk 1 disk disk refusals.Memory }
    ensures not_refused { (disk : D) → D.faults disk ≡ 0 → ¬ RefusedFor D.Disk 1 disk disk refusals.Disk }
    ensures no_first { (log : LogView D) → ¬ OpensFirst D.Disk 1 [] [] log }
    ensures not_at_first { ¬ RefusesAtFirst D.Disk 1 [] [] refusals.Memory }
    ensures at_first { (disk : D) → RefusesAtFirst D.Disk 1 (disk ∷ []) (disk ∷ []) refusals.Memory }
    ensures none_opened { AreOpenedOn D.Disk 1 [] [] }
    ensures not_without { (log : LogView D) → ¬ AreOpenedOn D.Disk 1 [] (log ∷ []) }
    ensures takes_none { (disk : D) → TakesOut D.Disk (disk ∷ []) (disk ∷ []) [] }
    ensures not_away { (disk : D) → ¬ TakesOut D.Disk (disk ∷ []) [] [] }
    ensures stops { (disk : D) → StopsAt D.Disk cluster.Memory (disk ∷ []) (disk ∷ []) [] }
    ensures not_for_clean { (disk : D) → ¬ StopsAt D.Disk cluster.NotClean (disk ∷ []) (disk ∷ []) [] }
    ensures wants { LogsCause D.Disk [] [] cluster.Memory }
    ensures no_disk { ¬ LogsCause D.Disk [] [] (cluster.LogDisk 1) }
{}

/// The checks on the way: a number above a base is the first of eight logs', and each check's answer is its own.
pub fn law_check_examples<D: Disk>()
    ensures llsns { (disk : D) → llsns_in_log (Some (first_log disk)) ≡ [] }
    ensures no_log { llsns_in_log {D = D} None ≡ [] }
    ensures above { (disk : D) → above_at 5 (record (first_log disk) { llsns = 4 ∷ 6 ∷ [] } ∷ []) 0 ≡ Some 6 }
    ensures none_above { (disk : D) → above_at 6 (record (first_log disk) { llsns = 4 ∷ 6 ∷ [] } ∷ []) 0 ≡ None }
    ensures none { NoneAboveBelow (λ place. None) 8 }
    ensures some { ¬ NoneAboveBelow (λ place. Some place) 1 }
    ensures first { IsFirstToHave (λ place. Some 6) 1 6 }
    ensures not_first { ¬ IsFirstToHave (λ place. Some 6) 2 6 }
    ensures logs { LogsMayBegin (λ place. None) (Ok tt) }
    ensures not_logs { ¬ LogsMayBegin (λ place. Some 6) (Ok tt) }
    ensures pages { PagesMayBegin (Unit {0}) (Ok tt) }
    ensures not_pages { ¬ PagesMayBegin (Unit {0}) (Err cluster.NotClean) }
    ensures numbers { NumbersMayBegin None (Ok tt) }
    ensures not_numbers { ¬ NumbersMayBegin None (Err (cluster.Spent spent.Llsn 0 240000)) }
    ensures all { AllMayBegin (λ place. None) (Unit {0}) None (Ok tt) }
    ensures not_all { ¬ AllMayBegin (λ place. Some 6) (Unit {0}) None (Ok tt) }
    ensures content { (content : StoreContent) → content.pages.items ≡ [] → ¬ IsCleanContent content }
{}

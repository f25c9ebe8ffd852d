//! What operations on one key leave of its versions: which ones stand, whose they are, and what a reader takes of them.

ghost use Rattle.std.specs.Prelude.{◌≡◌, ℕ, ◌⊎◌, true, List, [], ◌∷◌, ◌++◌, map, Option, Some, None, IsTrue};
ghost use Rattle.mp_model.specs.declared.ids.TrxId.{TrxId};
ghost use Rattle.mp_cells.specs.declared.rows.Row.{Row};
ghost use Rattle.mp_histories.specs.KeyOps.{KeyOp, put, restore, FirstIs, live, is_top, NoneBy, newest_by, kept_version, put_last, NeverBack, Orderly, Together, newest_each, Spares, LeavesKept, IsOwnRun};
ghost use Rattle.mp_histories.specs.Commits.{Stamp, HasStamp, Falls};
ghost use Rattle.mp_histories.specs.Histories.{History, Version, by_version, ops_on};
ghost use Rattle.mp_histories.specs.Stamped.{OpsFit, AreDrawn, AreAmong, HasNoStamp, AreDrawnAbove, OpsStandFor};
ghost use Rattle.mp_histories.specs.OwnOps.{MarkedOp, all_ops, own_ops, marked_on, OwnsWriter, EndsElse};
ghost use Rattle.mp_histories.specs.Readers.{Takes, IsReadAt};

/// A version whose writer no later restore found on top stands on what stood before it was put. Where each put came
/// over versions of its own writer, or its writer had none, the versions of each writer stand together, and a restore
/// takes off all those of the newest one's writer.
pub fn law_live()
    ensures stays { (writer : Option TrxId) (later earlier : List (KeyOp Version)) (v : Version) → by_version v ≡ writer → Spares by_version writer later (put v ∷ earlier) → (upper : List Version) × (live by_version (later ++ put v ∷ earlier) ≡ upper ++ v ∷ live by_version earlier) }
    ensures together { (ops : List (KeyOp Version)) → Orderly by_version ops → Together by_version (live by_version ops) }
    ensures whole { (ops : List (KeyOp Version)) → Orderly by_version ops → FirstIs (λ top. NoneBy by_version (by_version top) (live by_version (restore ∷ ops))) (live by_version ops) }
{}

/// Where each put came over what it may cover, each put came over versions of its own writer, or its writer had none;
/// and down the versions that stand each writer committed below whatever the one above drew. More commits, and draws
/// above all commits, leave it so.
pub fn law_live_order()
    ensures orderly { (committed drew : List Stamp) (ops : List (KeyOp Version)) → AreDrawn committed drew → OpsFit committed drew ops → Orderly by_version ops }
    ensures falls { (committed drew : List Stamp) (ops : List (KeyOp Version)) → OpsFit committed drew ops → Falls by_version (HasStamp committed) (HasStamp drew) (newest_each by_version (live by_version ops)) }
    ensures more { (committed drew committed_now drew_now : List Stamp) (ops : List (KeyOp Version)) → AreAmong committed committed_now → AreDrawnAbove committed drew drew_now → OpsFit committed drew ops → OpsFit committed_now drew_now ops }
{}

/// What a writer keeps is its newest version that stands: the one that it put last, where later operations put none of
/// its and no restore found it on top; where no restore takes off its versions, the one that it put last. Where each
/// put came over what it may cover, the versions that stand stand for any list of commits that has all that committed
/// and only what was drawn.
pub fn law_kept()
    ensures newest { (writer : Option TrxId) (ops : List (KeyOp Version)) → Orderly by_version ops → kept_version by_version writer ops ≡ newest_by by_version writer (live by_version ops) }
    ensures stays { (writer : Option TrxId) (later ops : List (KeyOp Version)) → LeavesKept by_version writer later ops → kept_version by_version writer (later ++ ops) ≡ kept_version by_version writer ops }
    ensures last { (writer : Option TrxId) (later earlier : List (KeyOp Version)) (v : Version) → by_version v ≡ writer → LeavesKept by_version writer later (put v ∷ earlier) → kept_version by_version writer (later ++ put v ∷ earlier) ≡ Some v }
    ensures never_back { (writer : Option TrxId) (ops : List (KeyOp Version)) → NeverBack by_version writer ops → kept_version by_version writer ops ≡ put_last by_version writer ops }
    ensures stands { (committed listed drew : List Stamp) (ops : List (KeyOp Version)) (last : Row) → AreDrawn committed drew → AreAmong committed listed → AreAmong listed drew → OpsFit committed drew ops → last.writer ≡ None → OpsStandFor listed last ops }
{}

/// A writer that hasn't committed and keeps a version did the last operations, all of them puts; its versions are on
/// top, and below them is what stood before.
pub fn law_own_top()
    ensures run { (committed drew : List Stamp) (writer : Option TrxId) (ops : List (KeyOp Version)) (v : Version) → AreDrawn committed drew → HasNoStamp committed writer → OpsFit committed drew ops → kept_version by_version writer ops ≡ Some v → IsOwnRun by_version writer ops v }
    ensures top { (writer : Option TrxId) (ops : List (KeyOp Version)) (v : Version) → IsOwnRun by_version writer ops v → IsTrue (is_top by_version writer (live by_version ops)) }
{}

/// A node that itself puts and takes off a writer's versions knows them by its own operations: where the last of these
/// on a key is a put of the writer's, the writer keeps that version; and where the writer did the last operations of
/// all, its puts are the leading ones among the node's own, and no more of them.
pub fn law_own_part()
    ensures all { (key node : ℕ) (made : History) → all_ops (marked_on key node made) ≡ ops_on key made }
    ensures keeps { (writer : Option TrxId) (marked : List (MarkedOp Version)) (v : Version) (earlier : List (KeyOp Version)) → OwnsWriter by_version writer marked → own_ops marked ≡ put v ∷ earlier → by_version v ≡ writer → kept_version by_version writer (all_ops marked) ≡ Some v }
    ensures run { (writer : Option TrxId) (marked : List (MarkedOp Version)) (v : Version) → OwnsWriter by_version writer marked → Orderly by_version (all_ops marked) → (run : IsOwnRun by_version writer (all_ops marked) v) → (rest : List (KeyOp Version)) × (own_ops marked ≡ map put (v ∷ run.older) ++ rest) × EndsElse by_version writer rest }
{}

/// The first version that shows to a reader that hasn't committed is its own last one, where it keeps one; else, of the
/// writers that committed at or below its view and keep a version, that of the latest; and none shows where there is
/// neither.
pub fn law_read()
    ensures { (committed drew : List Stamp) (reader : Option TrxId) (view : ℕ) (ops : List (KeyOp Version)) (found : Option Version) → AreDrawn committed drew → HasNoStamp committed reader → OpsFit committed drew ops → Takes by_version (HasStamp committed) reader view (live by_version ops) found → IsReadAt by_version (HasStamp committed) reader view (λ writer. kept_version by_version writer ops) found }
{}

//! What may be lined up, what new members are, and how answers are listed, on small cases, as the contracts of functions that
//! do nothing.
ghost use Rattle.std.specs.Prelude.{◌≡◌, ◌∷◌, [], false, length, slice_get, Some};
ghost use Rattle.mp_core.specs.Invariant.{NumbersFit};
ghost use Rattle.mp_core_trx.specs.declared.opening.Base.{Base};
ghost use Rattle.mp_model.specs.declared.replies.Answer.{Answer};
ghost use Rattle.mp_opening.specs.declared.opening.Opened.{Opened};
ghost use Rattle.mp_primary.specs.Primaries.{PrimaryView};
ghost use Rattle.mp_script.specs.BeginNames.{begin_names};
ghost use Rattle.mp_script.specs.declared.statements.Line.{Line};
ghost use Rattle.mp_script.specs.declared.statements.Script.{Script};
ghost use Rattle.mp_shared.specs.Nodes.{opening_of};
ghost use Rattle.mp_supports.specs.Work.{Work};
ghost use Rattle.mp_lineup.specs.LiningUp.{work_over, MayLineUp, AreListed};
ghost use Rattle.mp_lineup.specs.NewMembers.{IsNewMember, AreNewMembers};
ghost use Rattle.mp_lineup.specs.SmallRuns.{answered_by, empty_log, eight_logs};

use mp_outside::Disk;

/// Eight empty logs on disks that tell nothing may be lined up where the numbers fit; seven, or two in the other's place, may
/// not. A script's primaries answer its lines. A primary that is down is no new member, and none has the number of another.
pub fn law_lining_up_examples<D: Disk>()
    ensures may { (script : Script) (opened : Opened D) (disk : D) → D.tells disk ≡ false → opened.logs.items ≡ eight_logs disk
        → NumbersFit (opening_of opened.base script.primaries (length (begin_names script.lines.items)) opened.pages.items)
        → MayLineUp D.Disk script opened }
    ensures not_seven { (script : Script) (opened : Opened D) → length opened.logs.items ≡ 7 → ¬ MayLineUp D.Disk script opened }
    ensures not_swapped { (script : Script) (opened : Opened D) (disk : D)
        → opened.logs.items ≡ empty_log disk 2 ∷ empty_log disk 1 ∷ [] → ¬ MayLineUp D.Disk script opened }
    ensures work { (script : Script) (base : Base) → (work_over script base).lines ≡ script.lines.items }
    ensures not_other_work { (script : Script) (base : Base) (line : Line) → script.lines.items ≡ []
        → ¬ ((work_over script base).lines ≡ line ∷ []) }
    ensures member { (work : Work) (pr : PrimaryView D) → IsNewMember D.Disk work 1 pr → AreNewMembers D.Disk work (pr ∷ []) }
    ensures not_down { (work : Work) (pr : PrimaryView D) → pr.down ≡ 1 → ¬ IsNewMember D.Disk work 1 pr }
    ensures none { (work : Work) → AreNewMembers D.Disk work [] }
    ensures not_twice { (work : Work) (pr : PrimaryView D) → ¬ AreNewMembers D.Disk work (pr ∷ pr ∷ []) }
{}

/// Three answers of two primaries are listed by their primaries, each list in its order; not so where two lists are swapped,
/// where an answer is missing, or where the order names another primary.
pub fn law_listed_examples()
    ensures listed { (a b c : Answer)
        → AreListed (answered_by 2 a ∷ answered_by 1 b ∷ answered_by 2 c ∷ []) (2 ∷ 1 ∷ 2 ∷ []) ((b ∷ []) ∷ (a ∷ c ∷ []) ∷ []) }
    ensures not_swapped { (a : Answer) → ¬ AreListed (answered_by 2 a ∷ []) (2 ∷ []) ((a ∷ []) ∷ [] ∷ []) }
    ensures not_missing { (a : Answer) → ¬ AreListed (answered_by 1 a ∷ []) (1 ∷ []) ([] ∷ []) }
    ensures not_another { (a : Answer) → ¬ AreListed (answered_by 1 a ∷ []) (2 ∷ []) ((a ∷ []) ∷ [] ∷ []) }
{}

/// What the small runs are made of: an answer is its primary's, and no other's; an empty log is its primary's; the eight are in
/// the order of their primaries.
pub fn law_small_run_examples<D: Disk>()
    ensures answer { (a : Answer) → (answered_by 2 a).node ≡ 2 }
    ensures not_of_another { (a : Answer) → ¬ ((answered_by 2 a).node ≡ 1) }
    ensures log { (disk : D) → (empty_log disk 2).tail.node ≡ 2 }
    ensures not_anothers { (disk : D) → ¬ ((empty_log disk 2).tail.node ≡ 1) }
    ensures eight { (disk : D) → slice_get (eight_logs disk) 7 ≡ Some (empty_log disk 8) }
    ensures not_backwards { (disk : D) → ¬ (slice_get (eight_logs disk) 0 ≡ Some (empty_log disk 8)) }
{}

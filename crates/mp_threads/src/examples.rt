//! What the words of a run on threads say in small cases, as the contracts of functions that do nothing.
ghost use Rattle.std.specs.Prelude.{◌≡◌, ℕ, ◌<◌, true, false, List, [], ◌∷◌, Some};
ghost use Rattle.mp_machine.specs.View.{part_in};
ghost use Rattle.mp_core.specs.declared.part.CorePart.{CorePart};
ghost use Rattle.mp_model.specs.declared.waiting.Turn.TheVariants.{Done, Stopped};
ghost use Rattle.mp_schedule.specs.Schedules.{HasSessions};
ghost use Rattle.mp_shared.specs.Nodes.{Run, NodeView, Reached, joined_nodes};
ghost use Rattle.mp_supports.specs.Work.{Work};
ghost use Rattle.mp_supports.specs.Kept.{Entry};
ghost use Rattle.mp_primary.specs.Primaries.{PrimaryView, PrimaryAgreesIn, StandsWith};
ghost use Rattle.mp_primary.specs.Downs.{IsDownAsTold};
ghost use Rattle.mp_primary.specs.Turns.{MayTakeTurn};
ghost use Rattle.mp_members.specs.declared.members.Members.{Members};
ghost use Rattle.mp_members.specs.Running.{IsThrough, AreThrough, RunsApart};
ghost use Rattle.mp_threads.specs.declared.runner.Runner.{Runner};
ghost use Rattle.mp_threads.specs.Threads.{HasOnly, StandsAlone, StandsSomehow, GoesAlone, MayRun, RanAlone, AllMayRun, AllRanAlone, EndsApart};
ghost use Rattle.mp_threads.specs.Dealing.{HasLeft, joined_runners, MayJoin, EndsBy, IsDealt, AllDealt, DroveAlone};

use mp_outside::Disk;

/// A node without parts has only that of any primary, and one that carries a page's frame doesn't. A primary that stands, agrees and
/// is down or up as its part tells stands on its own with a node that has its part alone, before it answers anything, and none in
/// the midst of a turn. It goes on to where it is, and not to where it can't go on from. It may not begin on a thread that is short of
/// memory. One that was short of it left what it was, and one that wasn't and isn't through didn't run to its end.
pub fn law_alone_examples<D: Disk>()
    ensures only { (run : Run) (n : NodeView) → n.run ≡ run → n.frames ≡ [] → n.parts ≡ [] → HasOnly run 1 n }
    ensures not_only { (run : Run) (n : NodeView) → n.frames ≡ 5 ∷ [] → ¬ HasOnly run 1 n }
    ensures alone { (run : Run) (pr : PrimaryView D) (n : NodeView) → run.opening.trx.base ≡ pr.work.base → HasOnly run pr.number n
        → StandsWith D.Disk run pr n → PrimaryAgreesIn D.Disk pr [] n → IsDownAsTold pr n
        → ((session : ℕ) → session < 65 → MayTakeTurn pr session) → StandsAlone D.Disk pr.work run pr n [] }
    ensures not_alone { (work : Work) (run : Run) (pr : PrimaryView D) (n : NodeView) (entries : List Entry) → n.frames ≡ 5 ∷ []
        → ¬ StandsAlone D.Disk work run pr n entries }
    ensures somehow { (work : Work) (run : Run) (pr : PrimaryView D) (n : NodeView) → StandsAlone D.Disk work run pr n []
        → StandsSomehow D.Disk run pr n }
    ensures nohow { (run : Run) (pr : PrimaryView D) (n : NodeView) → n.frames ≡ 5 ∷ [] → ¬ StandsSomehow D.Disk run pr n }
    ensures goes { (run : Run) (pr : PrimaryView D) (n : NodeView) → GoesAlone D.Disk run pr pr n n }
    ensures goes_nowhere { (work : Work) (run : Run) (old new : PrimaryView D) (before after : NodeView)
        → StandsAlone D.Disk work run old before [] → after.frames ≡ 5 ∷ [] → ¬ GoesAlone D.Disk run old new before after }
    ensures may { (run : Run) (pr : PrimaryView D) (r : Runner) → StandsSomehow D.Disk run pr r.node → r.schedule.tries.items ≡ []
        → r.short ≡ false → MayRun D.Disk run pr r }
    ensures may_not { (run : Run) (pr : PrimaryView D) (r : Runner) → r.short ≡ true → ¬ MayRun D.Disk run pr r }
    ensures ran { (run : Run) (pr : PrimaryView D) (r : Runner) → HasOnly run pr.number r.node → r.short ≡ true
        → RanAlone D.Disk run pr pr r r }
    ensures not_ran { (run : Run) (pr : PrimaryView D) (r : Runner) → r.short ≡ false → ¬ IsThrough pr
        → ¬ RanAlone D.Disk run pr pr r r }
{}

/// No primary may begin with nothing, and none ran that wasn't there. Where all are through a run on threads is at its end, and not
/// before. Nothing is left of what wasn't split off; a part that is there still wasn't. A node that took in no other is as it was,
/// and one that took in another has both parts. One that carries a page's frame isn't joined. A turn that is done tells that the
/// primary is through, and none tells of one that is up that it was stopped. Members that lost a primary weren't dealt out. Turns
/// on a thread that is short of memory are over.
pub fn law_dealing_examples<D: Disk>()
    ensures none_may { (run : Run) → AllMayRun D.Disk run [] [] }
    ensures one_may_not { (run : Run) (pr : PrimaryView D) → ¬ AllMayRun D.Disk run (pr ∷ []) [] }
    ensures none_ran { (run : Run) → AllRanAlone D.Disk run [] [] [] [] }
    ensures one_gone { (run : Run) (pr : PrimaryView D) → ¬ AllRanAlone D.Disk run (pr ∷ []) [] [] [] }
    ensures ended { (m : Members D) → AreThrough m → EndsApart D.Disk m m }
    ensures not_ended { (work : Work) (m : Members D) → RunsApart D.Disk work m [] → ¬ AreThrough m → ¬ EndsApart D.Disk m m }
    ensures left { (n : NodeView) → n.frames ≡ [] → Reached n → HasLeft n 0 n }
    ensures not_left { (all rest : NodeView) (q : CorePart) → part_in rest.parts 1 ≡ Some q → ¬ HasLeft all 1 rest }
    ensures joined { (n : NodeView) (r : Runner) → joined_runners n (r ∷ []) ≡ joined_nodes n r.node }
    ensures not_joined { (n : NodeView) (r : Runner) → n.frames ≡ 5 ∷ [] → r.node.frames ≡ [] → ¬ (joined_runners n (r ∷ []) ≡ r.node) }
    ensures joins { (n : NodeView) → n.frames ≡ [] → MayJoin n.run n }
    ensures may_not_join { (run : Run) (n : NodeView) → n.frames ≡ 5 ∷ [] → ¬ MayJoin run n }
    ensures done { (pr : PrimaryView D) → IsThrough pr → EndsBy pr Done }
    ensures not_stopped { (pr : PrimaryView D) → pr.down ≡ 0 → ¬ EndsBy pr (Stopped 1) }
    ensures dealt { (m : Members D) → IsDealt m m }
    ensures not_dealt { (old new : Members D) (pr : PrimaryView D) → old.primaries.items ≡ pr ∷ [] → new.primaries.items ≡ []
        → ¬ IsDealt old new }
    ensures none_dealt { (work : Work) (run : Run) → AllDealt D.Disk work run [] [] }
    ensures one_not_dealt { (work : Work) (run : Run) (pr : PrimaryView D) → ¬ AllDealt D.Disk work run (pr ∷ []) [] }
    ensures drove { (run : Run) (pr : PrimaryView D) (r : Runner) → HasSessions r.schedule.tries.items → r.short ≡ false
        → DroveAlone D.Disk run pr pr r r }
    ensures not_driven { (run : Run) (pr : PrimaryView D) (r : Runner) → r.short ≡ true → ¬ DroveAlone D.Disk run pr pr r r }
{}

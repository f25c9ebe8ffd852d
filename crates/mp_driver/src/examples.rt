//! What the words of driving say in small cases, as the contracts of functions that do nothing.
ghost use Rattle.std.specs.Prelude.{◌≡◌, ◌≢◌, ℕ, ◌<◌, true, false, List, [], ◌∷◌, slice_get, None, Some, Option};
ghost use Rattle.mp_model.specs.declared.ids.TrxName.{TrxName};
ghost use Rattle.mp_model.specs.declared.replies.Answer.{Answer};
ghost use Rattle.mp_model.specs.declared.waiting.Cause.TheVariants as causes;
ghost use Rattle.mp_model.specs.declared.waiting.Turn.TheVariants as turns;
ghost use Rattle.mp_model.specs.declared.waiting.WordKind.TheVariants as words;
ghost use Rattle.mp_schedule.specs.Schedules.{free_try};
ghost use Rattle.mp_supports.specs.Work.{Work};
ghost use Rattle.mp_verdict.specs.Orders.{NodeEntry};
ghost use Rattle.mp_primary.specs.Primaries.{PrimaryView};
ghost use Rattle.mp_members.specs.declared.members.Members.{Members};
ghost use Rattle.mp_members.specs.Running.{Runs, AreSameMembers, AreThrough};
ghost use Rattle.mp_driver.specs.Driving.{IsOnMember, is_on_member, AreOnMembers, is_word_of_page, is_page_wait, number_answering, IsThroughAt, IsDownAt, RunsSomehow, RunsOn, DrivesOn, TurnsAt, RunsToItsEnd};

use mp_outside::Disk;

/// A session is on a member where it is declared on one of so many primaries, and not on one beyond them. A try is of such a
/// session, and of no undeclared one. The words of a page are those of its lock and its frame, and not a least view; who
/// waits for a writer waits for no page.
pub fn law_trying_examples()
    ensures on_one { IsOnMember (record { session = 3; primary = 1 } ∷ []) 1 3 }
    ensures beyond { ¬ IsOnMember (record { session = 3; primary = 2 } ∷ []) 1 3 }
    ensures declared { is_on_member (record { session = 3; primary = 1 }) 1 3 ≡ true }
    ensures declared_beyond { is_on_member (record { session = 3; primary = 2 }) 1 3 ≡ false }
    ensures tries { AreOnMembers (record { session = 3; primary = 1 } ∷ []) 1 (free_try 3 ∷ []) }
    ensures tries_undeclared { ¬ AreOnMembers [] 1 (free_try 3 ∷ []) }
    ensures word_of_page { is_word_of_page words.Lock ≡ true }
    ensures word_of_slots { is_word_of_page words.Least ≡ false }
    ensures waits_for_page { is_page_wait (causes.Word (record { of = words.Frame; at = 5; seen = 0 })) ≡ true }
    ensures waits_for_writer { (name : TrxName) → is_page_wait (causes.Writer name) ≡ false }
{}

/// A primary whose count of answers grew gave one, and one that is as it was didn't. A place where no primary is is through,
/// and not each is where members aren't. A place is down whose primary is, and not one whose primary is up. Members that carry
/// a page's frame run from nothing. A run goes on to where it is, and not to where it can't go on from. A turn that was stopped
/// doesn't leave its primary up. A run that is through is at its end, and one that isn't is not.
pub fn law_driving_examples<D: Disk>()
    ensures answers { (old new : PrimaryView D) (a : Answer) → old.book.answers.items ≡ [] → new.book.answers.items ≡ a ∷ [] → number_answering old new ≡ new.number ∷ [] }
    ensures answers_nothing { (pr : PrimaryView D) → number_answering pr pr ≡ [] }
    ensures through_there { (m : Members D) → m.primaries.items ≡ [] → IsThroughAt m 0 }
    ensures not_through_there { (m : Members D) → ¬ AreThrough m → ¬ ((place : ℕ) → IsThroughAt m place) }
    ensures down_there { (m : Members D) (pr : PrimaryView D) → m.primaries.items ≡ pr ∷ [] → pr.down ≢ 0 → IsDownAt m 0 }
    ensures not_down_there { (m : Members D) (pr : PrimaryView D) → slice_get m.primaries.items 0 ≡ Some pr → pr.down ≡ 0 → ¬ IsDownAt m 0 }
    ensures somehow { (work : Work) (m : Members D) (given : List NodeEntry) → Runs D.Disk work m given → RunsSomehow D.Disk m }
    ensures with_a_frame { (m : Members D) → m.node.frames ≡ 5 ∷ [] → ¬ RunsSomehow D.Disk m }
    ensures on_here { (m : Members D) → RunsOn D.Disk m m }
    ensures on_nowhere { (work : Work) (old new : Members D) → Runs D.Disk work old [] → new.node.frames ≡ 5 ∷ [] → ¬ RunsOn D.Disk old new }
    ensures drives { (m : Members D) → DrivesOn D.Disk m m }
    ensures drives_others { (old new : Members D) → ¬ AreSameMembers D.Disk old new → ¬ DrivesOn D.Disk old new }
    ensures turn { (m : Members D) (place session : ℕ) → TurnsAt D.Disk place (Some session) m m turns.Answered }
    ensures stopped { (old new : Members D) (place by : ℕ) (session : Option ℕ) (pr : PrimaryView D) → slice_get new.primaries.items place ≡ Some pr
        → pr.down ≡ 0 → ¬ TurnsAt D.Disk place session old new (turns.Stopped by) }
    ensures ended { (m : Members D) → AreThrough m → RunsToItsEnd D.Disk m m }
    ensures not_ended { (work : Work) (m : Members D) → Runs D.Disk work m [] → ¬ AreThrough m → ¬ RunsToItsEnd D.Disk m m }
{}

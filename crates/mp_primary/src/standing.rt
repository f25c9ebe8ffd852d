//! What a standing primary tells of others and of its part.
ghost use Rattle.std.specs.Prelude.{◌≡◌, ◌≢◌, ℕ, ◌+◌, ◌<◌, true, List, [], length, Some, Option};
ghost use Rattle.mp_machine.specs.View.{part_in};
ghost use Rattle.mp_script.specs.Below.{EachBelow, answered, stated};
ghost use Rattle.mp_script.specs.Execution.{is_session_on};
ghost use Rattle.mp_book.specs.Answered.{IsPlaced};
ghost use Rattle.mp_book.specs.declared.session.Session.{Session};
ghost use Rattle.mp_book.specs.Through.{have_no_task};
ghost use Rattle.mp_core_pages.specs.declared.page_lock.Held.TheVariants.{No};
ghost use Rattle.mp_core_pages.specs.PageParts.{held_at};
ghost use Rattle.mp_core.specs.declared.part.CorePart.{CorePart};
ghost use Rattle.mp_core.specs.CoreExtends.{durable_of};
ghost use Rattle.mp_model.specs.declared.waiting.Turn.{Turn};
ghost use Rattle.mp_model.specs.declared.waiting.Turn.TheVariants as turns;
ghost use Rattle.mp_shared.specs.Nodes.{Run, NodeView};
ghost use Rattle.mp_supports.specs.Agreement.{last_made_llsn};
ghost use Rattle.mp_supports.specs.Kept.{Entry};
ghost use Rattle.mp_primary.specs.Primaries.{PrimaryView, IsBetweenTurns, PrimaryAgreesIn, StandsWith};
ghost use Rattle.mp_primary.specs.Answering.{have_no_line};
ghost use Rattle.mp_primary.specs.Downs.{IsDownAsTold};
ghost use Rattle.mp_primary.specs.Turns.{Adds, AddsAnswer, EndsUnprinted, TakesTurn};

use mp_outside::Disk;

/// Behind a turn of one primary each other one stands on with the node, and is down as its own word says. Between turns a primary that is up holds no lock, and
/// all that it made is durable.
pub fn law_standing<D: Disk>()
    ensures beside { (run : Run) (old new other : PrimaryView D) (before after : NodeView) (session : Option ℕ) (turn : Turn)
        → TakesTurn D.Disk run old new before after session turn → other.number ≢ old.number
        → StandsWith D.Disk run other before → StandsWith D.Disk run other after }
    ensures told_beside { (run : Run) (old new other : PrimaryView D) (before after : NodeView) (session : Option ℕ) (turn : Turn)
        → TakesTurn D.Disk run old new before after session turn → other.number ≢ old.number
        → IsDownAsTold other before → IsDownAsTold other after }
    ensures idle { (run : Run) (pr : PrimaryView D) (n : NodeView) (q : CorePart) → StandsWith D.Disk run pr n → pr.down ≡ 0
        → part_in n.parts pr.number ≡ Some q → (page : ℕ) → held_at q.pages.locks page ≡ No }
    ensures durable { (run : Run) (pr : PrimaryView D) (n : NodeView) (q : CorePart) → StandsWith D.Disk run pr n → pr.down ≡ 0
        → part_in n.parts pr.number ≡ Some q → last_made_llsn q ≡ durable_of q }
{}

/// A primary's answers stand in their places; where none of its sessions has a statement left, each statement of these is
/// answered. So it is where none has anything left.
pub fn law_answered<D: Disk>()
    ensures in_order { (pr : PrimaryView D) → IsBetweenTurns pr → EachBelow (IsPlaced pr.work.lines pr.work.sessions pr.number) [] pr.book.answers.items }
    ensures none_left { (pr : PrimaryView D) (session : ℕ) → IsBetweenTurns pr → have_no_line pr.book.sessions.items ≡ true → session < 65
        → is_session_on pr.work.sessions session pr.number ≡ true → answered session pr.book.answers.items ≡ stated session pr.work.lines }
    ensures through { (sessions : List Session) → have_no_task sessions ≡ true → have_no_line sessions ≡ true }
{}

/// A turn that answered for a session added one answer, the last, exactly where there is one more; else an unprinted rollback
/// ended.
pub fn law_added<D: Disk>()
    ensures one_more { (run : Run) (old new : PrimaryView D) (before after : NodeView) (number : ℕ) → StandsWith D.Disk run old before
        → (turn : TakesTurn D.Disk run old new before after (Some number) turns.Answered) (entries : List Entry) (agrees : PrimaryAgreesIn D.Disk old entries before)
        → length new.book.answers.items ≡ length old.book.answers.items + 1 → AddsAnswer old number (turn.goes_on entries agrees).more }
    ensures none_more { (run : Run) (old new : PrimaryView D) (before after : NodeView) (number : ℕ) → StandsWith D.Disk run old before
        → (turn : TakesTurn D.Disk run old new before after (Some number) turns.Answered) (entries : List Entry) (agrees : PrimaryAgreesIn D.Disk old entries before)
        → length new.book.answers.items ≢ length old.book.answers.items + 1 → EndsUnprinted old new number (turn.goes_on entries agrees).more }
    ensures last { (run : Run) (old new : PrimaryView D) (before after : NodeView) (number : ℕ) → StandsWith D.Disk run old before
        → (turn : TakesTurn D.Disk run old new before after (Some number) turns.Answered) (entries : List Entry) (agrees : PrimaryAgreesIn D.Disk old entries before)
        → (added : AddsAnswer old number (turn.goes_on entries agrees).more) → Adds old new added.answer }
{}

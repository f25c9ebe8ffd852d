//! What the words of a run say in small cases, as the contracts of functions that do nothing.
ghost use Rattle.std.specs.Prelude.{◌≡◌, ℕ, ◌<◌, List, [], ◌∷◌, Option, None, Some};
ghost use Rattle.mp_machine.specs.View.{part_in};
ghost use Rattle.mp_core.specs.declared.part.CorePart.{CorePart};
ghost use Rattle.mp_core.specs.Downs.{down_of};
ghost use Rattle.mp_book.specs.SmallBooks.{its_begun, session_with};
ghost use Rattle.mp_book.specs.declared.stage.Stage.{Stage};
ghost use Rattle.mp_files.specs.Nine.{DiskRose};
ghost use Rattle.mp_log.specs.Tails.{LogView};
ghost use Rattle.mp_supports.specs.Work.{Work};
ghost use Rattle.mp_verdict.specs.Orders.{NodeEntry};
ghost use Rattle.mp_primary.specs.Primaries.{PrimaryView, PrimaryAgreesIn, StandsWith};
ghost use Rattle.mp_primary.specs.Downs.{IsDownAsTold};
ghost use Rattle.mp_primary.specs.Turns.{MayTakeTurn};
ghost use Rattle.mp_members.specs.declared.members.Members.{Members};
ghost use Rattle.mp_members.specs.Running.{logs_of, down_in, downs_of, downs_in, IsThrough, AreThrough, IsMember, AreMembers, Runs, RunsApart, IsSameMember, AreSameMembers, MemberFailed};

use mp_outside::Disk;

/// Idle logs are behind those of the primaries, none of which is left out. All are through where there is no primary, and
/// not where a session of one that is up skips a transaction. A primary that is down is through where its transaction is left open, one that
/// is up isn't, and none is whose statement isn't answered. A primary that stands, agrees and is down or up as its part tells is
/// a member, and one that is down where its part tells otherwise isn't. No run has an answer that isn't in its order. Members whose
/// node carries a page's frame are in the midst of a turn. Members that answered nothing may run on threads of their own.
pub fn law_running_examples<D: Disk>()
    ensures idle { (m : Members D) (log : LogView D) → m.primaries.items ≡ [] → m.idle.items ≡ log ∷ [] → logs_of m ≡ log ∷ [] }
    ensures none_left_out { (m : Members D) (pr : PrimaryView D) → m.primaries.items ≡ pr ∷ [] → ¬ (logs_of m ≡ []) }
    ensures through { (m : Members D) → m.primaries.items ≡ [] → AreThrough m }
    ensures not_through { (m : Members D) (pr : PrimaryView D) → m.primaries.items ≡ pr ∷ [] → pr.down ≡ 0
        → pr.book.sessions.items ≡ session_with 3 Stage.Skipping [] ∷ [] → ¬ AreThrough m }
    ensures down_through { (pr : PrimaryView D) → pr.down ≡ 2
        → pr.book.sessions.items ≡ session_with 3 (Stage.Open its_begun) [] ∷ [] → IsThrough pr }
    ensures up_not_through { (pr : PrimaryView D) → pr.down ≡ 0
        → pr.book.sessions.items ≡ session_with 3 (Stage.Open its_begun) [] ∷ [] → ¬ IsThrough pr }
    ensures unanswered { (pr : PrimaryView D) → pr.book.sessions.items ≡ session_with 2 (Stage.Open its_begun) [] ∷ [] → ¬ IsThrough pr }
    ensures member { (m : Members D) (pr : PrimaryView D) → StandsWith D.Disk m.shared pr m.node → PrimaryAgreesIn D.Disk pr [] m.node
        → IsDownAsTold pr m.node → ((session : ℕ) → session < 65 → MayTakeTurn pr session) → IsMember D.Disk pr.work m [] pr.number pr }
    ensures not_member { (work : Work) (m : Members D) (given : List NodeEntry) (n : ℕ) (pr : PrimaryView D) (q : CorePart)
        → part_in m.node.parts pr.number ≡ Some q → down_of q ≡ 0 → pr.down ≡ 1 → ¬ IsMember D.Disk work m given n pr }
    ensures not_in_order { (work : Work) (m : Members D) (x : NodeEntry) (given : List NodeEntry) → m.order.items ≡ [] → ¬ Runs D.Disk work m (x ∷ given) }
    ensures not_members { (work : Work) (m : Members D) (given : List NodeEntry) → m.node.frames ≡ 5 ∷ [] → ¬ AreMembers D.Disk work m given }
    ensures apart { (work : Work) (m : Members D) → AreMembers D.Disk work m [] → RunsApart D.Disk work m [] }
    ensures not_apart { (work : Work) (m : Members D) (given : List NodeEntry) → m.node.frames ≡ 5 ∷ [] → ¬ RunsApart D.Disk work m given }
{}

/// Members stay the same where nothing changes, and neither with another number, nor with fewer of them, nor where one that was
/// down is up. One that went down with its own number is the same where its disk's count rose, and not where its log is as it
/// was; one that went down with another number may be the same. A log failed where the count of its disk rose, and never that of
/// a primary which isn't there.
pub fn law_member_examples<D: Disk>()
    ensures same_member { (pr : PrimaryView D) → IsSameMember D.Disk pr pr }
    ensures another_number { (old new : PrimaryView D) → old.number ≡ 1 → new.number ≡ 2 → ¬ IsSameMember D.Disk old new }
    ensures up_again { (old new : PrimaryView D) → old.down ≡ 1 → new.down ≡ 0 → ¬ IsSameMember D.Disk old new }
    ensures fell { (pr : PrimaryView D) → pr.down ≡ 0 → DiskRose D.Disk pr.media.log.disk pr.media.log.disk
        → IsSameMember D.Disk pr (record pr { down = pr.number }) }
    ensures not_fell { (pr : PrimaryView D) → pr.number ≡ 1 → pr.down ≡ 0 → ¬ DiskRose D.Disk pr.media.log.disk pr.media.log.disk
        → ¬ IsSameMember D.Disk pr (record pr { down = 1 }) }
    ensures fell_with { (pr : PrimaryView D) → pr.number ≡ 1 → pr.down ≡ 0 → IsSameMember D.Disk pr (record pr { down = 2 }) }
    ensures same { (m : Members D) → AreSameMembers D.Disk m m }
    ensures fewer { (old new : Members D) (pr : PrimaryView D) → old.primaries.items ≡ pr ∷ [] → new.primaries.items ≡ [] → ¬ AreSameMembers D.Disk old new }
    ensures failed { (old new : Members D) (before after : PrimaryView D) → old.primaries.items ≡ before ∷ [] → new.primaries.items ≡ after ∷ []
        → DiskRose D.Disk before.media.log.disk after.media.log.disk → MemberFailed D.Disk 1 old new }
    ensures not_there { (old new : Members D) (pr : PrimaryView D) → old.primaries.items ≡ pr ∷ [] → ¬ MemberFailed D.Disk 2 old new }
{}

/// With which number a primary is down: that of the one at its place, and none where nobody stands there; primary 0 isn't.
pub fn law_down_examples<D: Disk>()
    ensures there { (pr : PrimaryView D) → down_in (Some pr) ≡ pr.down }
    ensures nobody { (none : Option (PrimaryView D)) → none ≡ None → down_in none ≡ 0 }
    ensures second { (one two : PrimaryView D) → downs_of (one ∷ two ∷ []) 2 ≡ two.down }
    ensures not_first { (one two : PrimaryView D) → one.down ≡ 1 → two.down ≡ 0 → ¬ (downs_of (one ∷ two ∷ []) 2 ≡ 1) }
    ensures zero { (primaries : List (PrimaryView D)) → downs_of primaries 0 ≡ 0 }
    ensures members { (m : Members D) (pr : PrimaryView D) → m.primaries.items ≡ pr ∷ [] → downs_in m 1 ≡ pr.down }
    ensures not_beyond { (m : Members D) (pr : PrimaryView D) → m.primaries.items ≡ pr ∷ [] → ¬ (downs_in m 2 ≡ 1) }
{}

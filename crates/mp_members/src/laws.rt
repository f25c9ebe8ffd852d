//! What the members of a run tell of those that are down, as the contract of a function that does nothing.
ghost use Rattle.std.specs.Prelude.{◌≡◌, ◌≢◌, ℕ, List};
ghost use Rattle.mp_core_trx.specs.Events.{IsNode};
ghost use Rattle.mp_supports.specs.Work.{Work};
ghost use Rattle.mp_verdict.specs.Orders.{NodeEntry};
ghost use Rattle.mp_members.specs.declared.members.Members.{Members};
ghost use Rattle.mp_members.specs.Running.{downs_in, AreMembers, AreSameMembers, MemberFailed};

use mp_outside::Disk;

/// A primary of a run that is down is so with the number of one that is down with its own. Where a primary is down with its own
/// number and was up, the count of faults of its log's disk rose.
pub fn law_downs<D: Disk>()
    ensures cause { (work : Work) (m : Members D) (given : List NodeEntry) (n : ℕ) → AreMembers D.Disk work m given → IsNode m.shared.opening.trx n
        → downs_in m n ≢ 0 → IsNode m.shared.opening.trx (downs_in m n) × (downs_in m (downs_in m n) ≡ downs_in m n) }
    ensures failed { (work : Work) (old new : Members D) (given : List NodeEntry) (n : ℕ) → AreMembers D.Disk work new given → AreSameMembers D.Disk old new
        → IsNode new.shared.opening.trx n → downs_in old n ≡ 0 → downs_in new n ≡ n → MemberFailed D.Disk n old new }
{}

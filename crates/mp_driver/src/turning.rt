//! Turns of members.
ghost use Rattle.std.specs.Prelude.{◌≡◌, ◌<◌, ◌++◌, true, length, IfSome, IfOk, OnOk};
ghost use Rattle.mp_primary.specs.Primaries.{StandsWith};
ghost use Rattle.mp_primary.specs.Downs.{IsDownAsTold};
ghost use Rattle.mp_primary.specs.Turns.{MayTakeTurn, TakesTurn};
ghost use Rattle.mp_members.specs.Running.{IsSameMember, AreSameMembers, AreThrough};
ghost use Rattle.mp_driver.specs.Driving.{number_answering, RunsSomehow, DrivesOn, TurnsAt};

use mp_members::Members;
use mp_model::{Memory, Turn};
use mp_outside::Disk;
use mp_primary::Primary;
use mp_shared::{Node, Shared};
use mp_steps::{Ledger, Steps};

/// A turn of the primary at a place, whose number is added to the order of answers where it gave one.
pub(crate) fn turn_at<D: Disk, L: Ledger>(
    members: &mut Members<D>,
    place: usize,
    session: Option<u8>,
    steps: &mut Steps<L>,
) -> Result<Turn, Memory>
    requires runs { RunsSomehow D.Disk members.old }
    requires place { place < length members.old.primaries.items }
    requires session { IfSome session (λ number. number < 65) }
    ensures turn { IfOk result (TurnsAt D.Disk place session members.old members.new) }
    ensures same { AreSameMembers D.Disk members.old members.new }
{
    take_turn(
        &mut members.primaries[place],
        &members.shared,
        &mut members.node,
        &mut members.order,
        session,
        steps,
    )
}

// A turn of a primary. Room for its number is taken before it, so that nothing is lost for want of memory.
fn take_turn<D: Disk, L: Ledger>(
    primary: &mut Primary<D>,
    shared: &Shared,
    node: &mut Node,
    order: &mut Vec<u8>,
    session: Option<u8>,
    steps: &mut Steps<L>,
) -> Result<Turn, Memory>
    requires stands { StandsWith D.Disk shared.now primary.old node.old }
    requires told { IsDownAsTold primary.old node.old }
    requires session { IfSome session (MayTakeTurn primary.old) }
    ensures turn { IfOk result (TakesTurn D.Disk shared.now primary.old primary.new node.old node.new session) }
    ensures order { OnOk result (order.new.items ≡ order.old.items ++ number_answering primary.old primary.new) }
    ensures same { IsSameMember D.Disk primary.old primary.new }
{
    if order.reserve(1).is_err() {
        return Err(Memory);
    }
    let answered = primary.answered();
    let turn = match primary.turn(shared, node, session, steps) {
        Ok(turn) => turn,
        Err(Memory) => return Err(Memory),
    };
    let number = primary.number();
    if primary.answered() != answered {
        order.push_reserved(number);
    }
    Ok(turn)
}

/// A serving turn of each primary, in ascending number.
pub(crate) fn serve<D: Disk, L: Ledger>(
    members: &mut Members<D>,
    steps: &mut Steps<L>,
) -> Result<(), Memory>
    requires runs { RunsSomehow D.Disk members.old }
    ensures drives { OnOk result (DrivesOn D.Disk members.old members.new) }
    ensures same { AreSameMembers D.Disk members.old members.new }
{
    for place in 0..members.primaries.len() {
        let _turn = turn_at(members, place, None, steps)?;
    }
    Ok(())
}

/// Serving turns, until a primary has something left: whether each statement is answered, and no primary that is up has
/// anything left to do.
pub(crate) fn settle<D: Disk, L: Ledger>(
    members: &mut Members<D>,
    steps: &mut Steps<L>,
) -> Result<bool, Memory>
    requires runs { RunsSomehow D.Disk members.old }
    ensures drives { OnOk result (DrivesOn D.Disk members.old members.new) }
    ensures through { IfOk result (λ settled. settled ≡ true → AreThrough members.new) }
    ensures same { AreSameMembers D.Disk members.old members.new }
{
    for place in 0..members.primaries.len() {
        match turn_at(members, place, None, steps)? {
            Turn::Done => (),
            Turn::Stopped(_) => {
                if !members.primaries[place].is_answered() {
                    return Ok(false);
                }
            }
            _ => return Ok(false),
        }
    }
    Ok(true)
}

//! The joint machine, for the table that runs it.

use crate::opening::Opening;
use mp_core::{CoreEvent, CorePart};
use mp_machine::{NamesEvent, System};
use mp_page::Page;
use std::marker::Brand;

/// The machine.
pub struct Core;

impl System for Core {
    type Slot = Page;

    type Part = CorePart;

    type Opening = Opening;

    type Event = CoreEvent;

    ghost use Rattle.mp_core.specs.World.{CorePlace, CoreWorld, Note as CoreNote, core};
    ghost use Rattle.mp_core.specs.CoreLaws.{core_laws};

    ghost Place = { CorePlace };

    ghost Note = { CoreNote };

    ghost World = { CoreWorld };

    ghost machine = { core };

    ghost laws = { core_laws };
}

impl NamesEvent<Core, CoreEvent, Opening> for Brand {
    ghost use Rattle.mp_core_trx.specs.declared.event.TrxEvent.TheVariants.{LoadTso};
    ghost use Rattle.mp_core.specs.declared.event.CoreEvent.TheVariants.{Trx};
    ghost use Rattle.mp_core.specs.World.{empty_opening};

    ghost event = { Trx (LoadTso 0) };

    ghost opening = { empty_opening };
}

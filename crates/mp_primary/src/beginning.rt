//! How a transaction begins.
ghost use Rattle.std.specs.Prelude.{◌≡◌, ℕ, ◌+◌, ◌<◌, ◌≤◌, length, slice_get, Some};
ghost use Rattle.mp_machine.specs.Lists.{IsIn};
ghost use Rattle.mp_model.specs.declared.ids.TrxName.{TrxName};
ghost use Rattle.std.specs.List.{position};
ghost use Rattle.mp_script.specs.Transactions.{same_trx};
ghost use Rattle.mp_book.specs.declared.session.Session.{Session};
ghost use Rattle.mp_book.specs.declared.stage.Stage.TheVariants.{Closed};
ghost use Rattle.mp_primary.specs.Turns.{ComesTo};
ghost use Rattle.mp_primary.specs.Tries.{TriesTurn};

use crate::primary::Primary;
use mp_model::{Cause, TrxName, Turn};
use mp_outside::Disk;
use mp_script::Line;
use mp_shared::{Node, Shared};
use mp_trx_fusion::begin;

impl<D: Disk> Primary<D> {
    // Begins a session's transaction, whose version counts the script's `begin` lines up to its own. It takes no lock.
    pub(crate) fn begin_trx(
        &mut self,
        shared: &Shared,
        node: &mut Node,
        number: u8,
        line: Line,
    ) -> Turn
        requires comes { (s : Session) × ComesTo D.Disk shared.now self.old node.old number s line × (s.stage ≡ Closed) }
        requires up { self.old.down ≡ 0 }
        ensures { TriesTurn D.Disk shared.now self.old self.new node.old node.new (Some number) result }
    {
        let place = place_of(
            self.names.as_slice(),
            TrxName {
                session: number,
                first: line.index,
            },
        );
        let version = self.base.version + place as u32 + 1;
        match begin(shared, node, self.number, version) {
            Ok(trx) => {
                self.book.answer_begin(self.alloc, number, trx);
                Turn::Answered
            }
            Err(wait) => Turn::Waiting(Cause::Word(wait)),
        }
    }
}

// The place of a name that is among others.
fn place_of(names: &[TrxName], name: TrxName) -> usize
    requires { IsIn name names.now }
    ensures within { result < length names.now }
    ensures its { slice_get names.now result ≡ Some name }
{
    match find_name(names, name) {
        Some(place) => place,
        None => unreachable!(),
    }
}

fn find_name(names: &[TrxName], name: TrxName) -> Option<usize>
    ensures { result ≡ position (λ other. same_trx other name) names.now }
{
    names.iter().position(|other| other.session == name.session && other.first == name.first)
}

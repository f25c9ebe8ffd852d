//! The reading of one log for a merge, with its next mtr in hand.

ghost use Rattle.std.specs.Prelude.{◌≡◌, IfOk, nat_lt};
ghost use Rattle.mp_cells.specs.Mtrs.{IsMtr};
ghost use Rattle.mp_histories.specs.Cuts.{log_place};
ghost use Rattle.mp_recover.specs.Merging.{LaneSound, DidFill, fresh_lane, head_place};

use mp_cells::Mtr;
use mp_log::{LogRefusal, Reader};
use mp_model::Memory;
use mp_outside::Disk;
use std::alloc::Global;

/// A reader of a log, the mtr that it gave last and that wasn't taken yet, and whether it came to the end.
#[derive(Debug, Drop)]
pub(crate) struct Lane {
    pub(crate) reader: Reader,
    pub(crate) head: Option<Mtr>,
    pub(crate) over: bool,
}

impl Lane {
    /// The lane of a primary's log, before anything was read.
    pub(crate) fn new(alloc: Global, primary: u8) -> Result<Lane, Memory>
        ensures { IfOk result (λ lane. lane ≡ fresh_lane primary) }
    {
        let reader = Reader::new(alloc, primary)?;
        Ok(Lane {
            reader,
            head: None,
            over: false,
        })
    }

    /// Has the next mtr in hand, or knows that there is none.
    pub(crate) fn fill<D: Disk>(&mut self, disk: &mut D) -> Result<(), LogRefusal>
        ensures { DidFill D.Disk result self.old self.new disk.old disk.new }
    {
        if self.over || self.head.is_some() {
            return Ok(());
        }
        match self.reader.next(disk) {
            Ok(Some(mtr)) => {
                self.head = Some(mtr);
                Ok(())
            }
            Ok(None) => {
                self.over = true;
                Ok(())
            }
            Err(refusal) => Err(refusal),
        }
    }

    /// Whether its head comes before that of another lane.
    pub(crate) fn is_before(&self, other: &Lane) -> bool
        requires own { LaneSound self.now }
        requires others { LaneSound other.now }
        ensures { result ≡ nat_lt (head_place self.now.head) (head_place other.now.head) }
    {
        match (&self.head, &other.head) {
            (None, _) => false,
            (Some(_), None) => true,
            (Some(one), Some(another)) => comes_before(one, another),
        }
    }
}

// Whether an mtr stands before another one in the order of logs.
fn comes_before(one: &Mtr, other: &Mtr) -> bool
    requires own { IsMtr one.now }
    requires others { IsMtr other.now }
    ensures { result ≡ nat_lt (log_place one.now) (log_place other.now) }
{
    one.llsn < other.llsn || (one.llsn == other.llsn && one.node < other.node)
}

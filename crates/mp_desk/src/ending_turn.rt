//! How a primary lets all pages go.
ghost use Rattle.std.specs.Prelude.{◌≡◌, ℕ, ◌<◌, false, true, [], Some, slice_get, MatchOption, OnOk, OnErr};
ghost use Rattle.mp_outside.specs.Disks.{Counts};
ghost use Rattle.mp_core_pages.specs.declared.opening.TheConstants.{PAGES};
ghost use Rattle.mp_buffer_fusion.specs.declared.buffer.Buffer.{Buffer};
ghost use Rattle.mp_buffer_fusion.specs.Buffers.{buffer_of, StandsAt};
ghost use Rattle.mp_supports.specs.Work.{Work};
ghost use Rattle.mp_desk.specs.Desks.{IsAtDesk, Moves};
ghost use Rattle.mp_desk.specs.Making.{IsOpenLog, MediaAgree, MediaAgreeSomehow};
ghost use Rattle.mp_desk.specs.LetGo.{OnlyGaveBack, IsAllDurable, HasLetGo};

use crate::desk::Desk;
use crate::media::Media;
use mp_buffer_fusion::{BUFFERS, Pool};
use mp_lock_fusion::release;
use mp_outside::{Disk, Failed};
use mp_shared::{Node, Shared};

/// The page in the i-th buffer, from 0, where it isn't clean. `None` where it is, and behind the last.
fn changed_page(pool: &Pool, i: usize) -> Option<u16>
    requires { (k : ℕ) (b : Buffer) → buffer_of pool.now k ≡ Some b → k < PAGES }
    ensures { MatchOption result ((b : Buffer) → slice_get pool.now i ≡ Some b
        → b.clean ≡ true) (λ number. (b : Buffer) × StandsAt pool.now number i b × (b.clean ≡ false)) }
{
    let number = pool.buffered(i)?;
    if pool.is_clean(number) {
        return None;
    }
    Some(number)
}

impl Desk {
    /// Puts each page whose buffer isn't clean into its frame. All that the primary made is durable.
    fn push_all(&mut self, shared: &Shared, node: &mut Node, p: u8)
        requires desk { IsAtDesk shared.now self.old p node.old }
        requires durable { IsAllDurable p node.old }
        ensures desk { IsAtDesk shared.now self.new p node.new }
        ensures pushed { Moves OnlyGaveBack p node.old node.new }
        ensures clean { (i : ℕ) (b : Buffer) → slice_get self.new.pool i ≡ Some b → b.clean ≡ true }
        ensures rest { self.new ≡ record self.old { pool = self.new.pool } }
    {
        let count = usize::from(BUFFERS) - self.pool.free();
        for i in 0..count {
            if let Some(number) = changed_page(&self.pool, i) {
                self.pool.push(shared, node, p, number);
            }
        }
    }

    /// Gives back each lock that the primary holds. No page has a buffer, and all that the primary made is durable.
    fn release_all(&self, shared: &Shared, node: &mut Node, p: u8)
        requires desk { IsAtDesk shared.now self.now p node.old }
        requires empty { self.now.pool ≡ [] }
        requires durable { IsAllDurable p node.old }
        ensures desk { IsAtDesk shared.now self.now p node.new }
        ensures gone { Moves HasLetGo p node.old node.new }
        ensures released { Moves OnlyGaveBack p node.old node.new }
    {
        let mut from = 0;
        'locks: while let Some(number) = node.next_held(p, from) {
            release(shared, node, p, number);
            from = number + 1;
        }
    }

    /// Forces the log, puts each page that the primary changed into its frame, and gives back all locks. Refused only where
    /// something was appended, and the log's disk failed in this call: then nothing was given back, and no step was taken.
    pub fn let_go<D: Disk>(
        &mut self,
        media: &mut Media<D>,
        shared: &Shared,
        node: &mut Node,
        p: u8,
    ) -> Result<(), Failed>
        requires desk { IsAtDesk shared.now self.old p node.old }
        requires log { IsOpenLog p self.old.llsn media.old.log }
        requires agrees { MediaAgreeSomehow D.Disk media.old p node.old }
        ensures desk { IsAtDesk shared.now self.new p node.new }
        ensures gone { OnOk result (Moves HasLetGo p node.old node.new) }
        ensures emptied { OnOk result (self.new ≡ record self.old { pool = [] }) }
        ensures refused { OnErr result ((self.new ≡ self.old) × (node.new ≡ node.old)) }
        ensures appended { OnErr result (media.old.unforced ≡ true) }
        ensures media { (work : Work) → MediaAgree D.Disk work 0 media.old p node.old
            → OnOk result (MediaAgree D.Disk work 0 media.new p node.new) × OnErr result (MediaAgree D.Disk work p media.new p node.new) }
        ensures unforced { OnOk result (media.new.unforced ≡ false) }
        ensures open { OnOk result (IsOpenLog p self.new.llsn media.new.log) }
        ensures closed { OnErr result (media.new.log.tail.live ≡ false) }
        ensures counts { Counts result (D.faults media.old.log.disk) (D.faults media.new.log.disk) }
        ensures tells { D.tells media.new.log.disk ≡ D.tells media.old.log.disk }
    {
        media.force(shared, node, p)?;
        self.push_all(shared, node, p);
        self.pool.unpin_all();
        self.release_all(shared, node, p);
        Ok(())
    }
}

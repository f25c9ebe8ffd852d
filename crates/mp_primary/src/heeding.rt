//! How a primary tells that it is down, and how one whose statement waits looks whether those are down of whom it needs
//! something.
ghost use Rattle.std.specs.Prelude.{◌≡◌, ◌≤◌, true, false};
ghost use Rattle.mp_model.specs.declared.waiting.Turn.TheVariants as turns;
ghost use Rattle.mp_model.specs.declared.waiting.Cause.{Cause};
ghost use Rattle.mp_script.specs.Execution.{is_session_on};
ghost use Rattle.mp_primary.specs.Downs.{HasWord, NeedsOf, FoundAllUp, LooksAt, LooksAmong};
ghost use Rattle.mp_primary.specs.Turns.{IfWaiting};
ghost use Rattle.mp_primary.specs.Tries.{HasTried, HasTold, GoesDownBy};

use crate::primary::Primary;
use mp_core_pages::{Held, held_by};
use mp_model::{Cause, NotYet, Turn, WordKind};
use mp_outside::Disk;
use mp_script::SessionOn;
use mp_shared::{Node, Shared};

impl<D: Disk> Primary<D> {
    // Tells that the primary is down, where its log's disk failed in this try; where the try waits, looks at those of whom it
    // needs something. Whether it goes down behind the wait.
    pub(crate) fn heed(&mut self, shared: &Shared, node: &mut Node, turn: Turn) -> bool
        requires tried { HasTried D.Disk shared.now self.old node.old }
        ensures stays { result ≡ false → (self.new ≡ self.old) × HasTold D.Disk shared.now self.new node.old node.new
            × (self.old.down ≡ 0 → IfWaiting turn (λ cause. FoundAllUp self.old cause node.old node.new)) }
        ensures down { result ≡ true → (cause : Cause) × (turn ≡ turns.Waiting cause) × GoesDownBy D.Disk shared.now self.old self.new node.old node.new cause }
    {
        if self.down != 0 {
            self.tell_down(shared, node);
            return false;
        }
        match turn {
            Turn::Waiting(cause) => self.heed_cause(shared, node, cause),
            Turn::Answered | Turn::Done | Turn::Stopped(_) => false,
        }
    }

    // Stores in the primary's own word that it is down by its own log, if it is.
    pub(crate) fn tell_down(&self, shared: &Shared, node: &mut Node)
        requires { HasTried D.Disk shared.now self.now node.old }
        ensures { HasTold D.Disk shared.now self.now node.old node.new }
    {
        if self.down != 0 {
            shared.store_down(node, self.number, self.down);
        }
    }

    // Looks at those of whom a primary that waits needs something. With the number of the first that is down the primary goes
    // down too, and stores it in its own word. Whether it does.
    pub(crate) fn heed_cause(&mut self, shared: &Shared, node: &mut Node, cause: Cause) -> bool
        requires tried { HasTried D.Disk shared.now self.old node.old }
        requires up { self.old.down ≡ 0 }
        ensures stays { result ≡ false → (self.new ≡ self.old) × HasTold D.Disk shared.now self.new node.old node.new × FoundAllUp self.old cause node.old node.new }
        ensures down { result ≡ true → GoesDownBy D.Disk shared.now self.old self.new node.old node.new cause }
    {
        let by = self.down_among(shared, node, cause);
        if by == 0 {
            return false;
        }
        self.down = by;
        shared.store_down(node, self.number, by);
        true
    }

    // With which number the first is down of those of whom a primary that waits needs something; 0 where all are up.
    fn down_among(&self, shared: &Shared, node: &mut Node, cause: Cause) -> u8
        requires tried { HasTried D.Disk shared.now self.now node.old }
        ensures { LooksAmong self.now cause node.old node.new result }
    {
        for of in 1..9u8 {
            let by = self.look_at(shared, node, cause, of);
            if by != 0 {
                return by;
            }
        }
        0
    }

    // With which number a primary is down, where one that waits needs something of it; 0 where it is up, or isn't asked.
    fn look_at(&self, shared: &Shared, node: &mut Node, cause: Cause, of: u8) -> u8
        requires tried { HasTried D.Disk shared.now self.now node.old }
        requires of_one { (1 ≤ of) × (of ≤ 8) }
        ensures { LooksAt self.now cause of node.old node.new result }
    {
        if of == self.number {
            return 0;
        }
        if !needs_of(self.places.as_slice(), cause, of) {
            return 0;
        }
        shared.load_down(node, self.number, of)
    }
}

// Whether a statement that waits for this needs something of a primary.
fn needs_of(places: &[SessionOn], cause: Cause, of: u8) -> bool
    requires { (1 ≤ of) × (of ≤ 8) }
    ensures yes { result ≡ true → NeedsOf places.now cause of }
    ensures no { result ≡ false → ¬ NeedsOf places.now cause of }
{
    match cause {
        Cause::Word(wait) => has_word(wait, of),
        Cause::Writer(name) => is_declared_on(places, name.session, of),
        Cause::Prep(name) => is_declared_on(places, name.session, of),
    }
}

// Whether a word that excluded a call is a primary's.
fn has_word(wait: NotYet, of: u8) -> bool
    requires { (1 ≤ of) × (of ≤ 8) }
    ensures yes { result ≡ true → HasWord wait.of wait.at wait.seen of }
    ensures no { result ≡ false → ¬ HasWord wait.of wait.at wait.seen of }
{
    match wait.of {
        WordKind::Lock => !matches!(held_by(wait.seen, of), Held::No),
        WordKind::Frame => false,
        WordKind::Least => wait.at == u32::from(of),
    }
}

// Whether a session is declared on a primary.
fn is_declared_on(places: &[SessionOn], session: u8, primary: u8) -> bool
    ensures { result ≡ is_session_on places.now session primary }
{
    places
        .iter()
        .any(|on| on.session == session && on.primary == primary)
}

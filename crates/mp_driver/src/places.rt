//! Which member a session is on.
ghost use Rattle.std.specs.Prelude.{◌≡◌, ◌+◌, ◌<◌, find};
ghost use Rattle.mp_machine.specs.Lists.{IsIn};
ghost use Rattle.mp_script.specs.declared.statements.SessionOn.{SessionOn};
ghost use Rattle.mp_driver.specs.Driving.{IsOnMember, is_on_member};

use mp_script::SessionOn;

/// The place of the primary, of so many, on which a session is declared.
pub(crate) fn place_of(sessions: &[SessionOn], session: u8, count: usize) -> usize
    requires { IsOnMember sessions.now count session }
    ensures within { result < count }
    ensures declared { (on : SessionOn) × IsIn on sessions.now × (on.session ≡ session) × (on.primary ≡ result + 1) }
{
    match declaration_of(sessions, session, count) {
        Some(on) => on.primary as usize - 1,
        None => unreachable!(),
    }
}

// The first declaration of a session on one of so many primaries.
fn declaration_of(sessions: &[SessionOn], session: u8, count: usize) -> Option<SessionOn>
    ensures { result ≡ find (λ on. is_on_member on count session) sessions.now }
{
    sessions
        .iter()
        .copied()
        .find(|on| is_on_member(on, session, count))
}

// Whether it declares a session, on one of so many primaries.
fn is_on_member(on: &SessionOn, session: u8, count: usize) -> bool
    ensures { result ≡ is_on_member on.now count session }
{
    on.session == session && 1 <= on.primary && on.primary as usize <= count
}

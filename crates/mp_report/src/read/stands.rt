//! What may stand where in a transcript.

ghost use Rattle.std.specs.Prelude.{◌≡◌, ◌+◌, ◌<◌, ◌^◌};
ghost use Rattle.mp_report.specs.Readable.{is_commit};
ghost use Rattle.mp_report.specs.Grammar.{among, allowed, commits_at, is_ended};

use crate::read::lines::Line;
use mp_model::{Mode, Reply};

/// Where in a transcript a line stands, by the lines above it.
#[derive(Clone, Copy, Debug, PartialEq, Eq)]
pub enum Stand {
    /// At the top.
    Top,
    /// Where the line of primary 1 must stand.
    Opened,
    /// Among the answers of a primary, which is 0 in mode Step, with so many commits above.
    Among(u8, u64),
    /// Among the primaries that went down, with so many commits above.
    Downs(u64),
    /// Below the last line.
    Ended,
}

/// Where the next line stands, behind one that stands here. None where that line isn't allowed here.
pub fn allowed(stand: Stand, line: &Line) -> Option<Stand>
    requires { commits_at stand + 1 < 2 ^ 64 }
    ensures { result ≡ allowed stand line.now }
{
    match (stand, line) {
        (Stand::Top, Line::Head(Mode::Step, _)) => Some(Stand::Among(0, 0)),
        (Stand::Top, Line::Head(Mode::Run, _)) => Some(Stand::Opened),
        (Stand::Opened, Line::Primary(1)) => Some(Stand::Among(1, 0)),
        (Stand::Among(primary, commits), line) => among(primary, commits, line),
        (Stand::Downs(commits), Line::WentDown(_)) => Some(Stand::Downs(commits)),
        (Stand::Downs(commits), Line::End(count)) if *count == commits => Some(Stand::Ended),
        _ => None,
    }
}

/// Whether the last line stands above.
pub fn is_ended(stand: Stand) -> bool
    ensures { result ≡ is_ended stand }
{
    matches!(stand, Stand::Ended)
}

// Where the next line stands, behind one among the answers of a primary.
fn among(primary: u8, commits: u64, line: &Line) -> Option<Stand>
    requires { commits + 1 < 2 ^ 64 }
    ensures { result ≡ among primary commits line.now }
{
    match line {
        Line::Answered(answer) if is_commit(&answer.reply) => {
            Some(Stand::Among(primary, commits + 1))
        }
        Line::Answered(_) => Some(Stand::Among(primary, commits)),
        Line::Primary(next) if 1 <= primary && u16::from(*next) == u16::from(primary) + 1 => {
            Some(Stand::Among(*next, commits))
        }
        Line::WentDown(_) => Some(Stand::Downs(commits)),
        Line::End(count) if *count == commits => Some(Stand::Ended),
        _ => None,
    }
}

// Whether it is the answer to a commit, maybe one of unknown end.
fn is_commit(reply: &Reply) -> bool
    ensures { result ≡ is_commit reply.now }
{
    matches!(reply, Reply::Committed(_) | Reply::Unknown(_))
}

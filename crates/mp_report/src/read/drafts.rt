//! A transcript that is being read.

ghost use Rattle.std.specs.Prelude.{◌≡◌, ℕ, List, ◌+◌, ◌<◌, ◌^◌, [], ◌∷◌, ◌++◌, Option, Some, None, true, if◌then◌else◌, IfOk, OnOk};
ghost use Rattle.mp_report.specs.Grammar.{next_stand, commits_at};
ghost use Rattle.mp_report.specs.Drafts.{draft_said, nothing, added, ReadsLines};

use crate::read::lines::{Line, line_of};
use crate::read::stands::{Stand, allowed};
use mp_model::{Answers, Downs, Memory, Mode, Part, Parts, Transcript};
use std::alloc::Global;
use std::mem;

/// A transcript that is being read: where the next line stands, and what the lines above it say, of which the part that
/// isn't finished is kept apart.
#[derive(Drop)]
pub struct Draft {
    pub stand: Stand,
    pub transcript: Transcript,
    pub part: Part,
}

impl Draft {
    /// Before the first line.
    pub fn new(alloc: Global) -> Self
        ensures stand { result.stand ≡ Stand.Top }
        ensures said { draft_said result.transcript result.part ≡ nothing }
    {
        Draft {
            stand: Stand::Top,
            transcript: Transcript {
                mode: Mode::Step,
                base: 0,
                parts: Parts::new(alloc),
                downs: Downs::new(alloc),
                commits: 0,
            },
            part: Part {
                primary: 0,
                answers: Answers::new(alloc),
            },
        }
    }

    /// Reads one line more, without its byte 10. It answers whether the line may stand there.
    pub fn take(&mut self, alloc: Global, text: &[u8]) -> Result<bool, Memory>
        requires { commits_at self.old.stand + 1 < 2 ^ 64 }
        ensures stand { IfOk result (λ took. next_stand self.old.stand text.now ≡ (if took then Some self.new.stand else None)) }
        ensures reads { IfOk result (λ took. took ≡ true → (above : List ℕ) → ReadsLines self.old.stand (draft_said self.old.transcript self.old.part) above
            → ReadsLines self.new.stand (draft_said self.new.transcript self.new.part) (above ++ (text.now ++ 10 ∷ []))) }
    {
        let Some(line) = line_of(alloc, text)? else {
            return Ok(false);
        };
        let Some(next) = allowed(self.stand, &line) else {
            return Ok(false);
        };
        self.add(alloc, line)?;
        self.stand = next;
        Ok(true)
    }

    // Adds what a line says.
    fn add(&mut self, alloc: Global, line: Line) -> Result<(), Memory>
        ensures { OnOk result (draft_said self.new.transcript self.new.part ≡ added line self.old.part (draft_said self.old.transcript self.old.part)) }
    {
        match line {
            Line::Head(mode, base) => {
                self.transcript.mode = mode;
                self.transcript.base = base;
                Ok(())
            }
            Line::Primary(primary) => self.start(alloc, primary),
            Line::Answered(answer) => self.part.answers.push(answer),
            Line::WentDown(down) => self.transcript.downs.push(down),
            Line::End(commits) => {
                self.transcript.commits = commits;
                Ok(())
            }
        }
    }

    // Starts the part of a primary. Above the first there is none.
    fn start(&mut self, alloc: Global, primary: u8) -> Result<(), Memory>
        ensures { OnOk result (draft_said self.new.transcript self.new.part ≡ added (Line.Primary primary) self.old.part (draft_said self.old.transcript self.old.part)) }
    {
        let next = Part {
            primary,
            answers: Answers::new(alloc),
        };
        let part = mem::replace(&mut self.part, next);
        if primary > 1 {
            self.transcript.parts.push(part)?;
        }
        Ok(())
    }

    /// The transcript, with the part that wasn't finished.
    pub fn finish(self) -> Result<Transcript, Memory>
        ensures { IfOk result (λ t. (t.mode ≡ self.transcript.mode) × (t.base ≡ self.transcript.base)
            × (t.parts.items ≡ self.transcript.parts.items ++ self.part ∷ []) × (t.downs ≡ self.transcript.downs) × (t.commits ≡ self.transcript.commits)) }
    {
        let Draft {
            stand: _,
            mut transcript,
            part,
        } = self;
        transcript.parts.push(part)?;
        Ok(transcript)
    }
}

//! Reading the text of a transcript.

ghost use Rattle.std.specs.Prelude.{◌≡◌, ◌==◌, ◌&&◌, length, IfOk, IfErr};
ghost use Rattle.mp_model.specs.declared.transcripts.Transcript.{Transcript};
ghost use Rattle.mp_report.specs.Readable.{IsReadable};
ghost use Rattle.mp_report.specs.Transcripts.{transcript_text};
ghost use Rattle.mp_report.specs.Grammar.{is_ended};
ghost use Rattle.mp_report.specs.Refusals.{NamesTranscriptFault, ReadsBack};

use crate::read::drafts::Draft;
use crate::read::stands::{Stand, is_ended};
use crate::read::words::cut_at;
use mp_model::{Memory, Transcript};
use std::alloc::Global;

/// Why bytes weren't read as a transcript.
#[derive(Clone, Copy, Debug, PartialEq, Eq)]
pub enum ReadRefusal {
    /// The offset of the first line that the grammar doesn't allow there, or the length where the last line is missing.
    Place(u64),
    /// There was no memory.
    Memory,
}

impl From<Memory> for ReadRefusal {
    ghost use Rattle.std.specs.Prelude.{◌≡◌};
    ghost use Rattle.mp_report.specs.declared.read.transcripts.ReadRefusal.TheVariants.{Memory};

    ghost from_gives = { λ _ e. e ≡ Memory };

    fn from(_: Memory) -> Self {
        ReadRefusal::Memory
    }
}

/// The transcript whose text the bytes are. `Place` comes only where they are the text of none, with the offset of the
/// first line that isn't allowed there, as is a line without its byte 10, or the length where the last line is missing;
/// `Memory` only for want of memory.
pub fn read_transcript(alloc: Global, bytes: &[u8]) -> Result<Transcript, ReadRefusal>
    ensures found { IfOk result (λ t. IsReadable t × (bytes.now ≡ transcript_text t)) }
    ensures only { (t : Transcript) → IsReadable t → bytes.now ≡ transcript_text t → ReadsBack t result }
    ensures place { IfErr result (NamesTranscriptFault bytes.now) }
{
    let mut draft = Draft::new(alloc);
    let mut rest = bytes;
    while let Some((text, below)) = cut_at(b'\n', rest) {
        if !draft.take(alloc, text)? {
            return Err(ReadRefusal::Place((bytes.len() - rest.len()) as u64));
        }
        rest = below;
    }
    if !is_whole(draft.stand, rest) {
        return Err(ReadRefusal::Place((bytes.len() - rest.len()) as u64));
    }
    Ok(draft.finish()?)
}

// Whether the last line stands above, and nothing is left.
fn is_whole(stand: Stand, rest: &[u8]) -> bool
    ensures { result ≡ (is_ended stand && length rest.now == 0) }
{
    is_ended(stand) && rest.is_empty()
}

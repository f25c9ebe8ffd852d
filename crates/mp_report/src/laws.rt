//! Laws of the printed texts.

ghost use Rattle.std.specs.Prelude.{◌≡◌, ◌+◌, ◌<◌, ◌^◌};
ghost use Rattle.std.specs.List.{AllByRecursion};
ghost use Rattle.mp_model.specs.declared.histories.Opening.{Opening};
ghost use Rattle.mp_model.specs.declared.transcripts.Transcript.{Transcript};
ghost use Rattle.mp_report.specs.Bare.{bare_transcript};
ghost use Rattle.mp_script.specs.declared.statements.Script.{Script};
ghost use Rattle.mp_script.specs.Legal.{Legal};
ghost use Rattle.mp_script.specs.Spelling.{IsSpelled};
ghost use Rattle.mp_script.specs.SpelledLines.{IsRowInRange};
ghost use Rattle.mp_report.specs.Readable.{IsDown, IsReadable};
ghost use Rattle.mp_report.specs.Transcripts.{transcript_text};

/// Two readable transcripts that are not the same have different texts. Free places of lists make no difference.
pub fn law_texts_differ()
    ensures { (one other : Transcript) → IsReadable one → IsReadable other
        → transcript_text one ≡ transcript_text other → bare_transcript one ≡ bare_transcript other }
{}

/// A legal transcript of a script that bytes spell is readable, where the opening's rows and the last timestamp are ones
/// that a text may have, and each `down` line names two primaries: so its text is read back as what it is.
pub fn law_legal_readable()
    ensures { (script : Script) (opening : Opening) (transcript : Transcript) → IsSpelled script
        → AllByRecursion IsRowInRange opening.rows.items → opening.base + transcript.commits < 2 ^ 38
        → AllByRecursion IsDown transcript.downs.items → Legal script opening transcript → IsReadable transcript }
{}

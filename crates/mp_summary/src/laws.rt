//! What the summary of a generated script's transcript is.
ghost use Rattle.std.specs.Prelude.{◌≡◌, ◌+◌, ◌≤◌, ℕ, []};
ghost use Rattle.mp_model.specs.declared.histories.Opening.{Opening};
ghost use Rattle.mp_model.specs.declared.transcripts.Transcript.{Transcript};
ghost use Rattle.mp_script.specs.declared.statements.Script.{Script};
ghost use Rattle.mp_script.specs.Legal.{Legal};
ghost use Rattle.mp_generate.specs.Generated.{IsGenerated};
ghost use Rattle.mp_summary.specs.Summaries.{summary_line, summary_text};

use mp_generate::law_generated;

/// A legal transcript of a generated script in which no primary went down has one summary, in both modes, where the store
/// has room for 3,760 new pages: all 3,008 statements are answered, all 752 transactions commit, and 512 keys are written.
/// Each key is one session's, so no write meets another transaction's, and none is refused.
pub fn law_one_summary()
    ensures { (number : ℕ) (script : Script) (opening : Opening) (transcript : Transcript) → IsGenerated number script
        → Legal script opening transcript → transcript.downs.items ≡ [] → opening.taken + 3760 ≤ 4096
        → summary_text number script transcript ≡ summary_line number 3008 752 512 }
{
    law_generated();
}

//! What the words of contracts say, tried on small parts, as the contract of a function that does nothing.
ghost use Rattle.mp_buffer_fusion.specs.PoolExamples.{given_part, owing_part};
ghost use Rattle.mp_trials.specs.Turns.{IsForcedUpTo};

/// A log without an mtr is forced up to the base, where each content that was given is from before it. It is not where a
/// content's LLSN is above all that the primary knows, nor where the log's last mtr is not durable.
pub fn law_turns_examples()
    ensures given { IsForcedUpTo 5 5 given_part }
    ensures above { ¬ IsForcedUpTo 0 0 given_part }
    ensures not_durable { ¬ IsForcedUpTo 0 5 owing_part }
{}

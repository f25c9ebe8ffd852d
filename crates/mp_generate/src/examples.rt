//! What a generated script is in small cases, as the contract of a function that does nothing.
ghost use Rattle.std.specs.Prelude.{◌≡◌, ℕ, [], Some, codes};
ghost use Rattle.std.specs.List.{slice_get};
ghost use Rattle.mp_script.specs.declared.statements.Line.{Line};
ghost use Rattle.mp_script.specs.declared.statements.Script.{Script};
ghost use Rattle.mp_script.specs.declared.statements.SessionOn.{SessionOn};
ghost use Rattle.mp_script.specs.declared.statements.Stmt.TheVariants.{Begin, Put, Get};
ghost use Rattle.mp_script.specs.Execution.{line_at};
ghost use Rattle.mp_generate.specs.Generated.{generated_lines, generated_sessions, key_of_round, next_session, IsGenerated, IsPutIn, WritesItsOwn};

/// Number 42 is 10 above a multiple of 32, and round 1 goes on by 7: so session 1 puts `v1-1` at key 1017, its second
/// statement, and then reads key 2017. Session 16 reads a key of session 1. Session 5 is on primary 1. A script without a line
/// isn't generated.
pub fn law_generated_examples()
    ensures first_put { line_at (generated_lines 42) 1 2
        ≡ Some (record { session = 1; index = 2; stmt = Put 1017 (codes "v1-1") }) }
    ensures not_as_begun { ¬ (line_at (generated_lines 42) 1 2
        ≡ Some (record { session = 1; index = 2; stmt = Put 1010 (codes "v1-1") })) }
    ensures first_get { line_at (generated_lines 42) 1 3 ≡ Some (record { session = 1; index = 3; stmt = Get 2017 }) }
    ensures ring { next_session 16 ≡ 1 }
    ensures not_seventeen { ¬ (next_session 16 ≡ 17) }
    ensures around { key_of_round 42 5 3 ≡ 3013 }
    ensures on_primary { slice_get generated_sessions 4 ≡ Some (record { session = 5; primary = 1 }) }
    ensures not_on { ¬ (slice_get generated_sessions 4 ≡ Some (record { session = 5; primary = 2 })) }
    ensures not_empty { (script : Script) → script.lines.items ≡ [] → ¬ IsGenerated 42 script }
    ensures own { WritesItsOwn 3 (Put 3031 (codes "v")) }
    ensures not_own { ¬ WritesItsOwn 3 (Put 4000 (codes "v")) }
    ensures not_33rd { ¬ WritesItsOwn 3 (Put 3032 (codes "v")) }
    ensures not_put { (key : ℕ) → ¬ IsPutIn [] 1 key }
{}

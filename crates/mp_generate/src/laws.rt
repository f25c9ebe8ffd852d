//! What is true of every generated script.
ghost use Rattle.std.specs.Prelude.{◌≡◌, ◌+◌, ◌*◌, ◌<◌, ◌≤◌, ℕ, length};
ghost use Rattle.std.specs.List.{AllByRecursion};
ghost use Rattle.mp_script.specs.declared.statements.Script.{Script};
ghost use Rattle.mp_script.specs.Entries.{statements};
ghost use Rattle.mp_script.specs.Spelling.{IsSpelled};
ghost use Rattle.mp_script.specs.SpelledLines.{begin_count};
ghost use Rattle.mp_generate.specs.Generated.{generated_lines, IsGenerated, IsPutIn, WritesItsOwn};

/// A generated script has 3,008 statements, 188 of each session, and begins 752 transactions. A statement writes no key
/// but one of the 32 of its session, so no two sessions write one key; and each session puts each of its keys, so 512 keys are
/// written. Some bytes spell the script.
pub fn law_generated()
    ensures count { (number : ℕ) → length (generated_lines number) ≡ 3008 }
    ensures of_each { (number session : ℕ) → 1 ≤ session → session ≤ 16 → statements (generated_lines number) session ≡ 188 }
    ensures begins { (number : ℕ) → begin_count (generated_lines number) ≡ 752 }
    ensures own_keys { (number : ℕ) → AllByRecursion (λ line. WritesItsOwn line.session line.stmt) (generated_lines number) }
    ensures each_key { (number session least : ℕ) → 1 ≤ session → session ≤ 16 → least < 32
        → IsPutIn (generated_lines number) session (1000 * session + least) }
    ensures spelled { (number : ℕ) (script : Script) → IsGenerated number script → IsSpelled script }
{}

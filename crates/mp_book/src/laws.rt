//! The laws, as the contracts of functions that do nothing.

ghost use Rattle.mp_script.specs.declared.statements.Script.{Script};
ghost use Rattle.mp_script.specs.Spelling.{IsSpelled};
ghost use Rattle.mp_book.specs.Orderly.{IsOrderly};

/// In a script that bytes spell, each session's statements are numbered from 1 in their order, and transactions begin and
/// end in turn.
pub fn law_orderly()
    ensures { (script : Script) → IsSpelled script → IsOrderly script.lines.items }
{}

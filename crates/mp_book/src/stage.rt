//! How far a session has come.

use mp_core_trx::Begun;
use mp_model::TrxName;
use mp_script::Line;

/// Why a write is refused (`docs/language.md`).
#[derive(Clone, Copy, Debug, PartialEq, Eq)]
pub enum Refusal {
    /// A transaction committed the key at this timestamp, above the view.
    Conflict(u64),
    /// This older transaction holds the row.
    Held(TrxName),
    /// The store has no page left for it.
    Full,
}

/// Where a session stands between two turns, with its transaction.
#[derive(Clone, Copy, Debug, PartialEq, Eq)]
pub enum Stage {
    /// No transaction is open: the next statement is a `begin`, or there is none.
    Closed,
    /// The transaction is open, and goes on.
    Open(Begun),
    /// The next statement is refused. Its transaction is put back first, over one or more turns; then it is answered.
    Refused(Begun, Refusal),
    /// The transaction is put back for its `rollback`, or since no statement is left.
    Leaving(Begun),
    /// A statement of the transaction was refused: what is left of it is skipped.
    Skipping,
    /// Calls outside a turn end the transaction, or have ended it.
    Outside(Option<Begun>),
}

/// What a session has to do next.
#[derive(Clone, Copy, Debug, PartialEq, Eq)]
pub enum Task {
    /// This statement is to be answered.
    Statement(Line),
    /// No statement is left, and the transaction is to be rolled back unprinted.
    Unprinted,
    Nothing,
}

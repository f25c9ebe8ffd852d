//! The kinds of changes, as records are told apart.

/// The kind of a change. Each has a number, from 1: the first byte of its records.
#[derive(Clone, Copy, Debug, PartialEq, Eq)]
pub(crate) enum ChangeKind {
    MakeLeaf,
    MakeInner,
    MakeUndo,
    PutRow,
    RestoreRow,
    Cut,
    PutChild,
    PutUndo,
    TakePage,
}

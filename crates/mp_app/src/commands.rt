//! The commands of the program.

/// A command that runs a script's sessions.
#[derive(Clone, Copy, Debug, PartialEq, Eq)]
pub enum SessionCommand {
    /// `step`: reads a script and answers it, on one thread; `step N`: answers the script of the number N, and prints the
    /// summary.
    Step(Option<u64>),
    /// `run` and `run N`: the same, each primary on a thread of its own.
    Run(Option<u64>),
}

/// A command that runs no session.
#[derive(Clone, Copy, Debug, PartialEq, Eq)]
pub enum PlainCommand {
    /// `init`: makes a fresh store and eight logs without batches.
    Init,
    /// `recover`: makes the disks clean after a crash, and prints the rows of the commits that it kept.
    Recover,
    /// `dump`: prints the stored pages.
    Dump,
    /// `logs`: prints the mtrs of the logs.
    Logs,
    /// `gen N`: prints the script of the number N.
    Gen(u64),
}

/// What the words after the program's name ask for.
#[derive(Clone, Copy, Debug, PartialEq, Eq)]
pub enum Command {
    Session(SessionCommand),
    Plain(PlainCommand),
}

/// Why words weren't read.
#[derive(Clone, Copy, Debug, PartialEq, Eq)]
pub enum WordsRefusal {
    /// They are no command.
    Usage,
    /// There was no memory.
    Memory,
}

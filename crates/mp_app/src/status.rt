//! How the program ends.

ghost use Rattle.std.specs.Prelude.{◌≡◌};
ghost use Rattle.mp_app.specs.Codes.{code_of};

/// How a call of the program ends, each way with its exit status.
#[derive(Clone, Copy, Debug, PartialEq, Eq)]
pub enum Status {
    /// 0: the command did what it is for.
    Done,
    /// 1: the words are no command.
    Usage,
    /// 2: the script is refused.
    Script,
    /// 3: the store or a log is refused.
    Store,
    /// 4: a primary went down in the run, which went on without it.
    Stopped,
    /// 5: the source failed.
    Source,
    /// 6: the sink failed; a front of the text was written.
    Sink,
    /// 7: a disk failed.
    Disk,
    /// 8: there was no memory.
    Memory,
}

impl Status {
    /// The exit status, 0 to 8.
    pub fn code(self) -> u8
        ensures { result ≡ code_of self }
    {
        self as u8
    }
}

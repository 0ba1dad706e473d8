// How a program ends.
ghost use Rattle.std.specs.Prelude.{◌≡◌};
ghost use Rattle.replay_core.specs.Statuses.{status_code};

/// How a run of the program ended: its exit status, 0 to 7.
#[derive(Clone, Copy, Debug, PartialEq, Eq)]
pub enum Status {
    /// It ended, and nothing was reported.
    Clean = 0,
    /// It ended, and something was reported.
    Reported,
    /// The words weren't understood.
    Usage,
    /// The trace has a fault.
    Malformed,
    /// The source or the tree failed.
    ReadFault,
    /// The sink failed.
    WriteFault,
    /// A limit was reached.
    Limit,
    /// There was no memory.
    NoMemory,
}

impl Status {
    /// The exit status.
    pub fn code(self) -> u8
        ensures { result ≡ status_code self }
    {
        self as u8
    }
}

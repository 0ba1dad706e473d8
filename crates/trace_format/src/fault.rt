//! The faults of a trace.
ghost use Rattle.std.specs.Prelude.{◌≡◌};
ghost use Rattle.trace_format.specs.FaultNames.{fault_name};

use std::fmt;

/// Why a trace is refused, in the order in which faults of one line are found. The numbers are 1 to 16.
#[derive(Clone, Copy, Debug, PartialEq, Eq)]
pub enum TraceFault {
    /// The first line is missing, or is not the header.
    Header = 1,
    /// A byte is outside 0x20 to 0x7E.
    NotAscii,
    /// The line begins with neither `b ` nor `r `.
    Letter,
    /// The thread is not spelled as a number from 1 to 1,024, or what follows it is not what must.
    Thread,
    /// The word is no name of a command.
    Command,
    /// There are fewer words than the command has parameters.
    Parameter,
    /// A word is no argument of its parameter's form.
    Argument,
    /// The results are not those that the command needs.
    Results,
    /// The code is not of the command's form, or what follows it is no payload.
    Code,
    /// A begin of a thread that has an open call.
    Busy,
    /// A return of a thread that has none.
    Idle,
    /// An argument that no earlier line has as a result.
    Unknown,
    /// An argument whose type is another.
    WrongType,
    /// The results are not the thread's next names.
    Sequence,
    /// A second instance that succeeds, or an event between the begin of an instance and its return.
    Instance,
    /// A call is open at the end.
    OpenAtEnd,
}

impl TraceFault {
    /// The variant's name, as it is printed.
    pub fn name(self) -> &'static str
        ensures { result.now ≡ fault_name self }
    {
        match self {
            TraceFault::Header => "Header",
            TraceFault::NotAscii => "NotAscii",
            TraceFault::Letter => "Letter",
            TraceFault::Thread => "Thread",
            TraceFault::Command => "Command",
            TraceFault::Parameter => "Parameter",
            TraceFault::Argument => "Argument",
            TraceFault::Results => "Results",
            TraceFault::Code => "Code",
            TraceFault::Busy => "Busy",
            TraceFault::Idle => "Idle",
            TraceFault::Unknown => "Unknown",
            TraceFault::WrongType => "WrongType",
            TraceFault::Sequence => "Sequence",
            TraceFault::Instance => "Instance",
            TraceFault::OpenAtEnd => "OpenAtEnd",
        }
    }
}

impl fmt::Display for TraceFault {
    ghost use Rattle.std.specs.Prelude.{Some};

    ghost output = { λ fault. Some (fault_name fault) };

    fn fmt<W: fmt::Write>(&self, f: &mut fmt::Formatter<W>) -> fmt::Result {
        f.write_str(self.name())
    }
}

//! The limits of a trace's grammar (this project's own).
ghost use Rattle.std.specs.Prelude.{◌≡◌};
ghost use Rattle.trace_format.specs.declared.limits.TheConstants.{MAX_NAMES, MAX_PLACES, MAX_THREADS};

/// The greatest number of a thread.
pub const MAX_THREADS: u32 = 1024;

/// The greatest number of a name, and the most names of a trace.
pub const MAX_NAMES: u32 = 4_194_304;

/// The most places of a list, and the most results of a call.
pub const MAX_PLACES: u32 = 1024;

/// The first line of a trace, `vktrace 1`.
pub const HEADER: [u8; 9] = *b"vktrace 1";

/// Threads are numbered up to 1,024, names up to 4,194,304, and a list has 1,024 places at most.
pub fn the_limits_of_a_grammar()
    ensures threads { MAX_THREADS ≡ 1024 }
    ensures names { MAX_NAMES ≡ 4194304 }
    ensures places { MAX_PLACES ≡ 1024 }
{}

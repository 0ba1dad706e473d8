// The limits of a run.
ghost use Rattle.std.specs.Prelude.{◌≡◌};
ghost use Rattle.replay_base.specs.declared.limit.TheConstants.{MOST_LINE_BYTES};

/// The most bytes that a line may have, without its LF.
pub const MOST_LINE_BYTES: usize = 65_536;

/// A limit that a run reached.
#[derive(Clone, Copy, Debug, PartialEq, Eq)]
pub enum Which {
    /// The manifest files of one search: 4,096.
    Manifests,
    /// The lines of a trace: 16,777,216.
    Lines,
    /// The bytes of one line, without its LF: 65,536.
    LineBytes,
    /// The names of a trace: 4,194,304, and 262,144 in a stream file.
    Names,
    /// The layers of one chain: 64.
    Chain,
    /// The event lines of a stream file: 262,144.
    Events,
    /// The devices that the streams of a file name: 16.
    Devices,
}

/// A line has 65,536 bytes at most, without its LF.
pub fn the_limit_of_a_line()
    ensures { MOST_LINE_BYTES ≡ 65536 }
{}

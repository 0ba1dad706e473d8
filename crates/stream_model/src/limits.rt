//! The limits of a stream file (this project's own).
ghost use Rattle.std.specs.Prelude.{◌≡◌};
ghost use Rattle.stream_model.specs.declared.limits.TheConstants.{MOST_DEVICES, MOST_EVENTS, MOST_NAMES, MOST_STREAMS};

/// The first line of a stream file, `vkstreams 1`.
pub const HEADER: [u8; 11] = *b"vkstreams 1";

/// The most streams of a file.
pub const MOST_STREAMS: usize = 64;

/// The most names that the calls of a file are given.
pub const MOST_NAMES: usize = 262_144;

/// The most event lines of a file.
pub const MOST_EVENTS: usize = 262_144;

/// The most devices that the streams of a file name.
pub const MOST_DEVICES: usize = 16;

/// A stream file has 64 streams, 262,144 names and 262,144 event lines at most, and its streams name 16 devices at most.
pub fn the_limits_of_stream_files()
    ensures streams { MOST_STREAMS ≡ 64 }
    ensures names { MOST_NAMES ≡ 262144 }
    ensures events { MOST_EVENTS ≡ 262144 }
    ensures devices { MOST_DEVICES ≡ 16 }
{}

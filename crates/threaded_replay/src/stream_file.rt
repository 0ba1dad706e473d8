//! A stream file.
ghost use Rattle.std.specs.Prelude.{◌≡◌, ◌+◌, length, IfOk};
ghost use Rattle.replay_base.specs.declared.limit.TheConstants.{MOST_LINE_BYTES as MOST};

use crate::error::StreamError;
use crate::read::read_lines;
use replay_base::{LineReader, MOST_LINE_BYTES, Source};
use std::alloc::{AllocError, Global};
use trace_format::Event;

/// The events of a stream file: those of setup, those of each stream with its thread, in the file's order, and those of teardown.
#[derive(Debug)]
pub struct StreamFile {
    pub setup: Vec<Event>,
    pub streams: Vec<(u32, Vec<Event>)>,
    pub teardown: Vec<Event>,
}

impl Drop for StreamFile {
    fn drop(self) {
        let StreamFile {
            setup: _setup,
            streams: _streams,
            teardown: _teardown,
        } = self;
    }
}

// Room for a block of a reader: one byte more than a line may have.
fn line_buffer(alloc: Global) -> Result<Vec<u8>, AllocError>
    ensures { IfOk result (λ buffer. length buffer.items ≡ MOST + 1) }
{
    Ok(vec![in alloc; 0u8; MOST_LINE_BYTES + 1]?)
}

impl StreamFile {
    ghost use Rattle.std.specs.Prelude.{IfErr, IfOk};
    ghost use Rattle.replay_base.specs.Changes.{changed};
    ghost use Rattle.threaded_replay.specs.Files.{file_parts};
    ghost use Rattle.threaded_replay.specs.Reading.{ReadsFile, ReadsNot};

    /// Reads a stream file, a line at a time, up to the first line that is refused. The first line is `vkstreams 1`; then come `setup`, the
    /// events of any threads, for each stream `stream` and its thread with the events of that thread, `teardown`, and events of any threads.
    /// Lines count from 1, and what is missing at the end is refused one line behind the last. `Read` comes only where the source failed.
    /// Where a line is refused, the source may have given up to `MOST_LINE_BYTES` + 1 bytes behind it.
    pub fn read<S: Source>(alloc: Global, source: &mut S) -> Result<StreamFile, StreamError>
        ensures file { let change = changed (S.left source.old) (S.left source.new) (S.faults source.old) (S.faults source.new) in
            IfOk result (λ file. ReadsFile change (file_parts file)) }
        ensures error { let change = changed (S.left source.old) (S.left source.new) (S.faults source.old) (S.faults source.new) in
            IfErr result (ReadsNot change) }
    {
        let buffer = line_buffer(alloc)?;
        let mut reader = LineReader::with_buffer(source, buffer);
        let file = read_lines(alloc, &mut reader);
        let _source = reader.into_source();
        file
    }
}

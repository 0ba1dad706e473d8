//! A source and a sink that move so many bytes a call at most, and fail where they are told to.
ghost use Rattle.std.specs.Prelude.{None};

use replay_base::{Failed, Sink, Source};
use std::alloc::{AllocError, Global};

/// It fails at the call behind so many bytes.
#[derive(Drop)]
pub(crate) struct PieceSource {
    pub bytes: Vec<u8>,
    pub at: usize,
    pub most: usize,
    pub fails_at: usize,
    pub faults: u64,
}

impl Source for PieceSource {
    ghost left = { λ _. None };

    ghost faults = { λ s. s.faults };

    ghost loan = { λ _. None };

    fn read(&mut self, buf: &mut [u8]) -> Result<usize, Failed> {
        if self.at == self.fails_at {
            self.faults = self.faults.saturating_add(1);
            return Err(Failed);
        }
        let end = self.fails_at.min(self.bytes.len());
        let left = self.bytes.get(self.at..end).unwrap_or(&[]);
        let count = left.len().min(buf.len()).min(self.most);
        buf[..count].copy_from_slice(&left[..count]);
        self.at = self.at.saturating_add(count);
        Ok(count)
    }
}

/// The source of a text.
pub(crate) fn source_of(
    alloc: Global,
    text: &str,
    most: usize,
    fails_at: usize,
) -> Result<PieceSource, AllocError> {
    Ok(PieceSource {
        bytes: Vec::from_slice(alloc, text.as_bytes())?,
        at: 0,
        most,
        fails_at,
        faults: 0,
    })
}

/// It fails at the call behind so many bytes, at the call with this number, if there is one, or as it is to hand on what it holds back.
#[derive(Drop)]
pub(crate) struct PieceSink {
    pub bytes: Vec<u8>,
    pub most: usize,
    pub fails_at: usize,
    pub fails_call: usize,
    pub hands_on: bool,
    pub pieces: usize,
    pub flushed: u64,
    pub faults: u64,
}

impl Sink for PieceSink {
    ghost held = { λ _. None };

    ghost faults = { λ s. s.faults };

    fn write(&mut self, piece: &[u8]) -> Result<usize, Failed> {
        self.pieces = self.pieces.saturating_add(1);
        let room = self.fails_at.saturating_sub(self.bytes.len());
        let count = piece.len().min(self.most).min(room);
        let fails = count == 0 || self.pieces == self.fails_call;
        if !fails && self.bytes.extend_from_slice(&piece[..count]).is_ok() {
            return Ok(count);
        }
        self.faults = self.faults.saturating_add(1);
        Err(Failed)
    }

    fn flush(&mut self) -> Result<(), Failed> {
        self.flushed = self.flushed.saturating_add(1);
        if self.hands_on {
            return Ok(());
        }
        self.faults = self.faults.saturating_add(1);
        Err(Failed)
    }
}

/// An empty sink that hands on.
pub(crate) fn piece_sink(alloc: Global, most: usize, fails_at: usize) -> PieceSink {
    PieceSink {
        bytes: Vec::new(alloc),
        most,
        fails_at,
        fails_call: 0,
        hands_on: true,
        pieces: 0,
        flushed: 0,
        faults: 0,
    }
}

// The readers and writers of std as a source and a sink.
ghost use Rattle.std.specs.Prelude.{◌≡◌, IsSome, None, cond};
ghost use Rattle.replay_base.specs.Adapters.{IsKnownWhere};

use crate::{Failed, Sink, Source};
use std::io::{Read, Write};

/// Any reader as a source. Each error of the reader is one fault.
#[derive(Drop)]
pub struct ReadSource<R: Read> {
    inner: R,
    faults: u64,
    // Whether the source tells its reader's bytes.
    tells: bool,
    ghost known: { IsKnownWhere tells (R.remaining inner) },
}

impl<R: Read> ReadSource<R> {
    /// A source that tells no bytes.
    pub fn new(inner: R) -> ReadSource<R>
        ensures left { ⟦<ReadSource<R> as Source>⟧.left result ≡ None }
        ensures faults { ⟦<ReadSource<R> as Source>⟧.faults result ≡ 0 }
    {
        ReadSource {
            inner,
            faults: 0,
            tells: false,
        }
    }

    /// A source that tells the bytes that its reader is known to have left.
    pub fn telling(inner: R) -> ReadSource<R>
        requires { IsSome (R.remaining inner) }
        ensures left { ⟦<ReadSource<R> as Source>⟧.left result ≡ R.remaining inner }
        ensures faults { ⟦<ReadSource<R> as Source>⟧.faults result ≡ 0 }
    {
        ReadSource {
            inner,
            faults: 0,
            tells: true,
        }
    }
}

impl<R: Read> Source for ReadSource<R> {
    ghost left = { λ s. cond s.tells (R.remaining s.inner) None };

    ghost faults = { λ s. s.faults };

    ghost loan = { λ _. None };

    #[tactic(auto, using(crate::proofs::AdapterLemmas::known_consumed, crate::proofs::AdapterLemmas::known_kept, crate::proofs::AdapterLemmas::told_given, crate::proofs::AdapterLemmas::told_spent, crate::proofs::AdapterLemmas::told_kept))]
    fn read(&mut self, buf: &mut [u8]) -> Result<usize, Failed> {
        match self.inner.read(buf) {
            Ok(count) => Ok(count),
            Err(_) => {
                self.faults = self.faults.saturating_add(1);
                Err(Failed)
            }
        }
    }
}

/// Any writer as a sink. Each error of the writer is one fault, and so is a write of no bytes.
#[derive(Drop)]
pub struct WriteSink<W: Write> {
    inner: W,
    faults: u64,
    // Whether the sink tells what its writer holds.
    tells: bool,
    ghost known: { IsKnownWhere tells (W.contents inner) },
}

impl<W: Write> WriteSink<W> {
    /// A sink that tells no bytes.
    pub fn new(inner: W) -> WriteSink<W>
        ensures held { ⟦<WriteSink<W> as Sink>⟧.held result ≡ None }
        ensures faults { ⟦<WriteSink<W> as Sink>⟧.faults result ≡ 0 }
    {
        WriteSink {
            inner,
            faults: 0,
            tells: false,
        }
    }

    /// A sink that tells the bytes that its writer is known to hold.
    pub fn telling(inner: W) -> WriteSink<W>
        requires { IsSome (W.contents inner) }
        ensures held { ⟦<WriteSink<W> as Sink>⟧.held result ≡ W.contents inner }
        ensures faults { ⟦<WriteSink<W> as Sink>⟧.faults result ≡ 0 }
    {
        WriteSink {
            inner,
            faults: 0,
            tells: true,
        }
    }
}

impl<W: Write> Sink for WriteSink<W> {
    ghost held = { λ s. cond s.tells (W.contents s.inner) None };

    ghost faults = { λ s. s.faults };

    #[tactic(auto, using(crate::proofs::AdapterLemmas::known_appended, crate::proofs::AdapterLemmas::known_kept, crate::proofs::AdapterLemmas::told_grown, crate::proofs::AdapterLemmas::told_kept, crate::proofs::AdapterLemmas::told_same))]
    fn write(&mut self, piece: &[u8]) -> Result<usize, Failed> {
        match self.inner.write(piece) {
            Ok(count) if count > 0 => Ok(count),
            _ => {
                self.faults = self.faults.saturating_add(1);
                Err(Failed)
            }
        }
    }

    #[tactic(auto, using(crate::proofs::AdapterLemmas::known_kept, crate::proofs::AdapterLemmas::told_kept))]
    fn flush(&mut self) -> Result<(), Failed> {
        match self.inner.flush() {
            Ok(()) => Ok(()),
            Err(_) => {
                self.faults = self.faults.saturating_add(1);
                Err(Failed)
            }
        }
    }
}

// Sources in memory.
ghost use Rattle.std.specs.Prelude.{◌≡◌, ◌≤◌, ◌<◌, ◌-◌, min, ◌+◌, ◌++◌, length, take, drop, Some, None, IfOk, IsOk, is_err, []};
ghost use Rattle.std.specs.Io.{ReadsAtMost};
ghost use Rattle.replay_base.specs.Bytes.{Gives};
ghost use Rattle.replay_base.specs.Faults.{HasCause, raised};
ghost use Rattle.replay_base.specs.Memory.{SourceState, is_listed};

use crate::{Failed, Source};
use std::marker::Model;

// Copies as many bytes as fit, and says how many.
fn copy_some(bytes: &[u8], buf: &mut [u8]) -> usize
    ensures count { result ≡ min (length bytes.now) (length buf.old) }
    ensures within { result ≤ length buf.new }
    ensures same { take result buf.new ≡ take result bytes.now }
{
    let count = bytes.len().min(buf.len());
    buf[..count].copy_from_slice(&bytes[..count]);
    count
}

/// Copies as many of the bytes from a place on as fit into `buf`, to its front, and says how many.
#[tactic(auto, using(crate::proofs::Written::given_front))]
pub fn give(bytes: &[u8], at: usize, buf: &mut [u8]) -> usize
    requires { at ≤ length bytes.now }
    ensures within { at + result ≤ length bytes.now }
    ensures whole { result ≡ min (length bytes.now - at) (length buf.old) }
    ensures count { result ≤ length buf.new }
    ensures given { drop at bytes.now ≡ take result buf.new ++ drop (at + result) bytes.now }
    ensures end { 0 < length buf.old → result ≡ 0 → drop (at + result) bytes.now ≡ [] }
{
    copy_some(&bytes[at..], buf)
}

/// A source of given bytes, which never fails.
#[derive(Drop)]
pub struct PlainSource {
    bytes: Vec<u8>,
    at: usize,
}

impl Model for PlainSource {
    ghost use Rattle.std.specs.Prelude.{◌≤◌, ℕ, List, drop, length};

    ghost Value = { List ℕ };

    ghost view = { λ s. drop s.at s.bytes.items };

    ghost invariant = { λ s. s.at ≤ length s.bytes.items };
}

impl PlainSource {
    pub fn new(bytes: Vec<u8>) -> PlainSource
        ensures { result ≡ bytes.items }
    {
        PlainSource { bytes, at: 0 }
    }

    /// The bytes that are left.
    pub fn left(&self) -> &[u8]
        ensures { result.now ≡ self.now }
    {
        &self.bytes[self.at..]
    }
}

impl Source for PlainSource {
    ghost left = { λ s. Some s };

    ghost faults = { λ _. 0 };

    ghost loan = { λ _. None };

    fn read(&mut self, buf: &mut [u8]) -> Result<usize, Failed>
        requires { 0 < length buf.old }
        ensures bound { ReadsAtMost result buf.new }
        ensures bytes { Gives (Some self.old) (Some self.new) result buf.new }
        ensures cause { HasCause 0 0 result }
        ensures never { IsOk result }
        ensures whole { IfOk result (λ n. n ≡ min (length self.old) (length buf.old)) }
    {
        let count = give(&self.bytes, self.at, buf);
        self.at += count;
        Ok(count)
    }
}

/// A source of given bytes, whose calls with the listed numbers, from 1, fail.
#[derive(Drop)]
pub struct MemSource {
    inner: PlainSource,
    calls: u64,
    fails: Vec<u64>,
    faults: u64,
}

impl Model for MemSource {
    ghost use Rattle.replay_base.specs.Memory.{SourceState};

    ghost Value = { SourceState };

    ghost view = { λ s. record { left = s.inner; calls = s.calls; fails = s.fails.items; faults = s.faults } };
}

impl MemSource {
    pub fn new(bytes: Vec<u8>, fails: Vec<u64>) -> MemSource
        ensures { result ≡ record { left = bytes.items; calls = 0; fails = fails.items; faults = 0 } }
    {
        MemSource {
            inner: PlainSource::new(bytes),
            calls: 0,
            fails,
            faults: 0,
        }
    }

    /// The bytes that are left.
    pub fn left(&self) -> &[u8]
        ensures { result.now ≡ self.now.left }
    {
        self.inner.left()
    }
}

impl Source for MemSource {
    ghost left = { λ s. Some s.left };

    ghost faults = { λ s. s.faults };

    ghost loan = { λ _. None };

    fn read(&mut self, buf: &mut [u8]) -> Result<usize, Failed>
        requires { 0 < length buf.old }
        ensures bound { ReadsAtMost result buf.new }
        ensures bytes { Gives (Some self.old.left) (Some self.new.left) result buf.new }
        ensures cause { HasCause self.old.faults self.new.faults result }
        ensures fails { is_err result ≡ is_listed self.old.fails self.old.calls }
        ensures whole { IfOk result (λ n. n ≡ min (length self.old.left) (length buf.old)) }
        ensures calls { self.new.calls ≡ raised self.old.calls }
        ensures list { self.new.fails ≡ self.old.fails }
    {
        self.calls = self.calls.saturating_add(1);
        if self.fails.contains(&self.calls) {
            self.faults = self.faults.saturating_add(1);
            return Err(Failed);
        }
        self.inner.read(buf)
    }
}

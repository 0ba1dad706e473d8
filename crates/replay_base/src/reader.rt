// A source by lines.
ghost use Rattle.std.specs.Prelude.{◌≡◌, ◌+◌, ◌≤◌, ◌<◌, length, take, drop, IfOk};
ghost use Rattle.replay_base.specs.Bytes.{Gives};
ghost use Rattle.replay_base.specs.Faults.{HasCause};
ghost use Rattle.replay_base.specs.declared.limit.TheConstants.{MOST_LINE_BYTES as MOST};

use crate::lines::find_feed;
use crate::{Failed, Line, LineError, MOST_LINE_BYTES, NoMemory, Source};
use std::alloc::Global;

/// Gives the lines of a source, one at a time. It reads blocks of at most 65,537 bytes, and only where no whole line is left of what it
/// has read, so that it is never more than 65,537 bytes ahead of the lines that it has given.
#[derive(Drop)]
pub struct LineReader<S> {
    source: S,
    // One byte longer than a line may be.
    buffer: Vec<u8>,
    // Where the line stands that was found last.
    line_from: usize,
    line_to: usize,
    // Where the bytes stand that were read and not given.
    from: usize,
    to: usize,
    // Whether the source has said that it is at its end. It is asked no more then.
    finished: bool,
    // The place of the next line's first byte in all that was read.
    place: u64,
    error: Option<LineError>,
    ghost size: { length buffer.items ≡ MOST + 1 },
    ghost line_ordered: { line_from ≤ line_to },
    ghost line_within: { line_to ≤ length buffer.items },
    ghost ordered: { from ≤ to },
    ghost within: { to ≤ length buffer.items },
}

// The end of a line: how many bytes the line has, and whether an LF ends it.
#[derive(Clone, Copy)]
struct LineEnd {
    length: usize,
    ended: bool,
}

// Reads into a buffer from a place on.
fn read_behind<S: Source>(source: &mut S, buffer: &mut [u8], at: usize) -> Result<usize, Failed>
    requires room { at < length buffer.old }
    ensures size { length buffer.new ≡ length buffer.old }
    ensures front { take at buffer.new ≡ take at buffer.old }
    ensures bound { IfOk result (λ n. at + n ≤ length buffer.new) }
    ensures bytes { Gives (S.left source.old) (S.left source.new) result (drop at buffer.new) }
    ensures same { S.loan source.new ≡ S.loan source.old }
    ensures cause { HasCause (S.faults source.old) (S.faults source.new) result }
{
    source.read(&mut buffer[at..])
}

impl<S> LineReader<S> {
    ghost use Rattle.std.specs.Prelude.{◌≡◌, [], Ok, Err, Some, OnErr, OnOk};
    ghost use Rattle.replay_base.specs.Reader.{kept_of, line_of};

    /// Gives the source back. Bytes that were read and not given are lost.
    pub fn into_source(self) -> S
        ensures { result ≡ self.source }
    {
        self.source
    }

    /// The line that the last call of `advance` found, without its LF. It is empty before the first call and at the end.
    pub fn line(&self) -> &[u8]
        ensures { result.now ≡ line_of self.now }
    {
        &self.buffer[self.line_from..self.line_to]
    }

    // Copies the line that was found last. It is the one place where the reader may want memory.
    fn copy_line(&mut self, found: Line, line: &mut Vec<u8>) -> Result<Line, LineError>
        requires { line.old.items ≡ [] }
        ensures copied { OnOk result ((result ≡ Ok found) × (line.new.items ≡ line_of self.old) × (self.new ≡ self.old)) }
        ensures refused { OnErr result ((result ≡ Err LineError.NoMemory) × (self.new.error ≡ Some LineError.NoMemory)) }
        ensures kept { kept_of self.new ≡ kept_of self.old }
        ensures source { self.new.source ≡ self.old.source }
    {
        match line.extend_from_slice(self.line()) {
            Ok(()) => Ok(found),
            Err(_) => {
                self.error = Some(LineError::NoMemory);
                Err(LineError::NoMemory)
            }
        }
    }

    // Moves the bytes that are kept to the front of the buffer. Each byte is moved once at most, as those of a line that was read in part.
    fn compact(&mut self)
        ensures kept { kept_of self.new ≡ kept_of self.old }
        ensures front { self.new.from ≡ 0 }
        ensures source { self.new.source ≡ self.old.source }
        ensures finished { self.new.finished ≡ self.old.finished }
        ensures place { self.new.place ≡ self.old.place }
        ensures error { self.new.error ≡ self.old.error }
    {
        if self.from == 0 {
            return;
        }
        self.buffer.copy_within(self.from..self.to, 0);
        self.line_from = 0;
        self.line_to = 0;
        self.to -= self.from;
        self.from = 0;
    }
}

impl<S: Source + Drop> LineReader<S> {
    ghost use Rattle.std.specs.Prelude.{◌≡◌, ◌≢◌, ◌+◌, ◌≤◌, ◌<◌, length, take, drop, ℕ, IfOk, IfSome, IsOk, OnOk, OnErr, MatchOption, Err, None, Some, false};
    ghost use Rattle.replay_base.specs.Bytes.{IsSpent};
    ghost use Rattle.replay_base.specs.Faults.{HasCause, raised};
    ghost use Rattle.replay_base.specs.Lines.{HasNoFeed};
    ghost use Rattle.replay_base.specs.Reader.{EndsLine, IsAtEnd, Reads, TakesLine, fresh, kept_of, line_of, rest, state_of};

    /// A reader over a buffer that is there, of 65,537 bytes: it takes no memory.
    pub fn with_buffer(source: S, buffer: Vec<u8>) -> LineReader<S>
        requires { length buffer.items ≡ MOST + 1 }
        ensures fresh { state_of S.left S.faults result ≡ fresh (S.left source) (S.faults source) }
        ensures same { S.loan result.source ≡ S.loan source }
    {
        LineReader {
            source,
            buffer,
            line_from: 0,
            line_to: 0,
            from: 0,
            to: 0,
            place: 0,
            finished: false,
            error: None,
        }
    }

    #[tactic(auto, using(crate::proofs::ReaderLemmas::before_nil))]
    pub fn new(alloc: Global, source: S) -> Result<LineReader<S>, NoMemory>
        ensures fresh { IfOk result (λ reader. (rest (state_of S.left S.faults reader) ≡ S.left source) × (state_of S.left S.faults reader ≡ fresh (S.left source) (S.faults source))) }
        ensures same { IfOk result (λ reader. S.loan reader.source ≡ S.loan source) }
    {
        let buffer = vec![in alloc; 0u8; MOST_LINE_BYTES + 1]?;
        Ok(LineReader::with_buffer(source, buffer))
    }

    // Reads behind what is kept, and says how many bytes: none only at the source's end.
    fn refill(&mut self) -> Result<usize, Failed>
        requires room { length (kept_of self.old) ≤ MOST }
        ensures more { IfOk result (λ n. length (kept_of self.new) ≡ length (kept_of self.old) + n) }
        ensures front { take (length (kept_of self.old)) (kept_of self.new) ≡ kept_of self.old }
        ensures none { OnErr result (kept_of self.new ≡ kept_of self.old) }
        ensures rest { rest (state_of S.left S.faults self.new) ≡ rest (state_of S.left S.faults self.old) }
        ensures end { IfOk result (λ n. n ≡ 0 → IsSpent (S.left self.new.source)) }
        ensures cause { HasCause (S.faults self.old.source) (S.faults self.new.source) result }
        ensures same { S.loan self.new.source ≡ S.loan self.old.source }
        ensures finished { self.new.finished ≡ self.old.finished }
        ensures place { self.new.place ≡ self.old.place }
        ensures error { self.new.error ≡ self.old.error }
    {
        self.compact();
        let count = read_behind(&mut self.source, &mut self.buffer, self.to)?;
        self.to += count;
        Ok(count)
    }

    // Reads until the end of the next line is kept: an LF, or the source's end.
    fn find_end(&mut self) -> Result<LineEnd, LineError>
        ensures found { IfOk result (λ end. EndsLine (state_of S.left S.faults self.new) end.length end.ended) }
        ensures long { (place : ℕ) → result ≡ Err (LineError.TooLong place) → (HasNoFeed (kept_of self.new)) × (length (kept_of self.new) ≡ MOST + 1) × (place ≡ self.old.place) }
        ensures read { result ≡ Err LineError.Read → HasNoFeed (kept_of self.new) × (S.faults self.new.source ≡ raised (S.faults self.old.source)) }
        ensures stood { result ≢ Err LineError.Read → S.faults self.new.source ≡ S.faults self.old.source }
        ensures memory { result ≢ Err LineError.NoMemory }
        ensures rest { rest (state_of S.left S.faults self.new) ≡ rest (state_of S.left S.faults self.old) }
        ensures finished { self.new.finished ≡ self.old.finished }
        ensures place { self.new.place ≡ self.old.place }
        ensures error { self.new.error ≡ self.old.error }
        ensures same { S.loan self.new.source ≡ S.loan self.old.source }
    {
        let mut seen = 0;
        loop {
            if let Some(length) = find_feed(&self.buffer[self.from..self.to], seen) {
                return Ok(LineEnd {
                    length,
                    ended: true,
                });
            }
            seen = self.to - self.from;
            if seen > MOST_LINE_BYTES {
                return Err(LineError::TooLong { at: self.place });
            }
            if self.refill()? == 0 {
                return Ok(LineEnd {
                    length: seen,
                    ended: false,
                });
            }
        }
    }

    // Takes the line that is kept up to its end, or says that nothing is left.
    fn take_line(&mut self, end: LineEnd) -> Line
        requires end { EndsLine (state_of S.left S.faults self.old) end.length end.ended }
        requires unfinished { self.old.finished ≡ false }
        ensures text { result ≡ Line.Text → TakesLine (state_of S.left S.faults self.old) (state_of S.left S.faults self.new) (line_of self.new) }
        ensures end { result ≡ Line.End → IsAtEnd (state_of S.left S.faults self.old) (state_of S.left S.faults self.new) (line_of self.new) }
        ensures error { self.new.error ≡ self.old.error }
        ensures same { self.new.source ≡ self.old.source }
    {
        self.line_from = self.from;
        self.line_to = self.from + end.length;
        let count = end.length + usize::from(end.ended);
        self.from += count;
        self.finished = !end.ended;
        self.place = self.place.saturating_add(count as u64);
        if count == 0 { Line::End } else { Line::Text }
    }

    /// What `advance` answers, where a whole line is kept, at the end or after an error; else none, and nothing is changed. It never asks
    /// the source, so a caller that would do something before the source lets it wait can do it at none.
    pub fn advance_kept(&mut self) -> Option<Result<Line, LineError>>
        ensures kept { MatchOption result ((self.new ≡ self.old) × HasNoFeed (kept_of self.old) × (self.old.error ≡ None) × (self.old.finished ≡ false)) (λ found. Reads (state_of S.left S.faults self.old) (state_of S.left S.faults self.new) found (line_of self.new)) }
        ensures source { self.new.source ≡ self.old.source }
        ensures ahead { length (kept_of self.new) ≤ MOST + 1 }
        ensures fine { self.old.error ≡ None → IfSome result (λ found. IsOk found) }
    {
        if let Some(error) = self.error {
            return Some(Err(error));
        }
        if self.finished {
            self.line_from = self.line_to;
            return Some(Ok(Line::End));
        }
        match find_feed(&self.buffer[self.from..self.to], 0) {
            Some(length) => Some(Ok(self.take_line(LineEnd {
                length,
                ended: true,
            }))),
            None => None,
        }
    }

    /// Finds the next line, which `line` then lends. After an error it answers that error from then on; it takes no memory.
    pub fn advance(&mut self) -> Result<Line, LineError>
        ensures reads { Reads (state_of S.left S.faults self.old) (state_of S.left S.faults self.new) result (line_of self.new) }
        ensures ahead { length (kept_of self.new) ≤ MOST + 1 }
        ensures memory { self.old.error ≢ Some LineError.NoMemory → result ≢ Err LineError.NoMemory }
        ensures same { S.loan self.new.source ≡ S.loan self.old.source }
    {
        if let Some(error) = self.error {
            return Err(error);
        }
        if self.finished {
            self.line_from = self.line_to;
            return Ok(Line::End);
        }
        match self.find_end() {
            Ok(end) => Ok(self.take_line(end)),
            Err(error) => {
                self.error = Some(error);
                Err(error)
            }
        }
    }

    /// Puts the next line into `line`, without its LF. A last line without LF is given too; `line` is empty at the end. After an error
    /// it answers that error from then on, and `line` may hold anything.
    pub fn next(&mut self, line: &mut Vec<u8>) -> Result<Line, LineError>
        ensures reads { Reads (state_of S.left S.faults self.old) (state_of S.left S.faults self.new) result line.new.items }
        ensures ahead { length (kept_of self.new) ≤ MOST + 1 }
        ensures same { S.loan self.new.source ≡ S.loan self.old.source }
    {
        line.clear();
        match self.advance() {
            Ok(found) => self.copy_line(found, line),
            Err(error) => Err(error),
        }
    }
}

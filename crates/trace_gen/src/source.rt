// A generated trace, as a source.
ghost use Rattle.std.specs.Prelude.{◌≤◌, ◌+◌, length, vec_capacity};
ghost use Rattle.trace_gen.specs.declared.text.TheConstants.{LINE_ROOM as ROOM};
ghost use Rattle.trace_gen.specs.declared.turns.TheConstants.{MOST_CALLS as MOST};

use crate::text::{HEADER_LINE, LINE_ROOM, RETURN_LINE, put, put_begin};
use crate::turns::Generator;
use replay_base::{Failed, NoMemory, Source, give};
use std::alloc::Global;

/// The text that `generate` writes, as a source. It makes the lines of a call when they are asked for, in room that is used again, and
/// holds no other text. It never fails.
#[derive(Drop)]
pub struct GenSource {
    generator: Generator,
    // The lines that were made last, and how many of their bytes were given.
    text: Vec<u8>,
    at: usize,
    ghost within: { at ≤ length text.items },
    ghost room: { ROOM + ROOM ≤ vec_capacity text },
}

impl GenSource {
    ghost use Rattle.std.specs.Prelude.{◌≡◌, ◌++◌, ◌<◌, [], drop, IfOk, Some};
    ghost use Rattle.trace_gen.specs.Left.{calls_left};
    ghost use Rattle.trace_gen.specs.Text.{calls_text, generated};
    ghost use Rattle.trace_gen.specs.Given.{text_left};

    /// The trace of a number with so many turns, at most 1,000,000. All memory is taken here.
    pub fn new(alloc: Global, number: u64, calls: u32) -> Result<GenSource, NoMemory>
        requires { calls ≤ MOST }
        ensures { IfOk result (λ source. ⟦<GenSource as Source>⟧.left source ≡ Some (generated number calls)) }
    {
        let generator = Generator::new(alloc, number, calls)?;
        let mut text = Vec::with_capacity(alloc, 2 * LINE_ROOM)?;
        put(&HEADER_LINE, &mut text);
        Ok(GenSource {
            generator,
            text,
            at: 0,
        })
    }

    // Makes the lines of the next call, behind those that were given whole.
    fn make_more(&mut self)
        requires { length self.old.text.items ≤ self.old.at }
        ensures left { text_left self.new ≡ text_left self.old }
        ensures end { length self.new.text.items ≤ self.new.at → text_left self.new ≡ [] }
    {
        self.text.clear();
        self.at = 0;
        if let Some(call) = self.generator.next_call() {
            put_begin(call, &mut self.text);
            put(&RETURN_LINE, &mut self.text);
        }
    }
}

impl Source for GenSource {
    ghost use Rattle.std.specs.Prelude.{None, Some};
    ghost use Rattle.trace_gen.specs.Given.{text_left};

    ghost left = { λ s. Some (text_left s) };

    ghost faults = { λ _. 0 };

    ghost loan = { λ _. None };

    fn read(&mut self, buf: &mut [u8]) -> Result<usize, Failed> {
        if self.at >= self.text.len() {
            self.make_more();
        }
        let count = give(&self.text, self.at, buf);
        self.at += count;
        Ok(count)
    }
}

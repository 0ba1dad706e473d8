// Which call comes next.
ghost use Rattle.std.specs.Prelude.{◌≡◌, ◌≤◌, ◌<◌, ◌+◌, length, vec_capacity};
ghost use Rattle.trace_gen.specs.declared.turns.TheConstants.{MOST_CALLS as MOST};

use crate::call::Call;
use replay_base::NoMemory;
use std::alloc::Global;

/// The most turns of a generated trace.
pub const MOST_CALLS: u32 = 1_000_000;

// The multiplier and the increment of Knuth's MMIX generator.
const MULTIPLIER: u64 = 6_364_136_223_846_793_005;

const INCREMENT: u64 = 1_442_695_040_888_963_407;

// What comes next.
#[derive(Clone, Copy)]
pub enum Stage {
    Instance,
    PhysicalDevice,
    Device,
    Turns,
    /// The buffers that are left are destroyed, of which so many have been.
    Buffers { ended: usize },
    InstanceEnd,
    Done,
}

/// Gives the calls of a trace one by one. All memory is taken at the start. The living buffers stay few: of a million turns some hundreds
/// at once, a thousand or so at most, so that closing the gap of one that is destroyed costs little.
#[derive(Drop)]
pub struct Generator {
    stage: Stage,
    number: u64,
    next: u32,
    buffers: Vec<u32>,
    turns: u32,
    ghost names: { next + turns ≤ MOST + 4 },
    ghost room: { length buffers.items + turns ≤ vec_capacity buffers },
}

impl Generator {
    ghost use Rattle.std.specs.Prelude.{◌≡◌, ◌≤◌, ◌<◌, ◌+◌, ◌∷◌, [], drop, IfOk, MatchOption};
    ghost use Rattle.trace_gen.specs.Turns.{calls_of, drawn, ending, following, turn, creates};
    ghost use Rattle.trace_gen.specs.Left.{between, calls_left};
    ghost use Rattle.trace_gen.specs.declared.turns.Stage.TheVariants as stage;

    pub fn new(alloc: Global, number: u64, calls: u32) -> Result<Generator, NoMemory>
        requires { calls ≤ MOST }
        ensures { IfOk result (λ g. calls_left g ≡ calls_of number calls) }
    {
        let buffers = Vec::with_capacity(alloc, calls as usize)?;
        Ok(Generator {
            stage: Stage::Instance,
            number,
            next: 4,
            buffers,
            turns: calls,
        })
    }

    // Draws the number of a turn.
    fn draw(&mut self) -> u64
        ensures drawn { result ≡ drawn (following self.old.number) }
        ensures between { between self.new ≡ record (between self.old) { number = following self.old.number } }
        ensures stage { self.new.stage ≡ self.old.stage }
        ensures turns { self.new.turns ≡ self.old.turns }
    {
        self.number = self.number.wrapping_mul(MULTIPLIER).wrapping_add(INCREMENT);
        self.number / (1 << 33)
    }

    // A turn that creates a buffer.
    fn create(&mut self) -> Call
        requires { 0 < self.old.turns }
        ensures call { result ≡ (creates (between self.old)).call }
        ensures between { between self.new ≡ (creates (between self.old)).after }
        ensures stage { self.new.stage ≡ self.old.stage }
        ensures turns { self.new.turns + 1 ≡ self.old.turns }
    {
        let buffer = self.next;
        self.turns -= 1;
        self.next += 1;
        self.buffers.push_reserved(buffer);
        Call::CreateBuffer { buffer }
    }

    // The next turn.
    fn turn(&mut self) -> Call
        requires { 0 < self.old.turns }
        ensures call { result ≡ (turn (between self.old)).call }
        ensures between { between self.new ≡ (turn (between self.old)).after }
        ensures stage { self.new.stage ≡ self.old.stage }
        ensures turns { self.new.turns + 1 ≡ self.old.turns }
    {
        let r = self.draw();
        if self.buffers.is_empty() || r % 3 == 0 {
            return self.create();
        }
        self.turns -= 1;
        let k = (r / 3 % self.buffers.len() as u64) as usize;
        if r % 3 == 1 {
            let buffer = self.buffers[k];
            Call::GetBufferMemoryRequirements { buffer }
        } else {
            let buffer = self.buffers.remove(k);
            Call::DestroyBuffer { buffer }
        }
    }

    // The end of the next living buffer, or of the device behind the last.
    fn end_buffer(&mut self, ended: usize) -> Call
        ensures { ending (drop ended self.old.buffers.items) ≡ result ∷ calls_left self.new }
    {
        if ended < self.buffers.len() {
            let buffer = self.buffers[ended];
            self.stage = Stage::Buffers { ended: ended + 1 };
            Call::DestroyBuffer { buffer }
        } else {
            self.stage = Stage::InstanceEnd;
            Call::DestroyDevice
        }
    }

    // The call of the next turn, or what comes behind the last.
    fn turn_or_end(&mut self) -> Call
        requires { self.old.stage ≡ stage.Turns }
        ensures { calls_left self.old ≡ result ∷ calls_left self.new }
    {
        if self.turns > 0 {
            self.turn()
        } else {
            self.end_buffer(0)
        }
    }

    /// The next call, or none at the end.
    pub fn next_call(&mut self) -> Option<Call>
        ensures { MatchOption result ((calls_left self.old ≡ []) × (calls_left self.new ≡ [])) (λ call. calls_left self.old ≡ call ∷ calls_left self.new) }
    {
        let (call, stage) = match self.stage {
            Stage::Instance => (Call::CreateInstance, Stage::PhysicalDevice),
            Stage::PhysicalDevice => (Call::EnumeratePhysicalDevices, Stage::Device),
            Stage::Device => (Call::CreateDevice, Stage::Turns),
            Stage::Turns => return Some(self.turn_or_end()),
            Stage::Buffers { ended } => return Some(self.end_buffer(ended)),
            Stage::InstanceEnd => (Call::DestroyInstance, Stage::Done),
            Stage::Done => return None,
        };
        self.stage = stage;
        Some(call)
    }
}

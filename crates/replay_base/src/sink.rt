// A sink of bytes.
ghost use Rattle.std.specs.Prelude.{◌≡◌, ◌<◌, List, ℕ, length, Option, OnOk, OnErr};
ghost use Rattle.replay_base.specs.Bytes.{TakesSome, Takes, grown, GrownByFront};
ghost use Rattle.replay_base.specs.Faults.{HasCause};

use crate::Failed;

/// A sink of bytes that counts its faults.
pub trait Sink {
    /// The bytes that it holds, where the sink tells them.
    ghost held: { Self → Option (List ℕ) };

    /// How often it has failed.
    ghost faults: { Self → ℕ };

    /// How many of its bytes it hasn't handed on yet to where they go.
    ghost held_back: { Self → ℕ } = { λ _. 0 };

    /// Takes 1 to all bytes of the piece, from its front, and none at a fault.
    fn write(&mut self, piece: &[u8]) -> Result<usize, Failed>
        requires { 0 < length piece.now }
        ensures count { TakesSome result piece.now }
        ensures bytes { Takes (held self.old) (held self.new) result piece.now }
        ensures cause { HasCause (faults self.old) (faults self.new) result };

    /// Hands on what the sink holds back. What it holds is the same before and after, also at a fault.
    fn flush(&mut self) -> Result<(), Failed>
        ensures held { held self.new ≡ held self.old }
        ensures none { OnOk result (held_back self.new ≡ 0) }
        ensures cause { HasCause (faults self.old) (faults self.new) result };
}

/// Writes all of the bytes, and asks the sink for nothing where there are none. After `Failed` the sink took a
/// front of them. It takes no memory.
#[tactic(auto, using(crate::proofs::Written::grown_take_more, crate::proofs::Written::grown_nil))]
pub fn put_all<K: Sink>(sink: &mut K, bytes: &[u8]) -> Result<(), Failed>
    ensures all { OnOk result (K.held sink.new ≡ grown (K.held sink.old) bytes.now) }
    ensures front { OnErr result (GrownByFront (K.held sink.old) (K.held sink.new) bytes.now) }
    ensures cause { HasCause (K.faults sink.old) (K.faults sink.new) result }
{
    let mut at = 0;
    while at < bytes.len() {
        at += sink.write(&bytes[at..])?;
    }
    Ok(())
}

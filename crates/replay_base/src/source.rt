// A source of bytes.
ghost use Rattle.std.specs.Prelude.{◌≡◌, ◌<◌, List, ℕ, length, Option, Some};
ghost use Rattle.std.specs.Borrow.{GName};
ghost use Rattle.std.specs.Io.{ReadsAtMost};
ghost use Rattle.replay_base.specs.Bytes.{Gives};
ghost use Rattle.replay_base.specs.Faults.{HasCause};

use crate::Failed;

/// A source of bytes that counts its faults.
pub trait Source {
    /// The bytes that are left, where the source tells them.
    ghost left: { Self → Option (List ℕ) };

    /// How often it has failed.
    ghost faults: { Self → ℕ };

    /// Which object a reference is to, and none elsewhere: `read` doesn't exchange it for another.
    ghost loan: { Self → Option GName };

    /// Reads 1 to `buf.len()` bytes into the front of `buf`; 0 means the end. Behind them `buf` may be changed.
    fn read(&mut self, buf: &mut [u8]) -> Result<usize, Failed>
        requires { 0 < length buf.old }
        ensures bound { ReadsAtMost result buf.new }
        ensures bytes { Gives (left self.old) (left self.new) result buf.new }
        ensures same { loan self.new ≡ loan self.old }
        ensures cause { HasCause (faults self.old) (faults self.new) result };
}

impl<S: Source> Source for &mut S {
    ghost left = { λ s. S.left s.now };

    ghost faults = { λ s. S.faults s.now };

    ghost loan = { λ s. Some s.ghost_name };

    fn read(&mut self, buf: &mut [u8]) -> Result<usize, Failed> {
        Source::read(&mut **self, buf)
    }
}

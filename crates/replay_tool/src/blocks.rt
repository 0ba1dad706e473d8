// A sink that hands on blocks.
ghost use Rattle.std.specs.Prelude.{◌≡◌, ◌≤◌, length, vec_capacity, [], None};

use replay_base::{Failed, Sink};

/// A sink that gathers what is written, and hands it on to another in blocks: where a piece finds no room behind what is gathered, and
/// when it is flushed. A piece as large as a block goes on by itself. What it holds is what the other holds, and then what is
/// gathered; a fault of the other loses nothing of it.
#[derive(Drop)]
pub struct BlockSink<K> {
    pub inner: K,
    block: Vec<u8>,
    // How many bytes a block may have.
    room: usize,
    // How many bytes of the block were handed on already, before the other failed.
    from: usize,
    ghost within: { room ≤ vec_capacity block },
    ghost few: { length block.items ≤ room },
    ghost ordered: { from ≤ length block.items },
}

impl<K> BlockSink<K> {
    /// A sink with a block of as many bytes as `block` has room for; none where it has none.
    pub fn new(inner: K, block: Vec<u8>) -> BlockSink<K>
        requires { block.items ≡ [] }
        ensures inner { result.inner ≡ inner }
        ensures empty { result.block.items ≡ [] }
        ensures from { result.from ≡ 0 }
    {
        let room = block.capacity();
        BlockSink {
            inner,
            block,
            room,
            from: 0,
        }
    }
}

impl<K: Sink> BlockSink<K> {
    ghost use Rattle.std.specs.Prelude.{◌≡◌, OnOk, drop};
    ghost use Rattle.replay_base.specs.Bytes.{grown};
    ghost use Rattle.replay_base.specs.Faults.{HasCause};

    // Hands on what is gathered.
    #[tactic(auto, using(crate::proofs::Gathering::grown_rest))]
    fn hand_on(&mut self) -> Result<(), Failed>
        ensures held { grown (K.held self.new.inner) (drop self.new.from self.new.block.items) ≡ grown (K.held self.old.inner) (drop self.old.from self.old.block.items) }
        ensures all { OnOk result (K.held self.new.inner ≡ grown (K.held self.old.inner) (drop self.old.from self.old.block.items)) }
        ensures empty { OnOk result ((self.new.block.items ≡ []) × (self.new.from ≡ 0)) }
        ensures room { self.new.room ≡ self.old.room }
        ensures cause { HasCause (K.faults self.old.inner) (K.faults self.new.inner) result }
    {
        while self.from < self.block.len() {
            self.from += self.inner.write(&self.block[self.from..])?;
        }
        self.block.clear();
        self.from = 0;
        Ok(())
    }
}

impl<K: Sink> Sink for BlockSink<K> {
    ghost use Rattle.std.specs.Prelude.{◌+◌, drop, length};
    ghost use Rattle.replay_base.specs.Bytes.{grown};

    ghost held = { λ s. grown (K.held s.inner) (drop s.from s.block.items) };

    ghost faults = { λ s. K.faults s.inner };

    ghost held_back = { λ s. length (drop s.from s.block.items) + K.held_back s.inner };

    fn write(&mut self, piece: &[u8]) -> Result<usize, Failed> {
        if piece.len() >= self.room {
            self.hand_on()?;
            return self.inner.write(piece);
        }
        if piece.len() > self.room - self.block.len() {
            self.hand_on()?;
        }
        self.block.extend_from_slice(piece).unwrap();
        Ok(piece.len())
    }

    fn flush(&mut self) -> Result<(), Failed> {
        self.hand_on()?;
        self.inner.flush()
    }
}

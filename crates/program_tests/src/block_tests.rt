//! Pieces that are gathered into blocks.
use crate::fixtures::sink_of;
use replay_base::{Sink, put_all};
use replay_tool::BlockSink;
use std::alloc::Global;
use std::process::Abort;
use std::test::Fail;

// What is put, or none where what is gathered is handed on; whether that succeeds, and what the sink below holds then.
type Step = (Option<&'static str>, bool, &'static str);

// Pieces go on in blocks of eight bytes.
static BLOCKS: [Step; 8] = [
    (Some("abc"), true, ""),
    (Some("defgh"), true, ""),
    (Some("i"), true, "abcdefgh"),
    (Some("jklmnop"), true, "abcdefgh"),
    (Some("0123456789"), true, "abcdefghijklmnop0123456789"),
    (Some("q"), true, "abcdefghijklmnop0123456789"),
    (None, true, "abcdefghijklmnop0123456789q"),
    (None, true, "abcdefghijklmnop0123456789q"),
];

// The first call of the sink below fails, and the third.
static FAULTS: [Step; 5] = [
    (Some("abcdefg"), true, ""),
    (Some("hi"), false, ""),
    (Some("jk"), true, "abcdefg"),
    (None, false, "abcdefg"),
    (None, true, "abcdefgjk"),
];

// Where there is no room, each piece goes on.
static NO_ROOM: [Step; 1] = [(Some("a"), true, "a")];

// Goes through steps over a sink in memory, of which some calls fail, behind a block of so many bytes.
fn gathers(
    rt: &impl Abort,
    alloc: Global,
    room: usize,
    fails: &[u64],
    steps: &[Step],
) -> Result<(), Fail> {
    let inner = sink_of(alloc, 64, fails)?;
    let block = if room == 0 {
        Vec::new(alloc)
    } else {
        Vec::with_capacity(alloc, room)?
    };
    let mut sink = BlockSink::new(inner, block);
    for (put, succeeds, held) in steps {
        let answer = match put {
            None => sink.flush(),
            Some(piece) => put_all(&mut sink, piece.as_bytes()),
        };
        assert_eq!(rt;
            (answer.is_ok(), sink.inner.bytes()),
            (*succeeds, held.as_bytes())
        );
    }
    Ok(())
}

#[test]
fn nothing_is_lost_at_a_fault(rt: HostRuntime) -> Result<(), Fail> {
    gathers(&rt, rt.alloc(), 8, &[], &BLOCKS)?;
    gathers(&rt, rt.alloc(), 8, &[1, 3], &FAULTS)?;
    gathers(&rt, rt.alloc(), 0, &[], &NO_ROOM)
}

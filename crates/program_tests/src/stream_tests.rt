//! What stands where a source, a sink or a tree fails below the program for threads.
use crate::ends::source_of;
use crate::fixtures::sink_of;
use crate::threads::{
    CHECKED, Ran, TWO_STREAMS, behind_device, is_done, is_refused, recording, run_on,
};
use replay_base::MemSink;
use replay_core::Status;
use std::alloc::{AllocError, Global};
use std::process::Abort;
use std::sync::Wait;
use std::test::Fail;
use std::thread::Threads;
use stream_workers::NoGate;

const READ_FAULT: &str = "vkreplay: read fault\n";

// A run over a source that gives so many bytes a call and fails behind so many, and over a tree that fails at a call.
fn ran_from<H: Threads + Wait + Sync>(
    rt: &H,
    alloc: Global,
    file: &str,
    most: usize,
    fails_at: usize,
    call: u64,
) -> Result<(Ran, usize), Fail> {
    let mut streams = source_of(alloc, file, most, fails_at)?;
    let out = sink_of(alloc, 4096, &[])?;
    let ran = run_on(
        rt,
        alloc,
        &CHECKED,
        call,
        &mut streams,
        out,
        &recording(),
        &NoGate,
    )?;
    Ok((ran, streams.at))
}

// Where each line begins and where it ends.
fn places_in(alloc: Global, text: &str) -> Result<Vec<usize>, AllocError> {
    let mut places = Vec::new(alloc);
    let mut at: usize = 0;
    for line in text.split('\n') {
        places.push(at)?;
        at = at.saturating_add(line.len());
        places.push(at)?;
        at = at.saturating_add(1);
    }
    Ok(places)
}

// The last read is that behind the last byte.
#[test]
fn a_source_that_fails_leaves_nothing(rt: HostRuntime) -> Result<(), Fail> {
    let file = behind_device(rt.alloc(), TWO_STREAMS)?;
    for place in places_in(rt.alloc(), &file)? {
        for most in [1, usize::MAX] {
            let (ran, _) = ran_from(&rt, rt.alloc(), &file, most, place, 0)?;
            is_refused(&rt, &ran, Status::ReadFault, READ_FAULT);
        }
    }
    Ok(())
}

// Where HOME is set, six folders are searched for drivers, six for implicit layers and six for explicit ones; and two files are read.
#[test]
fn a_tree_that_fails_at_any_call_stops_a_run(rt: HostRuntime) -> Result<(), Fail> {
    let file = behind_device(rt.alloc(), TWO_STREAMS)?;
    for call in 1..=20 {
        let (ran, read) = ran_from(&rt, rt.alloc(), &file, usize::MAX, usize::MAX, call)?;
        is_refused(&rt, &ran, Status::ReadFault, READ_FAULT);
        assert_eq!(rt; read, 0, "{call}");
    }
    let (ran, _) = ran_from(&rt, rt.alloc(), &file, 1, usize::MAX, 21)?;
    is_done(&rt, &ran, Status::Clean, 10);
    Ok(())
}

// There is just one merge of one stream. The second destruction is reported by the lifetimes part, and skipped.
const ONE_STREAM: &str =
    "stream 2\nb 2 vkCreateFence %1.3 = %2.1 VK_SUCCESS\nr 2\nb 2 vkDestroyFence %1.3 %2.1 void\nr 2\nb 2 vkDestroyFence %1.3 %2.1 void\nr 2\nteardown\nb 1 vkDestroyDevice %1.3 void\nr 1\n";

fn ran_into<H: Threads + Wait + Sync>(rt: &H, alloc: Global, out: MemSink) -> Result<Ran, Fail> {
    let file = behind_device(alloc, ONE_STREAM)?;
    let mut streams = source_of(alloc, &file, usize::MAX, usize::MAX)?;
    run_on(
        rt,
        alloc,
        &CHECKED,
        0,
        &mut streams,
        out,
        &recording(),
        &NoGate,
    )
}

// A front is written, and nothing comes back.
fn has_a_front(rt: &impl Abort, ran: &Ran, whole: &[u8]) {
    let shown = (
        ran.status,
        ran.comes_back,
        ran.told.as_str(),
        whole.starts_with(ran.out.bytes()),
        ran.errs.bytes(),
    );
    let said = b"vkreplay: write fault\n".as_slice();
    assert_eq!(rt; shown, (Status::WriteFault, false, "", true, said));
}

// A sink without room for the whole output has all that there is room for.
fn fills_the_sink<H: Abort + Threads + Wait + Sync>(
    rt: &H,
    alloc: Global,
    whole: &str,
) -> Result<(), Fail> {
    for room in places_in(alloc, whole)? {
        let ran = ran_into(rt, alloc, sink_of(alloc, room, &[])?)?;
        if room < whole.len() {
            has_a_front(rt, &ran, whole.as_bytes());
        }
        assert_eq!(rt; ran.out.bytes().len(), room);
    }
    Ok(())
}

// Goes through the writes until one isn't made.
fn fails_at_each_write<H: Abort + Threads + Wait + Sync>(
    rt: &H,
    alloc: Global,
    whole: &str,
) -> Result<(), Fail> {
    for write in 1..1000 {
        let ran = ran_into(rt, alloc, sink_of(alloc, 4096, &[write])?)?;
        if ran.status == Status::Reported {
            assert!(rt; ran.out.bytes() == whole.as_bytes() && write > 1);
            return Ok(());
        }
        has_a_front(rt, &ran, whole.as_bytes());
    }
    Err("each write fails".into())
}

#[test]
fn a_sink_that_fails_has_a_front(rt: HostRuntime) -> Result<(), Fail> {
    let whole = ran_into(&rt, rt.alloc(), sink_of(rt.alloc(), 4096, &[])?)?;
    is_done(&rt, &whole, Status::Reported, 8);
    let printed = std::str::from_utf8(whole.out.bytes())
        .ok()
        .ok_or("no text")?;
    fills_the_sink(&rt, rt.alloc(), printed)?;
    fails_at_each_write(&rt, rt.alloc(), printed)
}

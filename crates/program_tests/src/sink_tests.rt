//! Sinks that fail within what a command writes, and at its end.
use crate::alone::{Ran, run_words};
use crate::ends::{PieceSink, piece_sink, source_of};
use replay_core::Status;
use std::alloc::Global;
use std::process::Abort;
use std::test::Fail;

const MADE: &str =
    "vktrace 1\nb 1 vkCreateInstance = %1.1 VK_SUCCESS\nr 1\nb 1 vkEnumeratePhysicalDevices %1.1 = %1.2 VK_SUCCESS\nr 1\nb 1 vkCreateDevice %1.2 = %1.3 VK_SUCCESS\nr 1\nb 1 vkCreateBuffer %1.3 = %1.4 VK_SUCCESS\nr 1\nb 1 vkCreateBuffer %1.3 = %1.5 VK_SUCCESS\nr 1\nb 1 vkGetBufferMemoryRequirements %1.3 %1.4 void\nr 1\nb 1 vkDestroyBuffer %1.3 %1.4 void\nr 1\nb 1 vkDestroyBuffer %1.3 %1.5 void\nr 1\nb 1 vkDestroyDevice %1.3 void\nr 1\nb 1 vkDestroyInstance %1.1 void\nr 1\n";

// Each command that writes without a trace, and what it writes; and one whose trace has a fault.
static WRITTEN: [(&str, &str); 4] = [
    (
        "chain",
        "chain 0 ok layers=0 parts=0 drivers=1\ndriver 1 /etc/vulkan/icd.d/a.json libvulkan_a.so\n",
    ),
    ("gen --number 0 --calls 3", MADE),
    (
        "soak --number 0 --calls 3",
        "end calls=10 skipped=0 reports=0\n",
    ),
    ("run", ""),
];

fn ran_into(alloc: Global, words: &'static str, out: PieceSink) -> Result<Ran, Fail> {
    let trace = source_of(alloc, "vktrace 1\nx", usize::MAX, usize::MAX)?;
    run_words(alloc, words, trace, out)
}

// A write fault, behind these bytes.
fn is_cut(rt: &impl Abort, ran: &Ran, front: &[u8]) {
    let shown = (ran.ended.status, ran.ended.comes_back, ran.errs.bytes());
    let wanted = (
        Status::WriteFault,
        false,
        b"vkreplay: write fault\n".as_slice(),
    );
    assert_eq!(rt; shown, wanted);
    assert!(rt; ran.out.bytes.as_slice() == front);
}

// A sink that fails behind so many bytes has all that it has room for.
fn fails_behind_each(
    rt: &impl Abort,
    alloc: Global,
    words: &'static str,
    text: &str,
) -> Result<(), Fail> {
    for room in 0..text.len() {
        let ran = ran_into(alloc, words, piece_sink(alloc, usize::MAX, room))?;
        is_cut(rt, &ran, &text.as_bytes()[..room]);
    }
    Ok(())
}

// A sink that holds back all, and fails when it is to hand it on.
fn fails_at_its_end(
    rt: &impl Abort,
    alloc: Global,
    words: &'static str,
    text: &str,
) -> Result<(), Fail> {
    let mut out = piece_sink(alloc, 1, usize::MAX);
    out.hands_on = false;
    let ran = ran_into(alloc, words, out)?;
    is_cut(rt, &ran, text.as_bytes());
    assert_eq!(rt; ran.out.flushed, 1, "{words}");
    Ok(())
}

#[test]
fn a_sink_fails_within_what_is_written_and_at_its_end(rt: HostRuntime) -> Result<(), Fail> {
    for (words, text) in WRITTEN {
        fails_behind_each(&rt, rt.alloc(), words, text)?;
        fails_at_its_end(&rt, rt.alloc(), words, text)?;
    }
    Ok(())
}

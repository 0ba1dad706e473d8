//! Runs of the program for threads.
use crate::fixtures::{self, Machine, kit, put_told, sink_of, tree_of, variables, words_of};
use command_tables::NoMemory;
use model_driver::{RecordingSeat, RecordingShared, SharedDriver, SharedModel};
use replay_base::{MemSink, Source};
use replay_core::Status;
use std::alloc::{AllocError, Global};
use std::process::Abort;
use std::sync::Wait;
use std::test::Fail;
use std::thread::Threads;
use stream_workers::Gate;
use threads_tool::threads_main;

/// One driver, with the validation layer turned on.
pub(crate) const CHECKED: Machine = Machine {
    words: "",
    ..fixtures::CHECKED
};

// The events that make an instance, its physical device and a device.
const DEVICE: &str =
    "b 1 vkCreateInstance = %1.1 VK_SUCCESS\nr 1\nb 1 vkEnumeratePhysicalDevices %1.1 = %1.2 VK_SUCCESS\nr 1\nb 1 vkCreateDevice %1.2 = %1.3 VK_SUCCESS\nr 1\n";

/// A file whose setup makes a device: the next line is the ninth.
pub(crate) fn behind_device(alloc: Global, rest: &str) -> Result<String, AllocError> {
    format!(in alloc; "vkstreams 1\nsetup\n{DEVICE}{rest}")
}

/// Two streams that make an object each, and the end of both.
pub(crate) const TWO_STREAMS: &str =
    "stream 1\nb 1 vkCreateBuffer %1.3 = %1.4 VK_SUCCESS\nr 1\nstream 2\nb 2 vkCreateFence %1.3 = %2.1 VK_SUCCESS\nr 2\nteardown\nb 1 vkDestroyBuffer %1.3 %1.4 void\nr 1\nb 1 vkDestroyFence %1.3 %2.1 void\nr 1\n";

/// How a run ended, what the seats that come back were told, and what was written and said.
#[derive(Drop)]
pub(crate) struct Ran {
    pub status: Status,
    pub comes_back: bool,
    pub told: String,
    pub out: MemSink,
    pub errs: MemSink,
}

/// The driver of the program, which tells its calls.
pub(crate) fn recording() -> RecordingShared<SharedModel> {
    RecordingShared::new(SharedModel::new())
}

fn put_seat<S: Drop>(
    alloc: Global,
    text: &mut String,
    seat: &RecordingSeat<S>,
) -> Result<(), NoMemory> {
    let mut log = Vec::new(alloc);
    seat.log(&mut log)?;
    put_told(text, &log)?;
    text.push_str("seat\n")?;
    Ok(())
}

// The calls of each seat, with a line behind them.
fn told_of<S: Drop>(alloc: Global, seats: &[RecordingSeat<S>]) -> Result<String, NoMemory> {
    let mut text = String::new(alloc);
    for seat in seats {
        put_seat(alloc, &mut text, seat)?;
    }
    Ok(text)
}

/// Runs the program on a machine, whose tree fails at the call with this number, if there is one.
pub(crate) fn run_on<H: Threads + Wait + Sync, S: Source, D: SharedDriver, G: Gate>(
    rt: &H,
    alloc: Global,
    machine: &Machine,
    fails_at: u64,
    streams: &mut S,
    mut out: MemSink,
    driver: &RecordingShared<D>,
    gate: &G,
) -> Result<Ran, Fail> {
    let words = words_of(alloc, machine.words)?;
    let env = variables(alloc, machine.env)?;
    let mut tree = tree_of(alloc, machine, fails_at)?;
    let mut errs = sink_of(alloc, 4096, &[])?;
    let ended = threads_main(
        rt,
        alloc,
        &words,
        &env,
        &kit(),
        &mut tree,
        streams,
        &mut out,
        &mut errs,
        driver,
        gate,
    );
    Ok(Ran {
        status: ended.status,
        comes_back: ended.session.is_some(),
        told: told_of(alloc, &ended.seats).ok().ok_or("no memory")?,
        out,
        errs,
    })
}

/// Nothing is written, nothing comes back, and this is said.
pub(crate) fn is_refused(rt: &impl Abort, ran: &Ran, status: Status, said: &str) {
    let shown = (
        ran.status,
        ran.comes_back,
        ran.told.as_str(),
        ran.out.bytes().len(),
        ran.errs.bytes(),
    );
    assert_eq!(rt; shown, (status, false, "", 0, said.as_bytes()));
}

/// A session comes back, so many lines are told of the seats, and nothing is said.
pub(crate) fn is_done(rt: &impl Abort, ran: &Ran, status: Status, lines: usize) {
    let shown = (
        ran.status,
        ran.comes_back,
        fixtures::lines_in(ran.told.as_bytes()),
        ran.errs.bytes().len(),
    );
    assert_eq!(rt; shown, (status, true, lines, 0));
}

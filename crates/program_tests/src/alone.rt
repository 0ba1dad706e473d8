//! Runs of the program for traces.
use crate::ends::{PieceSink, PieceSource};
use crate::fixtures::{Machine, PLAIN, kit, sink_of, tree_of, variables, words_of};
use env_filters::EnvList;
use model_driver::{Driver, ModelDriver, RecordingDriver};
use replay_base::{MemSink, MemTree, Sink, Source};
use replay_core::{Session, Status};
use replay_tool::replay_main;
use std::alloc::Global;
use std::test::Fail;

/// A device that is destroyed twice.
pub(crate) const TWICE: &str =
    "vktrace 1\nb 1 vkCreateInstance = %1.1 VK_SUCCESS\nr 1\nb 1 vkEnumeratePhysicalDevices %1.1 = %1.2 VK_SUCCESS\nr 1\nb 1 vkCreateDevice %1.2 = %1.3 VK_SUCCESS\nr 1\nb 1 vkDestroyDevice %1.3 void\nr 1\nb 1 vkDestroyDevice %1.3 void\nr 1\n";

/// What it prints.
pub(crate) const TWICE_TEXT: &str =
    "chain 1 ok layers=0 parts=0 drivers=1\ndriver 1 /etc/vulkan/icd.d/a.json libvulkan_a.so\nret 1 vkCreateInstance VK_SUCCESS born=1\nret 2 vkEnumeratePhysicalDevices VK_SUCCESS born=1\nret 3 vkCreateDevice VK_SUCCESS born=1\nret 4 vkDestroyDevice void\nreport 5 0 VUID-vkDestroyDevice-device-parameter %1.3\nret 5 vkDestroyDevice void\nend calls=5 skipped=1 reports=1\n";

/// How a run ended, and whether the session came back.
#[derive(Clone, Copy, Debug, PartialEq, Eq)]
pub(crate) struct Outcome {
    pub status: Status,
    pub comes_back: bool,
}

fn outcome_of<S: Source, K: Sink, L: Sink, D: Driver>(
    alloc: Global,
    words: &[String],
    env: &EnvList,
    tree: &mut MemTree,
    trace: &mut S,
    out: &mut K,
    errs: &mut L,
    driver: &mut D,
) -> Outcome {
    let kit = kit();
    let session = Session::new(alloc, &kit);
    let finished = replay_main(
        alloc, words, env, session, &kit, tree, trace, out, errs, driver,
    );
    Outcome {
        status: finished.status,
        comes_back: finished.session.is_some(),
    }
}

/// Runs the program on a machine, whose tree fails at the call with this number, if there is one.
pub(crate) fn run_on<S: Source, K: Sink, L: Sink, D: Driver>(
    alloc: Global,
    machine: &Machine,
    fails_at: u64,
    trace: &mut S,
    out: &mut K,
    errs: &mut L,
    driver: &mut D,
) -> Result<Outcome, Fail> {
    let words = words_of(alloc, machine.words)?;
    let env = variables(alloc, machine.env)?;
    let mut tree = tree_of(alloc, machine, fails_at)?;
    Ok(outcome_of(alloc, &words, &env, &mut tree, trace, out, errs, driver))
}

/// What came of a run: how it ended, what stands in its sink, what it said, how many calls the driver was told, and how many bytes were
/// read.
#[derive(Drop)]
pub(crate) struct Ran {
    pub ended: Outcome,
    pub out: PieceSink,
    pub errs: MemSink,
    pub told: usize,
    pub read: usize,
}

/// Runs the program on a machine between these ends, with room for so many bytes of what is said.
pub(crate) fn ran_between(
    alloc: Global,
    machine: &Machine,
    fails_at: u64,
    mut trace: PieceSource,
    mut out: PieceSink,
    said: usize,
) -> Result<Ran, Fail> {
    let mut errs = sink_of(alloc, said, &[])?;
    let mut driver = RecordingDriver::new(alloc, ModelDriver::new(alloc));
    let ended = run_on(
        alloc,
        machine,
        fails_at,
        &mut trace,
        &mut out,
        &mut errs,
        &mut driver,
    )?;
    Ok(Ran {
        ended,
        out,
        errs,
        told: driver.log().len(),
        read: trace.at,
    })
}

/// Runs a command over one driver.
pub(crate) fn run_words(
    alloc: Global,
    words: &'static str,
    trace: PieceSource,
    out: PieceSink,
) -> Result<Ran, Fail> {
    ran_between(alloc, &Machine { words, ..PLAIN }, 0, trace, out, 4096)
}

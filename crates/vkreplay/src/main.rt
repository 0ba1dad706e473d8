//! `vkreplay chain` shows which layers and drivers the manifests on this machine come to, and `vkreplay run` replays a recorded Vulkan
//! trace from standard input through such a chain to model drivers. `vkreplay gen` writes a generated trace, and `vkreplay soak` replays it.
//! `main` hands the process's words, variables and streams to `replay_tool`, whose call `replay_main` has the promises. Tests of
//! whole runs through that call stand in crates of their own.
#![tactic(auto)]

ghost use Rattle.std.specs.Prelude.{◌≡◌, []};

use dispatch_chain::Kit;
use lifetime_layer::LifeState;
use model_driver::ModelDriver;
use program_words::WordsError;
use replay_base::{FsTree, ReadSource, WriteSink};
use replay_core::Session;
use replay_tool::{BlockSink, Invocation, exit_status, variables_of};
use std::alloc::Global;
use std::env;
use std::io::ErrorKind;
use std::process::ExitCode;
use thread_layer::UseState;
use unique_layer::UniqueState;

// The process's words without the program's name. A word that isn't UTF-8 is one that isn't understood.
fn process_words(rt: &HostRuntime, alloc: Global) -> Result<Vec<String>, WordsError> {
    match env::args(rt) {
        Ok(args) => args
            .skip(1)
            .collect(alloc)
            .map_err(|_| WordsError::NoMemory),
        Err(error) if error.kind() == ErrorKind::OutOfMemory => Err(WordsError::NoMemory),
        Err(_) => Err(WordsError::Usage),
    }
}

// What the process was started with.
fn invocation(rt: &HostRuntime, alloc: Global) -> Result<Invocation, WordsError> {
    let words = process_words(rt, alloc)?;
    match variables_of(rt, alloc) {
        Ok(env) => Ok(Invocation { words, env }),
        Err(_) => Err(WordsError::NoMemory),
    }
}

// How many bytes standard output is given at once.
const BLOCK_BYTES: usize = 1 << 16;

// Room for a block of output. Where there is no memory for one, each line goes out by itself.
fn block(alloc: Global) -> Vec<u8>
    ensures { result.items ≡ [] }
{
    match Vec::with_capacity(alloc, BLOCK_BYTES) {
        Ok(block) => block,
        Err(_) => Vec::new(alloc),
    }
}

fn main(rt: HostRuntime) -> ExitCode {
    let alloc = rt.alloc();
    let given = invocation(&rt, alloc);
    let mut tree = FsTree::new(&rt);
    let mut trace = ReadSource::new(rt.stdin());
    let mut out = BlockSink::new(WriteSink::new(rt.stdout()), block(alloc));
    let mut errs = WriteSink::new(rt.stderr());
    let mut driver = ModelDriver::new(alloc);
    let kit = Kit::new(
        UniqueState::enter,
        UniqueState::leave,
        LifeState::enter,
        LifeState::leave,
        UseState::enter,
        UseState::leave,
    );
    ExitCode::from(exit_status(
        alloc,
        given,
        Session::new(alloc, &kit),
        &kit,
        &mut tree,
        &mut trace,
        &mut out,
        &mut errs,
        &mut driver,
    ))
}

//! `vkreplay_mt` replays a stream file from standard input, each stream in a thread of its own, through the chain of layers that the manifests on this
//! machine come to, to model drivers. It prints what the threads did as one trace, and the text that `vkreplay run` prints for this trace.
//! `main` hands the process's words, variables and streams to `threads_tool`, whose call `threads_main` has the promises.
#![tactic(auto)]

use dispatch_chain::Kit;
use lifetime_layer::LifeState;
use model_driver::SharedModel;
use program_words::WordsError;
use replay_base::{FsTree, ReadSource, WriteSink};
use replay_tool::{Invocation, variables_of};
use std::alloc::Global;
use std::env;
use std::io::ErrorKind;
use std::process::ExitCode;
use stream_workers::NoGate;
use thread_layer::UseState;
use threads_tool::threads_status;
use unique_layer::UniqueState;

// The process's words without the program's name. A word that isn't UTF-8 is one that isn't understood.
fn process_words(rt: &HostRuntime, alloc: Global) -> Result<Vec<String>, WordsError> {
    match env::args(rt) {
        Ok(args) => args
            .skip(1)
            .collect(alloc)
            .map_err(|_| WordsError::NoMemory),
        Err(error) if error.kind() == ErrorKind::OutOfMemory => Err(WordsError::NoMemory),
        Err(_) => Err(WordsError::Usage),
    }
}

// What the process was started with.
fn invocation(rt: &HostRuntime, alloc: Global) -> Result<Invocation, WordsError> {
    let words = process_words(rt, alloc)?;
    match variables_of(rt, alloc) {
        Ok(env) => Ok(Invocation { words, env }),
        Err(_) => Err(WordsError::NoMemory),
    }
}

fn main(rt: HostRuntime) -> ExitCode {
    let alloc = rt.alloc();
    let given = invocation(&rt, alloc);
    let mut tree = FsTree::new(&rt);
    let mut streams = ReadSource::new(rt.stdin());
    let mut out = WriteSink::new(rt.stdout());
    let mut errs = WriteSink::new(rt.stderr());
    let driver = SharedModel::new();
    let kit = Kit::new(
        UniqueState::enter,
        UniqueState::leave,
        LifeState::enter,
        LifeState::leave,
        UseState::enter,
        UseState::leave,
    );
    ExitCode::from(threads_status(
        &rt,
        alloc,
        given,
        &kit,
        &mut tree,
        &mut streams,
        &mut out,
        &mut errs,
        &driver,
        &NoGate,
    ))
}

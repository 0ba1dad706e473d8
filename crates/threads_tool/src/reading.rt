// What is read before anything is replayed, and why a run stops.
ghost use Rattle.std.specs.List.{list_any};
ghost use Rattle.std.specs.Prelude.{◌≡◌, ◌≤◌, length, not, IfErr, IfOk};
ghost use Rattle.chain_build.specs.Setup.{setup_content};
ghost use Rattle.layer_search.specs.Causes.{WhereTold};
ghost use Rattle.layer_search.specs.Paths.{most_paths};
ghost use Rattle.replay_base.specs.Changes.{changed};
ghost use Rattle.replay_model.specs.Stop.{exceeds_layers};
ghost use Rattle.replay_tool.specs.Showing.{IsSetupOf, search_of, tree_seen};
ghost use Rattle.report_text.specs.Setups.{trace_setup};
ghost use Rattle.stream_model.specs.FileParts.{all_events};
ghost use Rattle.stream_replay.specs.Replayed.{IsWholeFile};
ghost use Rattle.threaded_replay.specs.Files.{file_parts};
ghost use Rattle.threaded_replay.specs.Reading.{ReadsFile};
ghost use Rattle.threads_tool.specs.Stops.{LacksSetup, NotRead, ReadsWithin, StopsReading};

use chain_build::{Setup, read_setup};
use command_tables::NoMemory;
use env_filters::EnvList;
use layer_search::SearchError;
use program_words::RunWords;
use replay_base::{Source, Tree};
use std::alloc::{AllocError, Global};
use stream_replay::{a_file_that_was_read_is_whole, is_within, no_call_of_a_stream_makes_a_chain};
use threaded_replay::{StreamError, StreamFile};

/// Why a run stops.
#[derive(Clone, Copy, Debug, PartialEq, Eq)]
pub(crate) enum Stop {
    /// The tree failed.
    Tree,
    /// A search met the 4,097th manifest file.
    TooMany,
    /// The stream file isn't read.
    File(StreamError),
    /// A chain would have more than 64 layers.
    Chain,
    /// The sink failed.
    Write,
    NoMemory,
}

impl From<NoMemory> for Stop {
    ghost use Rattle.std.specs.Prelude.{◌≡◌};
    ghost use Rattle.threads_tool.specs.declared.reading.Stop.TheVariants.{NoMemory as OutOfMemory};

    ghost from_gives = { λ _ e. e ≡ OutOfMemory };

    fn from(_: NoMemory) -> Self {
        Stop::NoMemory
    }
}

impl From<AllocError> for Stop {
    ghost use Rattle.std.specs.Prelude.{◌≡◌};
    ghost use Rattle.threads_tool.specs.declared.reading.Stop.TheVariants.{NoMemory as OutOfMemory};

    ghost from_gives = { λ _ e. e ≡ OutOfMemory };

    fn from(_: AllocError) -> Self {
        Stop::NoMemory
    }
}

/// The setup of the words' manifests.
pub(crate) fn setup_of<T: Tree>(
    alloc: Global,
    words: RunWords<'_>,
    env: &EnvList,
    tree: &mut T,
) -> Result<Setup, Stop>
    ensures setup { let search = search_of words.entry.root.now words.entry.exe.now env.now (tree_seen (T.files tree.old) (T.faults tree.old) (T.faults tree.new)) in
        IfOk result (λ setup. WhereTold (T.files tree.old) (IsSetupOf search (setup_content setup)) × (T.faults tree.new ≡ T.faults tree.old)) }
    ensures few { IfOk result (λ setup. length (setup_content setup).drivers.list ≤ most_paths) }
    ensures lacks { let search = search_of words.entry.root.now words.entry.exe.now env.now (tree_seen (T.files tree.old) (T.faults tree.old) (T.faults tree.new)) in
        IfErr result (LacksSetup search) }
{
    match read_setup(alloc, tree, env, words.root, words.exe) {
        Ok(setup) => Ok(setup),
        Err(SearchError::Tree) => Err(Stop::Tree),
        Err(SearchError::TooMany { .. }) => Err(Stop::TooMany),
        Err(SearchError::NoMemory) => Err(Stop::NoMemory),
    }
}

// The stream file.
fn file_of<S: Source>(alloc: Global, streams: &mut S) -> Result<StreamFile, Stop>
    ensures file { let change = changed (S.left streams.old) (S.left streams.new) (S.faults streams.old) (S.faults streams.new) in
        IfOk result (λ file. ReadsFile change (file_parts file)) }
    ensures lacks { let change = changed (S.left streams.old) (S.left streams.new) (S.faults streams.old) (S.faults streams.new) in
        IfErr result (NotRead change) }
{
    match StreamFile::read(alloc, streams) {
        Ok(file) => Ok(file),
        Err(StreamError::NoMemory) => Err(Stop::NoMemory),
        Err(error) => Err(Stop::File(error)),
    }
}

// Whether no call of a file makes a chain of more than 64 layers.
fn is_file_within(alloc: Global, setup: &Setup, file: &StreamFile) -> Result<bool, NoMemory>
    requires { IsWholeFile (file_parts file.now) }
    ensures { IfOk result (λ b. b ≡ not (list_any (exceeds_layers (trace_setup (setup_content setup.now))) (all_events (file_parts file.now)))) }
{
    no_call_of_a_stream_makes_a_chain();
    let first = is_within(alloc, setup, &file.setup)?;
    let last = is_within(alloc, setup, &file.teardown)?;
    Ok(first && last)
}

/// The stream file, none of whose chains is too long.
pub(crate) fn file_under<S: Source>(
    alloc: Global,
    setup: &Setup,
    streams: &mut S,
) -> Result<StreamFile, Stop>
    ensures file { let change = changed (S.left streams.old) (S.left streams.new) (S.faults streams.old) (S.faults streams.new) in
        IfOk result (λ file. ReadsWithin (trace_setup (setup_content setup.now)) change (file_parts file)) }
    ensures lacks { let change = changed (S.left streams.old) (S.left streams.new) (S.faults streams.old) (S.faults streams.new) in
        IfErr result (StopsReading (trace_setup (setup_content setup.now)) change) }
{
    a_file_that_was_read_is_whole();
    let file = file_of(alloc, streams)?;
    if is_file_within(alloc, setup, &file)? {
        Ok(file)
    } else {
        Err(Stop::Chain)
    }
}

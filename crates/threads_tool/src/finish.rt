// What is said of a run, and its status.
ghost use Rattle.std.specs.Prelude.{◌≡◌};
ghost use Rattle.std.specs.Option.{option_map};
ghost use Rattle.replay_base.specs.Changes.{changed};
ghost use Rattle.replay_tool.specs.Ends.{CountsTo};
ghost use Rattle.replay_tool.specs.Said.{Said};
ghost use Rattle.replay_tool.specs.Statuses.{words_line, words_status};
ghost use Rattle.threads_tool.specs.Stops.{file_limit_line, refused_line, refused_status, stop_line, stop_status};

use crate::reading::Stop;
use program_words::WordsError;
use replay_base::{Sink, Which};
use replay_core::{Session, Status};
use replay_tool::{say, say_fault, say_kind, say_limit, say_limit_of, status_at_end};
use stream_model::MOST_NAMES;
use threaded_replay::StreamError;

// A stream file may have fewer names than a trace.
fn say_file_limit<L: Sink>(errs: &mut L, which: Which)
    ensures { Said (file_limit_line which) (changed (L.held errs.old) (L.held errs.new) (L.faults errs.old) (L.faults errs.new)) }
{
    match which {
        Which::Names => say_limit_of(errs, Which::Names, MOST_NAMES as u64),
        other => say_limit(errs, other),
    }
}

fn refuse_file<L: Sink>(errs: &mut L, error: StreamError) -> Status
    ensures status { result ≡ refused_status error }
    ensures line { Said (refused_line error) (changed (L.held errs.old) (L.held errs.new) (L.faults errs.old) (L.faults errs.new)) }
{
    match error {
        StreamError::Read => {
            say(errs, b"vkreplay: read fault\n");
            Status::ReadFault
        }
        StreamError::Trace { line, fault } => {
            say_fault(errs, line, fault);
            Status::Malformed
        }
        StreamError::Section { line } => {
            say_kind(errs, line, "Section");
            Status::Malformed
        }
        StreamError::NoDevice { line } => {
            say_kind(errs, line, "NoDevice");
            Status::Malformed
        }
        StreamError::CrossDevice { line } => {
            say_kind(errs, line, "CrossDevice");
            Status::Malformed
        }
        StreamError::NotInStream { line } => {
            say_kind(errs, line, "NotInStream");
            Status::Malformed
        }
        StreamError::Limit { which } => {
            say_file_limit(errs, which);
            Status::Limit
        }
        StreamError::NoMemory => {
            say(errs, b"vkreplay: no memory\n");
            Status::NoMemory
        }
    }
}

/// Says why a run stopped.
pub(crate) fn refuse<L: Sink>(errs: &mut L, stop: Stop) -> Status
    ensures status { result ≡ stop_status stop }
    ensures line { Said (stop_line stop) (changed (L.held errs.old) (L.held errs.new) (L.faults errs.old) (L.faults errs.new)) }
{
    match stop {
        Stop::Tree => {
            say(errs, b"vkreplay: read fault\n");
            Status::ReadFault
        }
        Stop::TooMany => {
            say_limit(errs, Which::Manifests);
            Status::Limit
        }
        Stop::File(error) => refuse_file(errs, error),
        Stop::Chain => {
            say_limit(errs, Which::Chain);
            Status::Limit
        }
        Stop::Write => {
            say(errs, b"vkreplay: write fault\n");
            Status::WriteFault
        }
        Stop::NoMemory => {
            say(errs, b"vkreplay: no memory\n");
            Status::NoMemory
        }
    }
}

/// Says why the words can't be read.
pub(crate) fn refuse_words<L: Sink>(errs: &mut L, error: WordsError) -> Status
    ensures status { result ≡ words_status error }
    ensures line { Said (words_line error) (changed (L.held errs.old) (L.held errs.new) (L.faults errs.old) (L.faults errs.new)) }
{
    match error {
        WordsError::Usage => {
            say(errs, b"vkreplay: words not understood\n");
            Status::Usage
        }
        WordsError::NoMemory => refuse(errs, Stop::NoMemory),
    }
}

/// The status of a replay that came to its end.
pub(crate) fn status_with(session: &Session) -> Status
    ensures { CountsTo (option_map (λ x. x.value.kept) session.now.started) result }
{
    status_at_end(session.tally())
}

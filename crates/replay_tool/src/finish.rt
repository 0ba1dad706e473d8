// How a command ends, and what is said of it.
ghost use Rattle.std.specs.Prelude.{◌≡◌, ◌≢◌, Ok, Err};
ghost use Rattle.std.specs.Option.{option_map};
ghost use Rattle.replay_base.specs.Changes.{changed};
ghost use Rattle.replay_core.specs.declared.error.ReplayError.TheVariants as error;
ghost use Rattle.replay_tool.specs.Ends.{Flushes, HasStatus, SaysOf, end_kept, session_at};
ghost use Rattle.replay_tool.specs.Output.{end_status};
ghost use Rattle.replay_tool.specs.Said.{Said};
ghost use Rattle.replay_tool.specs.Statuses.{line_of, status_of, words_line, words_status};

use crate::saying::{say, say_fault, say_limit};
use program_words::WordsError;
use replay_base::Sink;
use replay_core::{ReplayError, Session, Status, Tally};

/// How a run ended, and its session where a replay came to its end.
#[derive(Drop)]
pub struct Finished {
    pub status: Status,
    pub session: Option<Session>,
}

// Says what stopped a replay, or the showing of a chain.
fn refuse<L: Sink>(errs: &mut L, error: ReplayError) -> Status
    ensures status { result ≡ status_of error }
    ensures line { Said (line_of error) (changed (L.held errs.old) (L.held errs.new) (L.faults errs.old) (L.faults errs.new)) }
{
    match error {
        ReplayError::Read => {
            say(errs, b"vkreplay: read fault\n");
            Status::ReadFault
        }
        ReplayError::Write => {
            say(errs, b"vkreplay: write fault\n");
            Status::WriteFault
        }
        ReplayError::Trace { line, fault } => {
            say_fault(errs, line, fault);
            Status::Malformed
        }
        ReplayError::Limit { which } => {
            say_limit(errs, which);
            Status::Limit
        }
        ReplayError::NoMemory => {
            say(errs, b"vkreplay: no memory\n");
            Status::NoMemory
        }
    }
}

/// Says why words can't be read.
pub(crate) fn refuse_words<L: Sink>(errs: &mut L, error: WordsError) -> Status
    ensures status { result ≡ words_status error }
    ensures line { Said (words_line error) (changed (L.held errs.old) (L.held errs.new) (L.faults errs.old) (L.faults errs.new)) }
{
    match error {
        WordsError::Usage => {
            say(errs, b"vkreplay: words not understood\n");
            Status::Usage
        }
        WordsError::NoMemory => {
            say(errs, b"vkreplay: no memory\n");
            Status::NoMemory
        }
    }
}

/// Has the sink hand on what it holds back, unless it has failed already. Where it fails then, that is the end.
pub(crate) fn flushed<K: Sink>(
    ended: Result<Option<Session>, ReplayError>,
    out: &mut K,
) -> Result<Option<Session>, ReplayError>
    ensures flushes { Flushes (end_kept (λ session. option_map (λ x. x.value.kept) session.started) ended) (end_kept (λ session. option_map (λ x. x.value.kept) session.started) result) (changed (K.held out.old) (K.held out.new) (K.faults out.old) (K.faults out.new)) }
    ensures none { result ≢ Err error.Write → K.held_back out.new ≡ 0 }
{
    if let Err(ReplayError::Write) = ended {
        return ended;
    }
    match out.flush() {
        Ok(()) => ended,
        Err(_) => Err(ReplayError::Write),
    }
}

/// The status of an end without an error, by whether something was reported.
pub fn status_at_end(tally: Tally) -> Status
    ensures { result ≡ end_status tally.reports }
{
    if tally.reports == 0 {
        Status::Clean
    } else {
        Status::Reported
    }
}

// The status of an end without an error.
fn status_with(session: &Option<Session>) -> Status
    ensures { HasStatus (end_kept (λ session. option_map (λ x. x.value.kept) session.started) (Ok session.now)) result }
{
    match session {
        Some(session) => status_at_end(session.tally()),
        None => Status::Clean,
    }
}

/// Says of an end what there is to say. A failure of the error sink changes nothing.
pub(crate) fn finish<L: Sink>(ended: Result<Option<Session>, ReplayError>, errs: &mut L) -> Finished
    ensures status { HasStatus (end_kept (λ session. option_map (λ x. x.value.kept) session.started) ended) result.status }
    ensures session { option_map (λ session. option_map (λ x. x.value.kept) session.started) result.session ≡ session_at (end_kept (λ session. option_map (λ x. x.value.kept) session.started) ended) }
    ensures says { SaysOf (end_kept (λ session. option_map (λ x. x.value.kept) session.started) ended) (changed (L.held errs.old) (L.held errs.new) (L.faults errs.old) (L.faults errs.new)) }
{
    match ended {
        Ok(session) => Finished {
            status: status_with(&session),
            session,
        },
        Err(error) => Finished {
            status: refuse(errs, error),
            session: None,
        },
    }
}

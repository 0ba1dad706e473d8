// What is printed of a stream file that was replayed.
ghost use Rattle.std.specs.Prelude.{◌≡◌, ◌≢◌, ◌++◌, codes, map, reverse, IfErr, IfOk, OnOk};
ghost use Rattle.std.specs.List.{AllByRecursion};
ghost use Rattle.std.specs.Option.{option_map};
ghost use Rattle.chain_build.specs.Setup.{setup_content};
ghost use Rattle.merge_model.specs.Merges.{merged_events};
ghost use Rattle.replay_base.specs.Changes.{changed};
ghost use Rattle.report_text.specs.Notes.{setup_notes};
ghost use Rattle.report_text.specs.Setups.{trace_setup};
ghost use Rattle.threaded_replay.specs.Files.{file_parts};
ghost use Rattle.trace_format.specs.Content.{content};
ghost use Rattle.trace_format.specs.Grammar.{IsEvent};
ghost use Rattle.threads_tool.specs.Printed.{event_lines, printed, trace_text};
ghost use Rattle.threads_tool.specs.Stops.{IsReplayOf, IsWithEnd, Writes};
ghost use Rattle.threads_tool.specs.declared.reading.Stop.TheVariants as stop;

use crate::reading::Stop;
use chain_build::Setup;
use chain_session::Session;
use command_tables::NoMemory;
use replay_base::Sink;
use replay_core::text_of_notes;
use replay_tool::put_two;
use report_text::end_line;
use std::alloc::Global;
use threaded_replay::StreamFile;
use trace_format::{Event, print_line};

fn print_events(events: &[Event], text: &mut Vec<u8>) -> Result<(), NoMemory>
    requires { AllByRecursion IsEvent (map content events.now) }
    ensures { OnOk result (text.new.items ≡ text.old.items ++ event_lines (map content events.now)) }
{
    for event in events {
        print_line(event, text)?;
    }
    Ok(())
}

// The trace of setup, a merge and teardown.
fn trace_of(alloc: Global, file: &StreamFile, merge: &[Event]) -> Result<Vec<u8>, NoMemory>
    requires setup { AllByRecursion IsEvent (file_parts file.now).setup }
    requires merge { AllByRecursion IsEvent (map content merge.now) }
    requires teardown { AllByRecursion IsEvent (file_parts file.now).teardown }
    ensures { IfOk result (λ text. text.items ≡ trace_text (merged_events (file_parts file.now) (map content merge.now))) }
{
    let mut text = Vec::new(alloc);
    text.extend_from_slice(b"vktrace 1\n")?;
    print_events(&file.setup, &mut text)?;
    print_events(merge, &mut text)?;
    print_events(&file.teardown, &mut text)?;
    Ok(text)
}

// What stands before the lines of the replay.
fn front_of(
    alloc: Global,
    file: &StreamFile,
    merge: &[Event],
    setup: &Setup,
) -> Result<Vec<u8>, NoMemory>
    requires setup { AllByRecursion IsEvent (file_parts file.now).setup }
    requires merge { AllByRecursion IsEvent (map content merge.now) }
    requires teardown { AllByRecursion IsEvent (file_parts file.now).teardown }
    ensures { IfOk result (λ text. text.items ≡ trace_text (merged_events (file_parts file.now) (map content merge.now)) ++ (codes "text\n" ++ setup_notes (setup_content setup.now))) }
{
    let notes = text_of_notes(alloc, setup)?;
    let mut text = trace_of(alloc, file, merge)?;
    text.extend_from_slice(b"text\n")?;
    text.extend_from_slice(&notes)?;
    Ok(text)
}

// Both texts, of which nothing is held back then.
fn hand_both<K: Sink>(first: &[u8], last: &[u8], out: &mut K) -> Result<(), Stop>
    ensures writes { Writes (first.now ++ last.now) (changed (K.held out.old) (K.held out.new) (K.faults out.old) (K.faults out.new)) result }
    ensures flushed { OnOk result (K.held_back out.new ≡ 0) }
    ensures stop { IfErr result (λ e. e ≡ stop.Write) }
{
    match put_two(out, first, last) {
        Ok(()) => {}
        Err(_) => return Err(Stop::Write),
    }
    match out.flush() {
        Ok(()) => Ok(()),
        Err(_) => Err(Stop::Write),
    }
}

// The lines of the replay, and the end line behind them.
fn with_end(lines: Vec<u8>, session: &Session) -> Result<Vec<u8>, NoMemory>
    ensures { IfOk result (λ all. IsWithEnd lines.items all.items (option_map (λ x. x.value.kept) session.now.started)) }
{
    let mut all = lines;
    end_line(&session.tally(), &mut all)?;
    Ok(all)
}

/// Prints the trace of setup, a merge of the streams and teardown, and behind it the text of its replay. All memory is taken before anything is
/// written.
pub(crate) fn print<K: Sink>(
    alloc: Global,
    file: &StreamFile,
    merge: &[Event],
    lines: Vec<u8>,
    setup: &Setup,
    session: &Session,
    out: &mut K,
) -> Result<(), Stop>
    requires setup { AllByRecursion IsEvent (file_parts file.now).setup }
    requires merge { AllByRecursion IsEvent (map content merge.now) }
    requires teardown { AllByRecursion IsEvent (file_parts file.now).teardown }
    requires replayed { IsReplayOf (trace_setup (setup_content setup.now)) (reverse (merged_events (file_parts file.now) (map content merge.now))) lines.items (option_map (λ x. x.value.kept) session.now.started) }
    ensures writes { Writes (printed (trace_setup (setup_content setup.now)) (merged_events (file_parts file.now) (map content merge.now))) (changed (K.held out.old) (K.held out.new) (K.faults out.old) (K.faults out.new)) result }
    ensures flushed { OnOk result (K.held_back out.new ≡ 0) }
    ensures untouched { IfErr result (λ e. e ≢ stop.Write → out.new ≡ out.old) }
{
    let front = front_of(alloc, file, merge, setup)?;
    let lines = with_end(lines, session)?;
    hand_both(&front, &lines, out)
}

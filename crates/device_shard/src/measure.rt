//! How much the calls of a plan need.
ghost use Rattle.std.specs.Prelude.{◌≡◌, ◌≤◌, ◌+◌, IfOk, length, map, slice_get};
ghost use Rattle.std.specs.List.{AllByRecursion, sum_by};
ghost use Rattle.std.specs.Option.{option_map_or};
ghost use Rattle.command_tables.specs.Table.{seen_param};
ghost use Rattle.trace_format.specs.Content.{BeginEvent, arg_content, content};
ghost use Rattle.session_parts.specs.Scratch.{AreWithin};
ghost use Rattle.walk_bounds.specs.Bounds.{implied_most, weigh};
ghost use Rattle.shard_room.specs.Needs.{IsWithin, IsWithinAt, names_in};
ghost use Rattle.device_shard.specs.Making.{results_planned};
ghost use Rattle.device_shard.specs.Plans.{stream_planned};
ghost use Rattle.device_shard.specs.Rooms.{FewResults, IsGrown, IsStreamWithin, names_of, needs_of};
ghost use Rattle.device_shard.specs.Shards.{results_at};

use crate::counts::{plus, times};
use command_tables::{CommandId, Implied, NoMemory, Param, row};
use trace_format::{Event, TraceArg};

/// How much each call needs at most: arguments of a parameter, arguments in all, results, bytes of its payload, and uses in a part to which so
/// many objects were born.
#[derive(Clone, Copy)]
pub(crate) struct Measure {
    pub(crate) wide: usize,
    pub(crate) args: usize,
    pub(crate) results: usize,
    pub(crate) bytes: usize,
    pub(crate) uses: usize,
    pub(crate) born: usize,
}

// How many results an event may bring.
fn count_results(event: &Event) -> usize
    ensures { result ≡ results_at (content event.now) }
{
    match event {
        Event::Begin { results, .. } => results.len(),
        Event::Return { .. } => 0,
    }
}

// How many the events of a thread may bring.
fn results_in(events: &[Event]) -> Result<usize, NoMemory>
    ensures { IfOk result (λ n. n ≡ sum_by results_at (map content events.now)) }
{
    let mut count = 0usize;
    for event in events {
        let more = count_results(event);
        count = plus(count, more)?;
    }
    Ok(count)
}

/// How many results the calls of streams may bring.
pub(crate) fn results_due(streams: &[(u32, Vec<Event>)]) -> Result<usize, NoMemory>
    ensures { IfOk result (λ n. n ≡ results_planned (map stream_planned streams.now)) }
{
    let mut due = 0usize;
    for stream in streams {
        let more = results_in(&stream.1)?;
        due = plus(due, more)?;
    }
    Ok(due)
}

// How many uses one argument can have, by its parameter's mark.
fn uses_at(implied: Implied, born: usize) -> Result<usize, NoMemory>
    ensures { IfOk result (λ n. n ≡ 1 + implied_most born implied) }
{
    match implied {
        Implied::None => Ok(1),
        Implied::PoolOf => Ok(2),
        Implied::QueuesOf | Implied::SetsOf => {
            let most = plus(1, born)?;
            Ok(most)
        }
    }
}

// The same by the parameter's place: none where there is no parameter.
fn weight_at(params: &[Param], place: usize, born: usize) -> Result<usize, NoMemory>
    ensures { IfOk result (λ n. n ≡ option_map_or (λ p. 1 + implied_most born p.implied) (slice_get (map seen_param params.now) place) 0) }
{
    match params.get(place) {
        None => Ok(0),
        Some(param) => {
            let most = uses_at(param.implied, born)?;
            Ok(most)
        }
    }
}

// How many uses all arguments can have.
fn uses_in(params: &[Param], args: &[TraceArg], born: usize) -> Result<usize, NoMemory>
    ensures { IfOk result (λ n. n ≡ weigh (λ p. 1 + implied_most born p.implied) (map seen_param params.now) (names_of args.now)) }
{
    let mut uses = 0usize;
    for place in 0..args.len() {
        let weight = weight_at(params, place, born)?;
        let more = times(args[place].names.len(), weight)?;
        uses = plus(uses, more)?;
    }
    Ok(uses)
}

// How many arguments there are in all.
fn count_names(args: &[TraceArg]) -> Result<usize, NoMemory>
    ensures { IfOk result (λ n. n ≡ names_in (names_of args.now)) }
{
    let mut count = 0usize;
    for arg in args {
        count = plus(count, arg.names.len())?;
    }
    Ok(count)
}

// How many arguments a parameter has at most.
fn widest(args: &[TraceArg]) -> usize
    ensures { AreWithin result (names_of args.now) }
{
    let mut wide = 0usize;
    for arg in args {
        wide = wide.max(arg.names.len());
    }
    wide
}

// With a begin more.
fn with_begin(
    measure: Measure,
    cmd: CommandId,
    args: &[TraceArg],
    payload: &[u8],
) -> Result<Measure, NoMemory>
    ensures grows { IfOk result (λ m. IsGrown (needs_of measure) (needs_of m)) }
    ensures within { IfOk result (λ m. (b : BeginEvent) → b.cmd ≡ cmd → b.args ≡ map arg_content args.now → b.payload ≡ payload.now → length b.results ≤ measure.results → IsWithin (needs_of m) b) }
{
    // No call that is read from a file has more.
    if args.len() > 6 {
        return Err(NoMemory);
    }
    let wide = widest(args);
    let names = count_names(args)?;
    let uses = uses_in(row(cmd).params, args, measure.born)?;
    Ok(Measure {
        wide: measure.wide.max(wide),
        args: measure.args.max(names),
        results: measure.results,
        bytes: measure.bytes.max(payload.len()),
        uses: measure.uses.max(uses),
        born: measure.born,
    })
}

// With an event more.
fn with_event(measure: Measure, event: &Event) -> Result<Measure, NoMemory>
    requires { results_at (content event.now) ≤ measure.results }
    ensures grows { IfOk result (λ m. IsGrown (needs_of measure) (needs_of m)) }
    ensures within { IfOk result (λ m. IsWithinAt (needs_of m) (content event.now)) }
{
    match event {
        Event::Return { .. } => Ok(measure),
        Event::Begin {
            cmd,
            args,
            payload,
            ..
        } => {
            let most = with_begin(measure, *cmd, args, payload)?;
            Ok(most)
        }
    }
}

// With the events of a thread.
fn with_events(measure: Measure, events: &[Event]) -> Result<Measure, NoMemory>
    requires { AllByRecursion (λ e. results_at e ≤ measure.results) (map content events.now) }
    ensures grows { IfOk result (λ m. IsGrown (needs_of measure) (needs_of m)) }
    ensures within { IfOk result (λ m. AllByRecursion (IsWithinAt (needs_of m)) (map content events.now)) }
{
    let mut most = measure;
    for event in events {
        most = with_event(most, event)?;
    }
    Ok(most)
}

// With the events of all streams.
fn with_streams(measure: Measure, streams: &[(u32, Vec<Event>)]) -> Result<Measure, NoMemory>
    requires { AllByRecursion (FewResults measure.results) (map stream_planned streams.now) }
    ensures grows { IfOk result (λ m. IsGrown (needs_of measure) (needs_of m)) }
    ensures within { IfOk result (λ m. AllByRecursion (IsStreamWithin (needs_of m)) (map stream_planned streams.now)) }
{
    let mut most = measure;
    for stream in streams {
        most = with_events(most, &stream.1)?;
    }
    Ok(most)
}

/// How much each call of streams needs, which may bring so many results in all, in parts to which so many objects are born.
pub(crate) fn measure_all(
    streams: &[(u32, Vec<Event>)],
    due: usize,
    born: usize,
) -> Result<Measure, NoMemory>
    requires { due ≡ results_planned (map stream_planned streams.now) }
    ensures results { IfOk result (λ m. m.results ≡ due) }
    ensures born { IfOk result (λ m. m.born ≡ born) }
    ensures within { IfOk result (λ m. AllByRecursion (IsStreamWithin (needs_of m)) (map stream_planned streams.now)) }
{
    let none = Measure {
        wide: 0,
        args: 0,
        results: due,
        bytes: 0,
        uses: 0,
        born,
    };
    let most = with_streams(none, streams)?;
    Ok(most)
}

// The place of an event in a trace.
ghost use Rattle.std.specs.Prelude.{◌≡◌, ◌≢◌, ◌+◌, ◌<◌, ◌≤◌, ◌==◌, ◌&&◌, ◌||◌, ◌^◌, ◌++◌, ◌∷◌, [], ℕ, List, length, map, IfOk, OnOk, OnErr, Err, is_some, Some, None, true, false, if◌then◌else◌};
ghost use Rattle.std.specs.List.{list_all, list_any};
ghost use Rattle.std.specs.Option.{option_map_or};
ghost use Rattle.std.specs.Result.{result_err};
ghost use Rattle.command_tables.specs.Effects.{type_made};
ghost use Rattle.command_tables.specs.Table.{row_of, seen_param};
ghost use Rattle.command_tables.specs.Tests.{same_code, same_command};
ghost use Rattle.trace_format.specs.declared.fault.TraceFault.{TraceFault};
ghost use Rattle.trace_format.specs.Accepting.{count_on, exceeds_names, fault_after, fault_at_end, names_used};
ghost use Rattle.trace_format.specs.Content.{Begin, Return, TraceEvent, arg_content, content};
ghost use Rattle.trace_format.specs.Gains.{gained};
ghost use Rattle.trace_format.specs.Grammar.{IsEvent};
ghost use Rattle.trace_format.specs.State.{Accepted, AfterBegin, AfterReturn, SameThreads, SumsUp, Stays, argument_fault, args_found, breaks_into, call_in, fault_by_parts, fault_in, is_found, is_found_or_null, open_in, type_in, types_in};

use crate::event::{Event, Name, TraceArg};
use crate::fault::TraceFault;
use crate::limits::MAX_NAMES;
use crate::thread::ThreadState;
use command_tables::{Code, CommandId, Effect, ObjectType, Param, row};
use std::alloc::{AllocError, Global};
use std::marker::Model;
use thiserror::Error;

/// Why an event isn't accepted.
#[derive(Clone, Copy, Debug, PartialEq, Eq, Error)]
pub enum AcceptError {
    /// The event is out of place.
    #[error("{0}")]
    Fault(TraceFault),
    /// The trace would have more than 4,194,304 names.
    #[error("too many names")]
    Names,
    #[error("no memory")]
    NoMemory,
}

impl From<AllocError> for AcceptError {
    ghost use Rattle.std.specs.Prelude.{◌≡◌};
    ghost use Rattle.trace_format.specs.declared.state.AcceptError.TheVariants.{NoMemory as OutOfMemory};

    ghost from_gives = { λ _ e. e ≡ OutOfMemory };

    fn from(_: AllocError) -> Self {
        AcceptError::NoMemory
    }
}

/// What the next event of a trace reads of the earlier ones. A name is found by its thread and number.
pub struct TraceState {
    alloc: Global,
    calls: u64,
    names: usize,
    has_instance: bool,
    creating: Option<u32>,
    threads: Vec<ThreadState>,
}

impl Drop for TraceState {
    fn drop(self) {
        let TraceState {
            alloc: _alloc,
            calls: _calls,
            names: _names,
            has_instance: _has_instance,
            creating: _creating,
            threads: _threads,
        } = self;
    }
}

impl Model for TraceState {
    ghost use Rattle.trace_format.specs.State.{TraceSeen};

    ghost Value = { TraceSeen };

    ghost view = { λ s. record { calls = s.calls; names = s.names; has_instance = s.has_instance; creating = s.creating; threads = s.threads.items } };
}

fn made(effect: Effect) -> Option<ObjectType>
    ensures { result ≡ type_made effect }
{
    match effect {
        Effect::Create { ty, .. } | Effect::Retrieve { ty, .. } => Some(ty),
        Effect::None | Effect::Destroy(_) | Effect::Free(_) | Effect::Reset(_) => None,
    }
}

fn is_open(threads: &[ThreadState], thread: u32) -> bool
    ensures { result ≡ open_in threads.now thread }
{
    match threads.get(thread as usize) {
        None => false,
        Some(state) => state.is_open,
    }
}

fn given(threads: &[ThreadState], thread: u32) -> usize
    ensures count { result ≡ length (types_in threads.now thread) }
    ensures fits { result < 2 ^ 63 }
{
    match threads.get(thread as usize) {
        None => 0,
        Some(state) => state.types.len(),
    }
}

fn type_of(threads: &[ThreadState], name: Name) -> Option<ObjectType>
    ensures { result ≡ type_in threads.now name }
{
    let state = threads.get(name.thread as usize)?;
    state
        .types
        .get(name.number.saturating_sub(1) as usize)
        .copied()
}

// Whether a name is known, and of this type where that counts.
#[tactic(auto, unfolding(command_tables::specs::Tests::same_type))]
fn is_found(threads: &[ThreadState], typed: bool, ty: ObjectType, name: Name) -> bool
    ensures { result ≡ is_found threads.now typed (ty, name) }
{
    match type_of(threads, name) {
        None => false,
        Some(found) => !typed || found == ty,
    }
}

fn is_found_or_null(
    threads: &[ThreadState],
    typed: bool,
    ty: ObjectType,
    place: Option<Name>,
) -> bool
    ensures { result ≡ is_found_or_null threads.now typed ty place }
{
    match place {
        None => true,
        Some(name) => is_found(threads, typed, ty, name),
    }
}

fn are_found(threads: &[ThreadState], typed: bool, ty: ObjectType, places: &[Option<Name>]) -> bool
    ensures { result ≡ list_all (is_found_or_null threads.now typed ty) places.now }
{
    places
        .iter()
        .all(|place| is_found_or_null(threads, typed, ty, *place))
}

fn all_found(threads: &[ThreadState], typed: bool, params: &[Param], args: &[TraceArg]) -> bool
    ensures { result ≡ args_found threads.now typed (map seen_param params.now) (map arg_content args.now) }
{
    match params {
        [] => true,
        [param, params @ ..] => match args {
            [] => true,
            [arg, args @ ..] => {
                are_found(threads, typed, param.ty, &arg.names)
                    && all_found(threads, typed, params, args)
            }
        },
    }
}

// Whether these are the names of a thread from a number on.
fn are_next(thread: u32, first: usize, results: &[Name]) -> bool
    requires { first ≤ 2 ^ 63 }
    ensures { result ≡ count_on thread first results.now }
{
    let mut next = first;
    for name in results {
        if name.thread != thread || name.number as usize != next {
            return false;
        }
        next += 1;
    }
    true
}

#[tactic(auto, unfolding(command_tables::specs::Tests::same_command, command_tables::specs::Tests::same_code))]
fn creates_instance(cmd: CommandId, code: Option<Code>) -> bool
    ensures { result ≡ (same_command cmd CommandId.CreateInstance && option_map_or (λ c. same_code c Code.Success) code false) }
{
    match code {
        None => false,
        Some(code) => cmd == CommandId::CreateInstance && code == Code::Success,
    }
}

#[tactic(auto, unfolding(command_tables::specs::Tests::same_command))]
fn creating(cmd: CommandId, thread: u32) -> Option<u32>
    ensures { result ≡ (if same_command cmd CommandId.CreateInstance then Some thread else None) }
{
    if cmd == CommandId::CreateInstance {
        Some(thread)
    } else {
        None
    }
}

// Makes the threads up to this one.
fn grow(alloc: Global, threads: &mut Vec<ThreadState>, thread: u32) -> Result<(), AllocError>
    ensures there { OnOk result (thread < length threads.new.items) }
    ensures same { SameThreads threads.old.items threads.new.items }
{
    while threads.len() <= thread as usize {
        threads.push(ThreadState::new(alloc))?;
    }
    Ok(())
}

// Opens a call of a thread with so many results.
fn open_call(
    alloc: Global,
    threads: &mut Vec<ThreadState>,
    thread: u32,
    call: u64,
    made: Option<ObjectType>,
    count: usize,
) -> Result<(), AllocError>
    requires { count ≤ 1024 }
    ensures opened { OnOk result ((u : ℕ) → open_in threads.new.items u ≡ ((thread == u) || open_in threads.old.items u)) }
    ensures called { OnOk result ((u : ℕ) → call_in threads.new.items u ≡ (if thread == u then call else call_in threads.old.items u)) }
    ensures types { OnOk result ((u : ℕ) → types_in threads.new.items u ≡ (if thread == u then types_in threads.old.items u ++ gained made count else types_in threads.old.items u)) }
    ensures err { OnErr result (SameThreads threads.old.items threads.new.items) }
{
    grow(alloc, threads, thread)?;
    let state = &mut threads[thread as usize];
    state.begin(call, made, count)
}

impl TraceState {
    pub fn new(alloc: Global) -> TraceState
        ensures { SumsUp result [] }
    {
        TraceState {
            alloc,
            calls: 0,
            names: 0,
            has_instance: false,
            creating: None,
            threads: Vec::new(alloc),
        }
    }

    // The fault of the arguments.
    fn fault_of_arguments(&self, cmd: CommandId, args: &[TraceArg]) -> Option<TraceFault>
        ensures { result ≡ argument_fault self.now.threads (row_of cmd).params (map arg_content args.now) }
    {
        let params = row(cmd).params;
        if all_found(&self.threads, true, params, args) {
            None
        } else if all_found(&self.threads, false, params, args) {
            Some(TraceFault::WrongType)
        } else {
            Some(TraceFault::Unknown)
        }
    }

    // Whether a begin is a second creation that succeeds, or breaks into one.
    fn breaks(&self, cmd: CommandId, code: Option<Code>) -> bool
        ensures { result ≡ (same_command cmd CommandId.CreateInstance && option_map_or (λ c. same_code c Code.Success) code false && self.now.has_instance || is_some self.now.creating) }
    {
        creates_instance(cmd, code) && self.has_instance || self.creating.is_some()
    }

    // The first fault of a begin.
    #[tactic(auto, using(crate::proofs::StateLemmas::breaks_some))]
    fn fault_of_begin(
        &self,
        thread: u32,
        cmd: CommandId,
        args: &[TraceArg],
        results: &[Name],
        code: Option<Code>,
    ) -> Option<TraceFault>
        ensures { result ≡ fault_by_parts self.now (record { thread = thread; cmd = cmd; args = map arg_content args.now; results = results.now; code = code; payload = [] }) }
    {
        if is_open(&self.threads, thread) {
            return Some(TraceFault::Busy);
        }
        if let Some(fault) = self.fault_of_arguments(cmd, args) {
            return Some(fault);
        }
        if !are_next(thread, given(&self.threads, thread) + 1, results) {
            return Some(TraceFault::Sequence);
        }
        if self.breaks(cmd, code) {
            return Some(TraceFault::Instance);
        }
        None
    }

    // The first fault of a return.
    fn fault_of_return(&self, thread: u32) -> Option<TraceFault>
        ensures { result ≡ fault_in self.now (Return thread) }
    {
        if !is_open(&self.threads, thread) {
            return Some(TraceFault::Idle);
        }
        match self.creating {
            Some(creating) if creating != thread => Some(TraceFault::Instance),
            _ => None,
        }
    }

    // The first of the faults `Busy` to `Instance`.
    fn fault(&self, event: &Event) -> Option<TraceFault>
        ensures { result ≡ fault_in self.now (content event.now) }
    {
        match event {
            Event::Return { thread } => self.fault_of_return(*thread),
            Event::Begin {
                thread,
                cmd,
                args,
                results,
                code,
                ..
            } => self.fault_of_begin(*thread, *cmd, args, results, *code),
        }
    }

    // Keeps a begin that has no fault.
    fn begin(
        &mut self,
        thread: u32,
        cmd: CommandId,
        results: &[Name],
        code: Option<Code>,
    ) -> Result<u64, AcceptError>
        requires { length results.now ≤ 1024 }
        ensures ok { OnOk result (AfterBegin self.old self.new (record { thread = thread; cmd = cmd; args = []; results = results.now; code = code; payload = [] })) }
        ensures number { IfOk result (λ n. n ≡ self.new.calls) }
        ensures names { result ≡ Err AcceptError.Names → MAX_NAMES < self.old.names + length results.now }
        ensures fault { (f : TraceFault) → result ≢ Err (AcceptError.Fault f) }
        ensures err { OnErr result (Stays self.old self.new) }
    {
        let names = self.names.saturating_add(results.len());
        if names > MAX_NAMES as usize {
            return Err(AcceptError::Names);
        }
        let call = self.calls.saturating_add(1);
        let made = made(row(cmd).effect);
        open_call(
            self.alloc,
            &mut self.threads,
            thread,
            call,
            made,
            results.len(),
        )?;
        self.calls = call;
        self.names = names;
        self.has_instance = creates_instance(cmd, code) || self.has_instance;
        self.creating = creating(cmd, thread);
        Ok(call)
    }

    // Keeps a return that has no fault.
    fn end(&mut self, thread: u32) -> u64
        ensures ended { AfterReturn self.old self.new thread }
        ensures number { result ≡ call_in self.old.threads thread }
    {
        self.creating = None;
        match self.threads.get_mut(thread as usize) {
            None => 0,
            Some(state) => {
                state.is_open = false;
                state.call
            }
        }
    }

    /// Takes the next event of a trace, and answers its call's number: calls are numbered from 1 by their begins, and a return
    /// has the number of the call that it ends. `Fault` is the first of `Busy` to `Instance`, `Names` comes where an event
    /// without fault would bring the names above 4,194,304. A refused event changes nothing. For a return it takes no memory.
    pub fn accept(&mut self, event: &Event) -> Result<u64, AcceptError>
        requires { IsEvent (content event.now) }
        ensures ok { IfOk result (λ n. (before : List TraceEvent) → SumsUp self.old before → Accepted self.new before (content event.now) n) }
        ensures fault { (f : TraceFault) → result ≡ Err (AcceptError.Fault f) → (before : List TraceEvent) → SumsUp self.old before → fault_after before (content event.now) ≡ Some f }
        ensures names { result ≡ Err AcceptError.Names → (before : List TraceEvent) → SumsUp self.old before → (fault_after before (content event.now) ≡ None) × (exceeds_names before (content event.now) ≡ true) }
        ensures returns { (thread : ℕ) → content event.now ≡ Return thread → result ≢ Err AcceptError.NoMemory }
        ensures err { OnErr result ((before : List TraceEvent) → SumsUp self.old before → SumsUp self.new before) }
    {
        if let Some(fault) = self.fault(event) {
            return Err(AcceptError::Fault(fault));
        }
        match event {
            Event::Return { thread } => Ok(self.end(*thread)),
            Event::Begin {
                thread,
                cmd,
                results,
                code,
                ..
            } => self.begin(*thread, *cmd, results, *code),
        }
    }

    fn has_open(&self) -> bool
        ensures { result ≡ list_any (λ s. s.is_open) self.now.threads }
    {
        self.threads.iter().any(|state| state.is_open)
    }

    /// The fault of a trace that ends here: `OpenAtEnd` where a call is open.
    pub fn finish(&self) -> Result<(), TraceFault>
        ensures { (before : List TraceEvent) → SumsUp self.now before → fault_at_end before ≡ result_err result }
    {
        if self.has_open() {
            Err(TraceFault::OpenAtEnd)
        } else {
            Ok(())
        }
    }
}

//! Copies of events.
ghost use Rattle.std.specs.Prelude.{◌≡◌, IfOk, map};
ghost use Rattle.trace_format.specs.Content.{arg_content, content};

use std::alloc::{AllocError, Global};
use trace_format::{Event, TraceArg};

fn copy_arg(alloc: Global, arg: &TraceArg) -> Result<TraceArg, AllocError>
    ensures { IfOk result (λ copy. arg_content copy ≡ arg_content arg.now) }
{
    Ok(TraceArg {
        many: arg.many,
        names: arg.names.to_vec(alloc)?,
    })
}

fn copy_args(alloc: Global, args: &[TraceArg]) -> Result<Vec<TraceArg>, AllocError>
    ensures { IfOk result (λ copies. map arg_content copies.items ≡ map arg_content args.now) }
{
    let mut copies = Vec::new(alloc);
    for arg in args {
        copies.push(copy_arg(alloc, arg)?)?;
    }
    Ok(copies)
}

/// A copy of an event.
pub fn copy_event(alloc: Global, event: &Event) -> Result<Event, AllocError>
    ensures { IfOk result (λ copy. content copy ≡ content event.now) }
{
    match event {
        Event::Return { thread } => Ok(Event::Return { thread: *thread }),
        Event::Begin {
            thread,
            cmd,
            args,
            results,
            code,
            payload,
        } => Ok(Event::Begin {
            thread: *thread,
            cmd: *cmd,
            args: copy_args(alloc, args)?,
            results: results.to_vec(alloc)?,
            code: *code,
            payload: payload.to_vec(alloc)?,
        }),
    }
}

//! What workers leave that have made all their calls.
ghost use Rattle.std.specs.Prelude.{◌≡◌, ◌++◌, IfOk, OnOk, map};
ghost use Rattle.device_shard.specs.Plans.{plan_content};
ghost use Rattle.stream_run.specs.Spending.{AreSpent, held_at, tokens_held};

use command_tables::NoMemory;
use device_shard::Plan;
use std::alloc::{AllocError, Global};
use stream_log::Seen;
use stream_workers::Worker;
use trace_format::Name;

/// All tokens of workers, each with its device, and of each worker, in order, its seat and its marks.
#[derive(Drop)]
pub(crate) struct Spent<S: Drop> {
    pub(crate) tokens: Vec<(Name, Seen)>,
    pub(crate) seats: Vec<S>,
    pub(crate) sent: Vec<Vec<bool>>,
}

// The token in a slot is added, with its device.
fn take_token(
    device: Name,
    slot: Option<Seen>,
    tokens: &mut Vec<(Name, Seen)>,
) -> Result<(), AllocError>
    ensures { OnOk result (tokens.new.items ≡ tokens.old.items ++ held_at device slot) }
{
    match slot {
        None => Ok(()),
        Some(seen) => {
            tokens.push((device, seen))?;
            Ok(())
        }
    }
}

// The tokens of a worker are added.
fn take_tokens(
    plans: &[Plan],
    slots: Vec<Option<Seen>>,
    tokens: &mut Vec<(Name, Seen)>,
) -> Result<(), AllocError>
    ensures { OnOk result (tokens.new.items ≡ tokens.old.items ++ tokens_held (map (λ p. p.device) (map plan_content plans.now)) slots.items) }
{
    for (plan, slot) in plans.iter().zip(slots) {
        take_token(plan.device, slot, tokens)?;
    }
    Ok(())
}

/// What workers of these plans leave.
pub(crate) fn take_apart<S: Drop>(
    alloc: Global,
    plans: &[Plan],
    workers: Vec<Worker<S>>,
) -> Result<Spent<S>, NoMemory>
    ensures { IfOk result (λ spent. AreSpent (map (λ p. p.device) (map plan_content plans.now)) workers.items spent) }
{
    let mut tokens = Vec::new(alloc);
    let mut seats = Vec::with_capacity(alloc, workers.len())?;
    let mut sent = Vec::with_capacity(alloc, workers.len())?;
    for worker in workers {
        take_tokens(plans, worker.tokens, &mut tokens)?;
        seats.push(worker.seat)?;
        sent.push(worker.sent)?;
    }
    Ok(Spent {
        tokens,
        seats,
        sent,
    })
}

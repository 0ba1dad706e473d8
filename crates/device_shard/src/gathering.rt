//! What a set is made of.
ghost use Rattle.std.specs.Prelude.{◌≡◌, [], ◌∷◌, ◌++◌, List, Some, IfOk, OnOk, length, map, nat_eq};
ghost use Rattle.std.specs.List.{AllByRecursion, IsDistinct};
ghost use Rattle.std.specs.Option.{option_map};
ghost use Rattle.stream_log.specs.Log.{seen_view};
ghost use Rattle.stream_model.specs.FileParts.{StreamPart};
ghost use Rattle.shard_start.specs.Starting.{CanStart};
ghost use Rattle.device_shard.specs.Gathering.{IsGathered};
ghost use Rattle.device_shard.specs.Making.{AreLogs, AreNamedBy, IsLogFor, IsStartOf};
ghost use Rattle.device_shard.specs.Plans.{plan_content, stream_planned};
ghost use Rattle.device_shard.specs.Rooms.{IsIdle};
ghost use Rattle.device_shard.specs.Shards.{ShardName, threads_of};

use crate::fresh::{Fresh, fresh_of};
use crate::names::ShardNames;
use crate::plan::Plan;
use chain_session::Session;
use command_tables::NoMemory;
use std::alloc::Global;
use stream_log::{DeviceLog, Owner, Seen, StepClock, Tick};
use trace_format::{Event, Name};

/// Of each plan so far: its device, its log, the tokens of its threads, and what lies behind its lock at first.
#[derive(Drop)]
pub(crate) struct SetParts {
    pub(crate) devices: Vec<Name>,
    pub(crate) logs: Vec<DeviceLog>,
    pub(crate) tokens: Vec<(Name, Seen)>,
    pub(crate) shards: Vec<Fresh>,
}

// The tokens of all threads of a device's plan are given.
fn give_tokens(
    device: Name,
    streams: &[(u32, Vec<Event>)],
    log: &DeviceLog,
    owner: &mut Owner,
    tokens: &mut Vec<(Name, Seen)>,
) -> Result<(), NoMemory>
    requires log { owner.old.log ≡ log.now }
    requires held { owner.old.held ≡ threads_of (map stream_planned streams.now) }
    requires distinct { IsDistinct nat_eq (threads_of (map stream_planned streams.now)) }
    requires list { owner.old.list ≡ [] }
    ensures tokens { OnOk result (tokens.new.items ≡ tokens.old.items ++ map (λ (s : StreamPart). (device, seen_view log.now s.thread [])) (map stream_planned streams.now)) }
    ensures owner { owner.new ≡ record owner.old { held = owner.new.held } }
{
    for stream in streams {
        let token = owner.give(log, stream.0);
        tokens.push((device, token))?;
    }
    Ok(())
}

// One plan more.
fn add_plan(
    alloc: Global,
    session: &Session,
    plan: &Plan,
    given: (DeviceLog, Owner),
    held: usize,
    clock: &StepClock,
    tick: &mut Tick,
    made: &mut SetParts,
) -> Result<(), NoMemory>
    requires idle { IsIdle (option_map (λ x. x.value.kept) session.now.started) held }
    requires tick { tick.old.clock ≡ clock.now }
    requires named { (n : ShardName) × (n.plan ≡ plan_content plan.now) × IsLogFor n given × CanStart n.start n.plan.streams }
    ensures gathered { OnOk result ((names : List ShardName) (n : ShardName) → n.plan ≡ plan_content plan.now → IsStartOf (option_map (λ x. x.value.kept) session.now.started) n.start → CanStart n.start n.plan.streams → IsLogFor n given
        → IsGathered clock.now names made.old → IsGathered clock.now (names ++ n ∷ []) made.new) }
    ensures tick { tick.new ≡ tick.old }
{
    let (log, mut owner) = given;
    give_tokens(
        plan.device,
        &plan.streams,
        &log,
        &mut owner,
        &mut made.tokens,
    )?;
    let fresh = fresh_of(alloc, session, plan, owner, held, clock, tick)?;
    made.devices.push(plan.device)?;
    made.logs.push(log)?;
    made.shards.push(fresh)?;
    Ok(())
}

/// All plans with their logs, which have these names.
pub(crate) fn gather_all<N: ShardNames>(
    alloc: Global,
    session: &Session,
    plans: &[Plan],
    mut logs: Vec<(DeviceLog, Owner)>,
    held: usize,
    clock: &StepClock,
    tick: &mut Tick,
) -> Result<SetParts, NoMemory>
    requires idle { IsIdle (option_map (λ x. x.value.kept) session.now.started) held }
    requires names { AreNamedBy (option_map (λ x. x.value.kept) session.now.started) (map plan_content plans.now) N.shards }
    requires starts { AllByRecursion (λ n. CanStart n.start n.plan.streams) N.shards }
    requires logs { AreLogs N.shards logs.items }
    requires tick { tick.old.clock ≡ clock.now }
    ensures gathered { IfOk result (IsGathered clock.now N.shards) }
    ensures tick { tick.new ≡ tick.old }
{
    let mut made = SetParts {
        devices: Vec::new(alloc),
        logs: Vec::new(alloc),
        tokens: Vec::new(alloc),
        shards: Vec::new(alloc),
    };
    logs.reverse();
    for plan in plans {
        let given = logs.pop().unwrap();
        add_plan(alloc, session, plan, given, held, clock, tick, &mut made)?;
    }
    Ok(made)
}

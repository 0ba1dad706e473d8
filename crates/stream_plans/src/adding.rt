//! Plans with what they have of one stream after another.
ghost use Rattle.std.specs.Prelude.{◌≡◌, ◌<◌, ◌≤◌, [], IfOk, OnOk, length, map, slice_get, slice_set, Some};
ghost use Rattle.trace_format.specs.Content.{content};
ghost use Rattle.stream_model.specs.Plans.{DevicePlan};
ghost use Rattle.stream_plans.specs.Contents.{plan_content};
ghost use Rattle.stream_plans.specs.Dealt.{events_in, with_parts, with_stream};

use device_shard::Plan;
use std::alloc::{AllocError, Global};
use trace_format::{Event, Name};

/// A plan without streams for each of these devices.
pub fn empty_plans(alloc: Global, devices: &[Name]) -> Result<Vec<Plan>, AllocError>
    ensures { IfOk result (λ plans. map plan_content plans.items ≡ map (λ d. record { device = d; streams = [] }) devices.now) }
{
    let mut plans = Vec::with_capacity(alloc, devices.len())?;
    for device in devices {
        plans.push(Plan {
            device: *device,
            streams: Vec::new(alloc),
        })?;
    }
    Ok(plans)
}

// Adds a stream to a plan.
fn add_stream(plan: &mut Plan, thread: u32, part: Vec<Event>) -> Result<(), AllocError>
    ensures { OnOk result (plan_content plan.new ≡ with_stream (plan_content plan.old) (record { thread = thread; events = map content part.items })) }
{
    plan.streams.push((thread, part))?;
    Ok(())
}

// Adds a stream to the plan with a number.
fn add_part(
    plans: &mut Vec<Plan>,
    number: usize,
    thread: u32,
    part: Vec<Event>,
) -> Result<(), AllocError>
    requires { number < length plans.old.items }
    ensures { OnOk result ((p : DevicePlan) → slice_get (map plan_content plans.old.items) number ≡ Some p →
        map plan_content plans.new.items ≡ slice_set (map plan_content plans.old.items) number (with_stream p (record { thread = thread; events = map content part.items }))) }
{
    add_stream(&mut plans[number], thread, part)?;
    Ok(())
}

/// Adds to each plan its part of a thread's stream.
pub fn add_parts(
    plans: &mut Vec<Plan>,
    thread: u32,
    mut parts: Vec<Vec<Event>>,
) -> Result<(), AllocError>
    requires { length parts.items ≤ length plans.old.items }
    ensures { OnOk result (map plan_content plans.new.items ≡ with_parts thread (map plan_content plans.old.items) (events_in parts.items)) }
{
    while let Some(part) = parts.pop() {
        add_part(plans, parts.len(), thread, part)?;
    }
    Ok(())
}

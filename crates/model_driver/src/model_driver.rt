// The driver of the program.
ghost use Rattle.std.specs.Prelude.{◌≡◌, ◌==◌, [], Some, None, OnOk, OnErr, position};
ghost use Rattle.command_tables.specs.Handles.{list_at};
ghost use Rattle.model_driver.specs.declared.driver.Policy.TheVariants as policy;
ghost use Rattle.model_driver.specs.Driver.{call_shown, reply_shown, HasShape, IsAnsweredBy};
ghost use Rattle.model_driver.specs.Policies.{values_ended};
ghost use Rattle.model_driver.specs.GivenValues.{after_call, handles_for};

use crate::driver::{Driver, DriverCall, DriverReply, Policy};
use crate::due::handles_due;
use crate::given_values::GivenValues;
use command_tables::{Effect, HandleArgs, NoMemory, row};
use std::alloc::Global;
use std::marker::Model;

/// Answers by its policy, for each driver of the chain by itself; at first by `Fresh`. It tells no log.
pub struct ModelDriver {
    policy: Policy,
    given: Vec<GivenValues>,
}

impl Drop for ModelDriver {
    fn drop(self) {
        let ModelDriver {
            policy: _policy,
            given: _given,
        } = self;
    }
}

impl Model for ModelDriver {
    ghost use Rattle.model_driver.specs.GivenValues.{ModelState};

    ghost Value = { ModelState };

    ghost view = { λ d. record { policy = d.policy; given = d.given.items } };
}

impl ModelDriver {
    pub fn new(alloc: Global) -> ModelDriver
        ensures { result ≡ record { policy = policy.Fresh; given = [] } }
    {
        ModelDriver {
            policy: Policy::Fresh,
            given: Vec::new(alloc),
        }
    }
}

/// The handles that come back by a call.
pub fn ended(call: &DriverCall) -> &[u64]
    ensures { result.now ≡ values_ended (call_shown call.now) }
{
    match row(call.body.cmd).effect {
        Effect::Destroy(p) | Effect::Free(p) => list_of(&call.body.args, p as usize),
        Effect::None | Effect::Create { .. } | Effect::Retrieve { .. } | Effect::Reset(_) => &[],
    }
}

// A parameter's handles, where there is such a parameter.
fn list_of(args: &HandleArgs<6>, p: usize) -> &[u64]
    ensures { result.now ≡ list_at args.now.lists p }
{
    if p < args.len() { args.param(p) } else { &[] }
}

// Where what a driver has given stands.
fn place_of(given: &[GivenValues], driver: u32) -> Option<usize>
    ensures { result ≡ position (λ s. s.driver == driver) given.now }
{
    given.iter().position(|s| s.driver() == driver)
}

// Answers a call of a driver that was called before.
fn serve_at(
    given: &mut Vec<GivenValues>,
    place: usize,
    policy: Policy,
    call: &DriverCall,
    handles: &mut Vec<u64>,
) -> Result<(), NoMemory>
    requires { position (λ s. s.driver == call.now.driver) given.old.items ≡ Some place }
    ensures handles { OnOk result (handles.new.items ≡ handles_for (record { policy = policy; given = given.old.items }) (call_shown call.now)) }
    ensures ok { OnOk result (given.new.items ≡ (after_call (record { policy = policy; given = given.old.items }) (call_shown call.now)).given) }
    ensures err { OnErr result (given.new.items ≡ given.old.items) }
{
    let values = &mut given[place];
    values.serve(policy, ended(call), handles_due(call), handles)
}

// Answers a driver's first call.
fn serve_first(
    alloc: Global,
    given: &mut Vec<GivenValues>,
    policy: Policy,
    call: &DriverCall,
    handles: &mut Vec<u64>,
) -> Result<(), NoMemory>
    requires { position (λ s. s.driver == call.now.driver) given.old.items ≡ None }
    ensures handles { OnOk result (handles.new.items ≡ handles_for (record { policy = policy; given = given.old.items }) (call_shown call.now)) }
    ensures ok { OnOk result (given.new.items ≡ (after_call (record { policy = policy; given = given.old.items }) (call_shown call.now)).given) }
    ensures err { OnErr result (given.new.items ≡ given.old.items) }
{
    let mut values = GivenValues::new(alloc, call.driver);
    values.serve(policy, ended(call), handles_due(call), handles)?;
    given.push(values)?;
    Ok(())
}

fn serve(
    given: &mut Vec<GivenValues>,
    policy: Policy,
    call: &DriverCall,
    handles: &mut Vec<u64>,
) -> Result<(), NoMemory>
    ensures handles { OnOk result (handles.new.items ≡ handles_for (record { policy = policy; given = given.old.items }) (call_shown call.now)) }
    ensures ok { OnOk result (given.new.items ≡ (after_call (record { policy = policy; given = given.old.items }) (call_shown call.now)).given) }
    ensures err { OnErr result (given.new.items ≡ given.old.items) }
{
    match place_of(given, call.driver) {
        Some(place) => serve_at(given, place, policy, call, handles),
        None => {
            let alloc = *given.allocator();
            serve_first(alloc, given, policy, call, handles)
        }
    }
}

impl Driver for ModelDriver {
    ghost use Rattle.std.specs.Prelude.{◌≡◌, Option, Some, None};
    ghost use Rattle.model_driver.specs.GivenValues.{handles_for, after_call};
    ghost use Rattle.model_driver.specs.Logs.{Untold};

    ghost log = { λ _. Untold };

    ghost answers_by = { λ d. Some d.policy };

    ghost prepare_gives = { λ before policy behind. behind ≡ record before { policy = policy } };

    ghost call_gives = { λ before call reply behind. (reply.handles ≡ handles_for before call) × (behind ≡ after_call before call) };

    fn prepare(&mut self, policy: Policy)
        ensures { self.new ≡ record self.old { policy = policy } }
    {
        self.policy = policy;
    }

    fn call(&mut self, call: &DriverCall, reply: &mut DriverReply) -> Result<(), NoMemory>
        requires { HasShape (call_shown call.now) }
        ensures answers { OnOk result (IsAnsweredBy (call_shown call.now) (reply_shown reply.new)) }
        ensures handles { OnOk result (reply.new.handles.items ≡ handles_for self.old (call_shown call.now)) }
        ensures ok { OnOk result (self.new ≡ after_call self.old (call_shown call.now)) }
        ensures err { OnErr result (self.new ≡ self.old) }
    {
        serve(&mut self.given, self.policy, call, &mut reply.handles)?;
        reply.code = call.body.code;
        Ok(())
    }
}

// A driver that answers what a test gives it.
ghost use Rattle.std.specs.Prelude.{◌≡◌, ◌∷◌, [], ◌≤◌, drop, length, IsTrue, OnOk, OnErr};
ghost use Rattle.model_driver.specs.Driver.{call_shown, reply_shown, handles_due, are_handles, HasShape, IsAnsweredBy};
ghost use Rattle.model_driver.specs.Policies.{given_from};

use crate::driver::{Driver, DriverCall, DriverReply, Policy};
use crate::due::handles_due;
use command_tables::NoMemory;
use std::marker::Model;

/// Answers the handles of a list in order, then 1. It tells no log.
#[derive(Drop)]
pub struct AdverseDriver {
    values: Vec<u64>,
    at: usize,
}

impl Model for AdverseDriver {
    ghost use Rattle.std.specs.Prelude.{◌≤◌, ℕ, List, IsTrue, drop, length};
    ghost use Rattle.model_driver.specs.Driver.{are_handles};

    ghost Value = { List ℕ };

    ghost view = { λ d. drop d.at d.values.items };

    ghost invariant = { λ d. (d.at ≤ length d.values.items) × IsTrue (are_handles d.values.items) };
}

impl AdverseDriver {
    pub fn new(values: Vec<u64>) -> AdverseDriver
        requires { IsTrue (are_handles values.items) }
        ensures { result ≡ values.items }
    {
        AdverseDriver { values, at: 0 }
    }
}

// The first of the values, and 1 behind them.
fn fill(values: &[u64], count: usize, handles: &mut Vec<u64>) -> Result<(), NoMemory>
    ensures { OnOk result (handles.new.items ≡ given_from values.now count) }
{
    handles.clear();
    handles.extend_from_slice(&values[..count.min(values.len())])?;
    handles.resize(count, 1)?;
    Ok(())
}

// The same of the values from a place on.
#[tactic(auto, using(crate::proofs::Handles::count_given, crate::proofs::Handles::handles_given))]
fn give(values: &[u64], at: usize, count: usize, handles: &mut Vec<u64>) -> Result<(), NoMemory>
    requires at { at ≤ length values.now }
    requires values { IsTrue (are_handles values.now) }
    ensures given { OnOk result (handles.new.items ≡ given_from (drop at values.now) count) }
    ensures count { OnOk result (length handles.new.items ≡ count) }
    ensures handles { OnOk result (IsTrue (are_handles handles.new.items)) }
{
    fill(&values[at..], count, handles)?;
    Ok(())
}

impl Driver for AdverseDriver {
    ghost use Rattle.std.specs.Prelude.{◌≡◌, Option, None, drop};
    ghost use Rattle.model_driver.specs.Driver.{handles_due};
    ghost use Rattle.model_driver.specs.Policies.{given_from};
    ghost use Rattle.model_driver.specs.Logs.{Untold};

    ghost log = { λ _. Untold };

    ghost answers_by = { λ _. None };

    ghost prepare_gives = { λ before _ behind. behind ≡ before };

    ghost call_gives = { λ before call reply behind. (reply.handles ≡ given_from before (handles_due call)) × (behind ≡ drop (handles_due call) before) };

    fn prepare(&mut self, _policy: Policy)
        ensures { self.new ≡ self.old }
    {}

    fn call(&mut self, call: &DriverCall, reply: &mut DriverReply) -> Result<(), NoMemory>
        requires { HasShape (call_shown call.now) }
        ensures answers { OnOk result (IsAnsweredBy (call_shown call.now) (reply_shown reply.new)) }
        ensures handles { OnOk result (reply.new.handles.items ≡ given_from self.old (handles_due (call_shown call.now))) }
        ensures rest { OnOk result (self.new ≡ drop (handles_due (call_shown call.now)) self.old) }
        ensures err { OnErr result (self.new ≡ self.old) }
    {
        let count = handles_due(call) as usize;
        give(&self.values, self.at, count, &mut reply.handles)?;
        reply.code = call.body.code;
        self.at += count.min(self.values.len() - self.at);
        Ok(())
    }
}

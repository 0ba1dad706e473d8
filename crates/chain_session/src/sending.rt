// A call goes to its drivers.
ghost use Rattle.std.specs.Prelude.{◌≡◌, [], false, map, if◌then◌else◌, OnOk, OnErr};
ghost use Rattle.std.specs.List.{AllByRecursion};
ghost use Rattle.command_tables.specs.Calls.{call_content};
ghost use Rattle.model_driver.specs.Driver.{HasShape, call_shown};
ghost use Rattle.replay_model.specs.Past.{is_skipped};
ghost use Rattle.terminator.specs.Calls.{targets_of};
ghost use Rattle.chain_session.specs.Opened.{opened_of};
ghost use Rattle.chain_session.specs.Sending.{IsSentTo, calls_due, drivers_told};
ghost use Rattle.chain_session.specs.Telling.{FrontAsked};

use crate::call::OpenCall;
use crate::room::SpareReplies;
use crate::telling::ask_each;
use command_tables::NoMemory;
use dispatch_chain::Terminator;
use model_driver::{Driver, DriverCall};
use std::alloc::AllocError;

// The drivers that are told a call.
fn put_drivers(targets: &[DriverCall], drivers: &mut Vec<u32>) -> Result<(), AllocError>
    ensures { OnOk result (drivers.new.items ≡ drivers_told (map call_shown targets.now)) }
{
    drivers.clear();
    for target in targets {
        drivers.push(target.driver)?;
    }
    Ok(())
}

pub(crate) fn is_skipped(call: &OpenCall) -> bool
    ensures { result ≡ is_skipped (opened_of call.now) }
{
    call.refusal.is_some() || call.stop.is_some()
}

// All memory for what is kept of the drivers is taken before one is told.
#[tactic(auto, using(crate::proofs::Sent::sent_so, crate::proofs::Sent::drivers_of_targets, crate::proofs::Sent::front_due, crate::proofs::Told::none_asked))]
fn tell<D: Driver>(
    spare: &mut SpareReplies,
    terminator: &Terminator,
    call: &mut OpenCall,
    targets: &mut Vec<DriverCall>,
    driver: &mut D,
) -> Result<(), NoMemory>
    requires shapes { AllByRecursion HasShape (targets_of terminator.now (call_content call.old.bottom)) }
    requires sent { is_skipped (opened_of call.old) ≡ false }
    ensures ok { OnOk result (IsSentTo terminator.now call.old call.new (D.log driver.old) (D.log driver.new)) }
    ensures err { OnErr result (FrontAsked (calls_due terminator.now call.old) (D.log driver.old) (D.log driver.new)) }
    ensures policy { D.answers_by driver.new ≡ D.answers_by driver.old }
{
    terminator.targets(&call.bottom, targets)?;
    put_drivers(targets, &mut call.drivers)?;
    ask_each(spare, targets, driver, &mut call.replies)?;
    Ok(())
}

/// Tells the drivers of a call that isn't skipped, each in its own values, and keeps what they answer. After `NoMemory` the first so many of
/// them were told.
#[tactic(auto, using(crate::proofs::Sent::kept_so))]
pub(crate) fn send<D: Driver>(
    spare: &mut SpareReplies,
    terminator: &Terminator,
    call: &mut OpenCall,
    targets: &mut Vec<DriverCall>,
    driver: &mut D,
) -> Result<(), NoMemory>
    requires shapes { is_skipped (opened_of call.old) ≡ false → AllByRecursion HasShape (targets_of terminator.now (call_content call.old.bottom)) }
    requires drivers { call.old.drivers.items ≡ [] }
    requires replies { call.old.replies.items ≡ [] }
    ensures ok { OnOk result (IsSentTo terminator.now call.old call.new (D.log driver.old) (D.log driver.new)) }
    ensures err { OnErr result (FrontAsked (calls_due terminator.now call.old) (D.log driver.old) (D.log driver.new)) }
    ensures policy { D.answers_by driver.new ≡ D.answers_by driver.old }
{
    if is_skipped(call) {
        Ok(())
    } else {
        tell(spare, terminator, call, targets, driver)
    }
}

// Drivers are told a call.
ghost use Rattle.std.specs.Prelude.{◌≡◌, ◌∷◌, [], map, OnOk, OnErr};
ghost use Rattle.std.specs.List.{AllByRecursion};
ghost use Rattle.model_driver.specs.Driver.{HasShape, call_shown, reply_shown};
ghost use Rattle.chain_session.specs.Telling.{AreAsked, AskedOnce, FrontAsked};

use crate::room::SpareReplies;
use command_tables::NoMemory;
use model_driver::{Driver, DriverCall, DriverReply};

// One driver is told its call. Its reply is kept, unless there is no memory for that.
#[tactic(auto, using(crate::proofs::Told::once, crate::proofs::Told::none_asked, crate::proofs::Told::one_asked, crate::proofs::Told::shown_more))]
fn ask_one<D: Driver>(
    spare: &mut SpareReplies,
    call: &DriverCall,
    driver: &mut D,
    replies: &mut Vec<DriverReply>,
) -> Result<(), NoMemory>
    requires { HasShape (call_shown call.now) }
    ensures ok { OnOk result (AskedOnce (call_shown call.now) (map reply_shown replies.old.items) (map reply_shown replies.new.items) (D.log driver.old) (D.log driver.new)) }
    ensures err { OnErr result (FrontAsked (call_shown call.now ∷ []) (D.log driver.old) (D.log driver.new)) }
    ensures policy { D.answers_by driver.new ≡ D.answers_by driver.old }
{
    let mut reply = spare.take();
    driver.call(call, &mut reply)?;
    replies.push(reply)?;
    Ok(())
}

/// Each driver is told its call, in order. What stood among the replies before is gone. After `NoMemory` the first so many of the calls were
/// told.
pub(crate) fn ask_each<D: Driver>(
    spare: &mut SpareReplies,
    calls: &[DriverCall],
    driver: &mut D,
    replies: &mut Vec<DriverReply>,
) -> Result<(), NoMemory>
    requires { AllByRecursion HasShape (map call_shown calls.now) }
    ensures ok { OnOk result (AreAsked (map call_shown calls.now) (map reply_shown replies.new.items) (D.log driver.old) (D.log driver.new)) }
    ensures err { OnErr result (FrontAsked (map call_shown calls.now) (D.log driver.old) (D.log driver.new)) }
    ensures policy { D.answers_by driver.new ≡ D.answers_by driver.old }
{
    replies.clear();
    for call in calls {
        ask_one(spare, call, driver, replies)?;
    }
    Ok(())
}

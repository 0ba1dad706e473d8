// How many handles a driver owes.
ghost use Rattle.std.specs.Prelude.{◌≡◌};
ghost use Rattle.model_driver.specs.Driver.{call_shown, handles_due};

use crate::driver::DriverCall;

/// As many as are asked for where the call succeeds, else none.
pub fn handles_due(call: &DriverCall) -> u32
    ensures { result ≡ handles_due (call_shown call.now) }
{
    if call.body.cmd.succeeds(call.body.code) {
        call.body.asked
    } else {
        0
    }
}

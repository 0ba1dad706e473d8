// Whether the results of a call are born.
ghost use Rattle.std.specs.Prelude.{◌≡◌};
ghost use Rattle.command_tables.specs.Table.{row_of};
ghost use Rattle.object_model.specs.History.{born_in};
ghost use Rattle.replay_model.specs.Births.{bearable, bears, owner_lives};
ghost use Rattle.session_parts.specs.Opened.{returning_shown};

use crate::returning_call::{ReturningCall, was_skipped};
use command_tables::{CommandId, Effect, row};
use object_model::Object;
use session_tables::{ObjectTable, owner};
use trace_format::Name;

/// What a command does to objects.
pub(crate) fn effect_of(cmd: CommandId) -> Effect
    ensures { result ≡ (row_of cmd).effect }
{
    row(cmd).effect
}

#[tactic(auto, unfolding(command_tables::specs::Tests::same_command))]
fn has_living_owner(objects: &ObjectTable, cmd: CommandId, owner: Option<Object>) -> bool
    ensures { result ≡ owner_lives (born_in objects.now.births) cmd owner }
{
    cmd == CommandId::CreateInstance
        || match owner {
            None => false,
            Some(owner) => objects.is_living(owner),
        }
}

/// Whether the results of a call are born at its return.
pub(crate) fn is_bearing(objects: &ObjectTable, call: ReturningCall<'_>) -> bool
    ensures { result ≡ bears objects.now.births (born_in objects.now.births) (returning_shown call.entry) }
{
    !was_skipped(call)
        && call.cmd.succeeds(call.code)
        && has_living_owner(
            objects,
            call.cmd,
            owner(objects.births(), call.args, effect_of(call.cmd)),
        )
}

/// The results that can be born: each driver has one physical device.
#[tactic(auto, unfolding(command_tables::specs::Tests::same_command))]
pub(crate) fn bearable_results(drivers: u32, call: ReturningCall<'_>) -> &[Name]
    ensures { result.now ≡ bearable drivers (returning_shown call.entry) }
{
    if call.cmd == CommandId::EnumeratePhysicalDevices {
        let count = call.results.len().min(drivers as usize);
        &call.results[..count]
    } else {
        call.results
    }
}

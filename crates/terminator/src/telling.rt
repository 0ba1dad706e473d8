//! What a driver is told.
ghost use Rattle.std.specs.Prelude.{◌≡◌, ◌<◌, [], map, length, unwrap_or, slice_set, IsOk, OnOk};
ghost use Rattle.command_tables.specs.Calls.{HasRoomFor, call_content};
ghost use Rattle.command_tables.specs.Handles.{HasRoom, list_at};
ghost use Rattle.command_tables.specs.Table.{seen_param};
ghost use Rattle.handle_map.specs.Pairs.{values_of};
ghost use Rattle.layer_model.specs.Terminator.{told_call, told_handles, told_params};
ghost use Rattle.model_driver.specs.Driver.{call_shown};
ghost use Rattle.object_model.specs.Values.{asked_of_each, value_for};
ghost use Rattle.terminator.specs.Calls.{KeepsCallRoom};

use crate::answers::enumerates_devices;
use crate::bare::is_bare;
use crate::issued::IssuedIds;
use crate::value::value_for;
use command_tables::{CommandId, HandleArgs, LayerCall, NoMemory, ObjectType, Param, row};
use model_driver::DriverCall;

// The handles of one parameter are replaced by the driver's values.
fn replace(issued: &IssuedIds, driver: u32, ty: ObjectType, args: &mut HandleArgs<6>, p: usize)
    requires { p < length args.old.lists }
    ensures lists { args.new.lists ≡ slice_set args.old.lists p (map (λ h. value_for driver (unwrap_or (values_of issued.now.ids.entries ty h) [])) (list_at args.old.lists p)) }
    ensures room { HasRoom args.new args.old.slots args.old.room }
{
    for k in 0..args.param(p).len() {
        let handle = args.param(p)[k];
        args.set(p, k, value_for(driver, issued.values(ty, handle)));
    }
}

// One parameter is told, where the terminator issues ids for its type.
#[tactic(auto, using(crate::proofs::Places::own, crate::proofs::Places::set_beyond))]
fn tell_param(issued: &IssuedIds, driver: u32, ty: ObjectType, args: &mut HandleArgs<6>, p: usize)
    ensures lists { args.new.lists ≡ slice_set args.old.lists p (told_handles issued.now.ids driver ty (list_at args.old.lists p)) }
    ensures room { HasRoom args.new args.old.slots args.old.room }
{
    if p < args.len() && is_bare(ty) {
        replace(issued, driver, ty, args, p);
    }
}

// All parameters are.
fn tell_params(issued: &IssuedIds, driver: u32, params: &[Param], args: &mut HandleArgs<6>)
    ensures lists { args.new.lists ≡ told_params issued.now.ids driver (map seen_param params.now) args.old.lists }
    ensures room { HasRoom args.new args.old.slots args.old.room }
{
    for p in 0..params.len() {
        tell_param(issued, driver, params[p].ty, args, p);
    }
}

// How many handles each driver is asked for.
fn asked_of_each(cmd: CommandId, asked: u32) -> u32
    ensures { result ≡ asked_of_each cmd asked }
{
    if enumerates_devices(cmd) { 1 } else { asked }
}

/// A driver's call becomes what it is told of this one. After `NoMemory`, which comes only where there was no room for it, anything
/// stands there. No room is lost.
pub fn tell(
    issued: &IssuedIds,
    call: &LayerCall,
    driver: u32,
    told: &mut DriverCall,
) -> Result<(), NoMemory>
    ensures told { OnOk result (call_shown told.new ≡ told_call issued.now.ids (call_content call.now) driver) }
    ensures succeeds { HasRoomFor told.old.body (call_content call.now) → IsOk result }
    ensures room { KeepsCallRoom told.old.body told.new.body }
{
    told.body.copy_from(call)?;
    tell_params(issued, driver, row(call.cmd).params, &mut told.body.args);
    told.body.asked = asked_of_each(call.cmd, call.asked);
    told.driver = driver;
    Ok(())
}

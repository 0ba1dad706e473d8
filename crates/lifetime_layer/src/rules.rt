// What must hold of one argument.
ghost use Rattle.std.specs.Prelude.{◌≡◌};
ghost use Rattle.command_tables.specs.Table.{ParamSpec};
ghost use Rattle.object_model.specs.Objects.{are_same, is_in};
ghost use Rattle.object_model.specs.Rules.{children_at, ends_parent, owner_holds, parameter_holds, parent_holds};
ghost use Rattle.object_records.specs.Shape.{HasParams, arguments_of};

use command_tables::{CommandId, LayerCall, OwnerMark};
use object_model::{Argument, Object};
use object_records::{ObjectRecords, first_argument};

// Whether both are there and are the same object.
#[tactic(auto, unfolding(command_tables::specs::Tests::same_type))]
fn are_one(a: Option<Object>, b: Option<Object>) -> bool
    ensures { result ≡ are_same a b }
{
    match (a, b) {
        (Some(a), Some(b)) => a == b,
        _ => false,
    }
}

// Whether an object has the device of the first argument.
fn has_same_device(records: &ObjectRecords, call: &LayerCall, object: Object) -> bool
    requires { HasParams call.now }
    ensures { result ≡ owner_holds records.now.kept.births (arguments_of call.now) OwnerMark.Device object }
{
    match first_argument(call, 0) {
        None => false,
        Some(first) => are_one(records.device(object), records.device(first)),
    }
}

// Whether an object has the owner that its parameter's mark asks for.
fn has_owner(records: &ObjectRecords, call: &LayerCall, mark: OwnerMark, object: Object) -> bool
    requires { HasParams call.now }
    ensures { result ≡ owner_holds records.now.kept.births (arguments_of call.now) mark object }
{
    match mark {
        OwnerMark::None => true,
        OwnerMark::Device => has_same_device(records, call, object),
        OwnerMark::Param(p) => are_one(records.owner(object), first_argument(call, p as usize)),
    }
}

// The rule on parameters: a living object, or a null that is allowed.
pub(crate) fn is_valid(records: &ObjectRecords, optional: bool, argument: Argument) -> bool
    ensures { (p : ParamSpec) → p.optional ≡ optional → result ≡ parameter_holds (is_in records.now.kept.living) p argument }
{
    match argument {
        Argument::Null => optional,
        Argument::Unborn => false,
        Argument::The(object) => records.is_alive(object),
    }
}

// The rule on parents: what lives has its owner.
pub(crate) fn has_parent(
    records: &ObjectRecords,
    call: &LayerCall,
    mark: OwnerMark,
    argument: Argument,
) -> bool
    requires { HasParams call.now }
    ensures { (p : ParamSpec) → p.owner ≡ mark → result ≡ parent_holds records.now.kept.births (is_in records.now.kept.living) (arguments_of call.now) p argument }
{
    match argument {
        Argument::Null | Argument::Unborn => true,
        Argument::The(object) => {
            !records.is_alive(object) || has_owner(records, call, mark, object)
        }
    }
}

// How many living children the argument's object has.
pub(crate) fn count_children(records: &ObjectRecords, argument: Argument) -> usize
    ensures { result ≡ children_at records.now.kept.births (is_in records.now.kept.living) argument }
{
    match argument {
        Argument::Null | Argument::Unborn => 0,
        Argument::The(object) => records.count_children(object),
    }
}

// Whether the rule on children is asked of the first argument.
#[tactic(auto, unfolding(command_tables::specs::Tests::same_command))]
pub(crate) fn destroys_parent(cmd: CommandId) -> bool
    ensures { result ≡ ends_parent cmd }
{
    cmd == CommandId::DestroyDevice || cmd == CommandId::DestroyInstance
}

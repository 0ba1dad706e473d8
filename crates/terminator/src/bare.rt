//! For which types the terminator issues ids.
ghost use Rattle.std.specs.Prelude.{◌≡◌, true, Some, IfNone, IfSome};
ghost use Rattle.command_tables.specs.Effects.{type_made};
ghost use Rattle.command_tables.specs.Table.{row_of};
ghost use Rattle.layer_model.specs.Ids.{is_bare};
ghost use Rattle.object_model.specs.Routes.{is_routed};
ghost use Rattle.terminator.specs.Shown.{IsPlain};

use command_tables::{CommandId, ObjectType, row};

/// Whether the terminator issues ids for objects of this type: dispatchable ones, and surfaces.
#[tactic(auto, unfolding(command_tables::specs::Tests::same_type))]
pub fn is_bare(ty: ObjectType) -> bool
    ensures { result ≡ is_bare ty }
{
    matches!(
        ty,
        ObjectType::Instance
            | ObjectType::PhysicalDevice
            | ObjectType::Device
            | ObjectType::Queue
            | ObjectType::CommandBuffer
            | ObjectType::Surface
    )
}

/// Whether a call on an object of this type goes to one driver.
#[tactic(auto, unfolding(command_tables::specs::Tests::same_type))]
pub fn is_routed(ty: ObjectType) -> bool
    ensures { result ≡ is_routed ty }
{
    matches!(
        ty,
        ObjectType::PhysicalDevice
            | ObjectType::Device
            | ObjectType::Queue
            | ObjectType::CommandBuffer
    )
}

/// The type of what a command makes, where the terminator issues ids for it.
pub fn issued_type(cmd: CommandId) -> Option<ObjectType>
    ensures made { IfSome result (λ t. type_made (row_of cmd).effect ≡ Some t) }
    ensures bare { IfSome result (λ t. is_bare t ≡ true) }
    ensures none { IfNone result (IsPlain (type_made (row_of cmd).effect)) }
{
    match row(cmd).effect.type_made() {
        None => None,
        Some(ty) => { if is_bare(ty) { Some(ty) } else { None } }
    }
}

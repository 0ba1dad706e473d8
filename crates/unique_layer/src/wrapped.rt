//! For which types a unique part issues ids.
ghost use Rattle.std.specs.Prelude.{◌≡◌};
ghost use Rattle.layer_model.specs.Ids.{is_wrapped};

use command_tables::ObjectType;

/// Whether a unique part issues ids for objects of this type: non-dispatchable ones but surfaces, which the loader handles.
#[tactic(auto, unfolding(command_tables::specs::Tests::same_type))]
pub fn wraps(ty: ObjectType) -> bool
    ensures { result ≡ is_wrapped ty }
{
    !matches!(
        ty,
        ObjectType::Instance
            | ObjectType::PhysicalDevice
            | ObjectType::Device
            | ObjectType::Queue
            | ObjectType::CommandBuffer
            | ObjectType::Surface
    )
}

//! What a command's effect makes, and when a call succeeds.
ghost use Rattle.std.specs.Prelude.{◌≡◌};
ghost use Rattle.command_tables.specs.Effects.{lists_objects, succeeds, type_made};

use crate::table::row;
use crate::types::{Code, CommandId, Effect, ObjectType};

impl Effect {
    /// The type of what a command with this effect makes or gives.
    pub fn type_made(self) -> Option<ObjectType>
        ensures { result ≡ type_made self }
    {
        match self {
            Effect::Create { ty, .. } | Effect::Retrieve { ty, .. } => Some(ty),
            Effect::None | Effect::Destroy(_) | Effect::Free(_) | Effect::Reset(_) => None,
        }
    }

    /// Whether the effect gives any number of objects.
    pub fn lists_objects(self) -> bool
        ensures { result ≡ lists_objects self }
    {
        match self {
            Effect::Retrieve { many, .. } => many,
            Effect::None
            | Effect::Create { .. }
            | Effect::Destroy(_)
            | Effect::Free(_)
            | Effect::Reset(_) => false,
        }
    }
}

impl CommandId {
    /// Whether a call that answers this code, or nothing, succeeds (Vulkan 1.3, "Return Codes").
    #[tactic(auto, unfolding(crate::specs::Tests::same_code))]
    pub fn succeeds(self, code: Option<Code>) -> bool
        ensures { result ≡ succeeds self code }
    {
        match code {
            None => true,
            Some(code) => {
                code == Code::Success
                    || (code == Code::Incomplete && row(self).effect.lists_objects())
            }
        }
    }
}

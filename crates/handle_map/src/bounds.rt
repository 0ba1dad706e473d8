// Ids that no entry can have, since they lie beyond all that have one.
ghost use Rattle.std.specs.Prelude.{◌≡◌};
ghost use Rattle.handle_map.specs.Bounds.{bounds_with, is_beyond};

use crate::hints::is_numbered_apart;
use command_tables::ObjectType;

/// Bounds of the ids of a map.
#[derive(Clone, Copy)]
pub struct Bounds {
    /// No id is less. Ids are numbered from 1 on, so that a null is told by this bound.
    pub least: u64,
    /// The greatest id, or 0.
    pub greatest: u64,
    /// No id of a type that is numbered apart is greater.
    pub apart: u64,
}

/// Whether an id is below the least, above the greatest of all, or above the greatest of those that are numbered apart with it.
pub fn is_beyond(bounds: Bounds, ty: ObjectType, id: u64) -> bool
    ensures { result ≡ is_beyond bounds ty id }
{
    id < bounds.least || bounds.greatest < id || (is_numbered_apart(ty) && bounds.apart < id)
}

/// The bounds with an id more.
pub fn bounds_with(bounds: Bounds, ty: ObjectType, id: u64) -> Bounds
    ensures { result ≡ bounds_with bounds ty id }
{
    Bounds {
        least: bounds.least.min(id),
        greatest: bounds.greatest.max(id),
        apart: if is_numbered_apart(ty) {
            bounds.apart.max(id)
        } else {
            bounds.apart
        },
    }
}

//! The keys of retrieved objects.
ghost use Rattle.std.specs.Prelude.{◌≡◌};
ghost use Rattle.object_model.specs.Objects.{are_same};
ghost use Rattle.layer_model.specs.Ids.{at_key};
ghost use Rattle.unique_layer.specs.Shown.{key_asked};

use command_tables::ObjectType;
use object_model::Object;

/// By what a retrieved object is known: its owner as it stood above this part, its type, and its place in the answer. A payload
/// tells queues alone apart, and those are dispatchable: they get no id here.
#[derive(Clone, Copy)]
pub struct RetrievedKey {
    pub owner: Option<Object>,
    pub ty: ObjectType,
    pub place: usize,
}

/// The key of the result in a place, where the call retrieves.
pub fn key_at(key: Option<RetrievedKey>, place: usize) -> Option<RetrievedKey>
    ensures { key_asked result ≡ at_key (key_asked key) place }
{
    match key {
        None => None,
        Some(key) => Some(RetrievedKey { place, ..key }),
    }
}

/// Whether both owners are there and are the same.
#[tactic(auto, unfolding(command_tables::specs::Tests::same_type))]
pub fn same_owner(a: Option<Object>, b: Option<Object>) -> bool
    ensures { result ≡ are_same a b }
{
    match (a, b) {
        (Some(a), Some(b)) => a == b,
        (_, _) => false,
    }
}

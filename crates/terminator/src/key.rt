//! The keys of retrieved objects.
ghost use Rattle.std.specs.Prelude.{◌≡◌};
ghost use Rattle.object_model.specs.Objects.{are_same};
ghost use Rattle.layer_model.specs.Ids.{at_key};
ghost use Rattle.terminator.specs.Shown.{bytes_of, key_asked};

use command_tables::ObjectType;
use object_model::Object;

/// By what a retrieved object is known: its owner as it stood above the terminator, its type, its place in the answer, and a
/// queue's payload.
#[derive(Clone, Copy)]
pub struct RetrievedKey<'a> {
    pub owner: Option<Object>,
    pub ty: ObjectType,
    pub place: usize,
    pub payload: &'a [u8],
}

/// The key of the result in a place, where the call retrieves.
pub fn key_at<'a>(key: Option<RetrievedKey<'a>>, place: usize) -> Option<RetrievedKey<'a>>
    ensures { key_asked result ≡ at_key (key_asked key.entry) place }
{
    match key {
        None => None,
        Some(key) => Some(RetrievedKey { place, ..key }),
    }
}

/// How many bytes of payload are kept with a result, where the call retrieves.
pub fn payload_len(key: Option<RetrievedKey<'_>>) -> usize
    ensures { result ≡ bytes_of (key_asked key.entry) }
{
    match key {
        None => 0,
        Some(key) => key.payload.len(),
    }
}

/// Whether both owners are there and are the same.
#[tactic(auto, unfolding(command_tables::specs::Tests::same_type))]
pub fn same_owner(a: Option<Object>, b: Option<Object>) -> bool
    ensures { result ≡ are_same a b }
{
    match (a, b) {
        (Some(a), Some(b)) => a == b,
        (_, _) => false,
    }
}

// The entries of what is kept.
ghost use Rattle.std.specs.Prelude.{◌≡◌, ◌≤◌};

use command_tables::ObjectType;
use object_model::Object;

/// An id, which is one more than the place of its entry, in 16 bytes: its type, the driver behind it where it has one of its own, and where
/// its values stand.
#[derive(Clone, Copy)]
pub struct IdEntry {
    pub ty: ObjectType,
    pub driver: u32,
    pub start: u32,
    pub len: u32,
}

const _: () = prove!(size_of::<IdEntry>() == 16);

/// The entry whose values are so many from a place on.
pub fn entry_at(ty: ObjectType, driver: u32, start: usize, len: usize) -> IdEntry
    requires start { start ≤ 4294967295 }
    requires len { len ≤ 4294967295 }
    ensures { result ≡ record { ty = ty; driver = driver; start = start; len = len } }
{
    IdEntry {
        ty,
        driver,
        start: start as u32,
        len: len as u32,
    }
}

/// The entry with so many values in its place.
pub fn with_len(entry: IdEntry, len: usize) -> IdEntry
    requires { len ≤ entry.len }
    ensures { result ≡ record entry { len = len } }
{
    IdEntry {
        len: len as u32,
        ..entry
    }
}

/// The id of a retrieved object with its key: the owner, the type, the place in the answer, and where the payload stands.
#[derive(Clone, Copy)]
pub struct KeptEntry {
    pub owner: Option<Object>,
    pub ty: ObjectType,
    pub place: usize,
    pub start: usize,
    pub len: usize,
    pub id: u64,
    /// One more than the place of the owner's next entry, which is an earlier one; 0 at its end.
    pub next: usize,
}

// The owners of one object.
ghost use Rattle.std.specs.Prelude.{◌≡◌, ◌≤◌, IfOk, IsOk, length};
ghost use Rattle.session_tables.specs.Births.{owners_kept};

use object_model::Object;
use std::alloc::{AllocError, Global};

/// The owners of an object. By the table of commands there are at most three, which take no memory of their own.
pub enum OwnerList {
    None,
    One([Object; 1]),
    Two([Object; 2]),
    Three([Object; 3]),
    More(Vec<Object>),
}

impl Drop for OwnerList {
    fn drop(self) {
        match self {
            OwnerList::None => {}
            OwnerList::One(_part) => {}
            OwnerList::Two(_part) => {}
            OwnerList::Three(_part) => {}
            OwnerList::More(_part) => {}
        }
    }
}

impl OwnerList {
    pub fn from_slice(alloc: Global, owners: &[Object]) -> Result<OwnerList, AllocError>
        ensures kept { IfOk result (λ l. owners_kept l ≡ owners.now) }
        ensures succeeds { length owners.now ≤ 3 → IsOk result }
    {
        match owners {
            [] => Ok(OwnerList::None),
            [a] => Ok(OwnerList::One([*a])),
            [a, b] => Ok(OwnerList::Two([*a, *b])),
            [a, b, c] => Ok(OwnerList::Three([*a, *b, *c])),
            _ => Ok(OwnerList::More(Vec::from_slice(alloc, owners)?)),
        }
    }

    pub fn as_slice(&self) -> &[Object]
        ensures { result.now ≡ owners_kept self.now }
    {
        match self {
            OwnerList::None => &[],
            OwnerList::One(owners) => owners,
            OwnerList::Two(owners) => owners,
            OwnerList::Three(owners) => owners,
            OwnerList::More(owners) => owners,
        }
    }
}

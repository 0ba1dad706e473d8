// Where the owner of an object stands.
ghost use Rattle.std.specs.Prelude.{◌≡◌, ◌||◌};
ghost use Rattle.object_records.specs.Links.{is_unborn};

use object_model::Object;

/// The owner of an object, as it stood when the object was born.
#[derive(Clone, Copy)]
pub enum KeptOwner {
    Nobody,
    /// The place of the owner's record, which is an earlier one.
    At(usize),
    /// An owner that wasn't born itself.
    Unborn(Object),
}

// Whether an owner wasn't born.
fn is_unborn(owner: KeptOwner) -> bool
    ensures { result ≡ is_unborn owner }
{
    match owner {
        KeptOwner::Nobody | KeptOwner::At(_) => false,
        KeptOwner::Unborn(_) => true,
    }
}

/// Notes besides whether this owner wasn't born.
pub fn has_stray(noted: bool, owner: KeptOwner) -> bool
    ensures { result ≡ (noted || is_unborn owner) }
{
    noted || is_unborn(owner)
}

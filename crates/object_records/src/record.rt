// What is kept of one object.
use crate::kept_owner::KeptOwner;
use object_model::Object;

/// An object that was born.
#[derive(Clone, Copy)]
pub struct ObjectRecord {
    pub object: Object,
    /// Whether a call created it; else it was retrieved.
    pub is_created: bool,
    pub lives: bool,
    pub owner: KeptOwner,
}

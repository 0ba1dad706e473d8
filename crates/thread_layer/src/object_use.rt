// What is kept of one use.
use object_model::Object;

/// An object that a call reads or writes, by itself or by the mark of the argument.
#[derive(Clone, Copy, Debug, PartialEq, Eq)]
pub struct ObjectUse {
    /// The argument's parameter, from 0.
    pub param: u8,
    /// The argument's place in its parameter, from 0.
    pub index: u32,
    pub object: Object,
    pub write: bool,
}

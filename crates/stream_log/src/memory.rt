//! The one error of this crate.

/// No memory could be had for what the call makes.
#[derive(Drop)]
pub struct NoMemory;

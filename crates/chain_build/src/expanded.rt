//! Layers by name, with what each stands for.
ghost use Rattle.std.specs.Prelude.{◌≡◌, vec_len};

use crate::by_name::ByName;

/// Layers by name, and what each stands for with a level of meta-layers less than there may be.
#[derive(Drop)]
pub(crate) struct Expanded<'a> {
    pub(crate) known: ByName<'a>,
    pub(crate) row: Vec<Option<Vec<&'a str>>>,
    ghost paired: { vec_len row ≡ vec_len known.layers },
}

//! The values of the map of ids.
ghost use Rattle.std.specs.Prelude.{◌≡◌};
ghost use Rattle.unique_layer.specs.Shown.{first_of};

/// The first of an entry's values, and 0 where it has none.
pub fn first_value(values: &[u64]) -> u64
    ensures { result ≡ first_of values.now }
{
    match values.first() {
        None => 0,
        Some(value) => *value,
    }
}

//! The values that drivers have for an object.
ghost use Rattle.std.specs.Prelude.{◌≡◌, map};
ghost use Rattle.object_model.specs.Values.{first_value, value_for};
ghost use Rattle.terminator.specs.Table.{value_of};

/// A driver's value for an object.
#[derive(Clone, Copy)]
pub struct DriverValue {
    pub driver: u32,
    pub value: u64,
}

/// The first of these values, and 0 where there is none.
pub fn first_value(values: &[DriverValue]) -> u64
    ensures { result ≡ first_value (map value_of values.now) }
{
    match values.first() {
        None => 0,
        Some(first) => first.value,
    }
}

/// A driver's own value, and where it has none that of the driver that has.
pub fn value_for(driver: u32, values: &[DriverValue]) -> u64
    ensures { result ≡ value_for driver (map value_of values.now) }
{
    for own in values {
        if own.driver == driver {
            return own.value;
        }
    }
    first_value(values)
}

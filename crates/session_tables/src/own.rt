// The object that is made of a name.
ghost use Rattle.std.specs.Prelude.{◌≡◌, ◌==◌};
ghost use Rattle.replay_model.specs.Births.{own_number, own_object};

use command_tables::ObjectType;
use object_model::Object;
use replay_model::Named;
use trace_format::Name;

/// The object of its own for which a name stands: its number is `number * 2048 + thread` of the name.
pub fn own_object(ty: ObjectType, name: Name) -> Object
    ensures { result ≡ own_object ty name }
{
    Object {
        ty,
        number: u64::from(name.number) * 2048 + u64::from(name.thread),
    }
}

/// Whether a name stands for an object of its own.
pub(crate) fn is_own(named: Named) -> bool
    ensures { result ≡ (own_number named.name == named.object.number) }
{
    own_object(named.object.ty, named.name).number == named.object.number
}

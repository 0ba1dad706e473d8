// How the id of a pair is kept in 32 bits.
ghost use Rattle.std.specs.Prelude.{◌≡◌, ◌≤◌, ◌<◌, ◌+◌, ◌^◌, length, vec_capacity};
ghost use Rattle.handle_map.specs.KeptPairs.{IsAmongWide, id_of, wide_with};

use command_tables::ObjectType;

/// What is kept of a pair, in 8 bytes.
#[derive(Clone, Copy)]
pub struct KeptPair {
    /// The id where it has 32 bits, else its place among the wide ones.
    pub number: u32,
    pub ty: ObjectType,
    pub is_wide: bool,
}

const _: () = prove!(size_of::<KeptPair>() == 8);

/// The id that a number stands for.
#[tactic(auto, using(crate::proofs::Listed::got_there))]
pub fn read_id(wide: &[u64], number: u32, is_wide: bool) -> u64
    requires { IsAmongWide (length wide.now) number is_wide }
    ensures { result ≡ id_of wide.now number is_wide }
{
    if is_wide {
        wide[number as usize]
    } else {
        number as u64
    }
}

/// The number for an id, and whether it is wide. A wide one is put behind the others.
pub fn keep_id(wide: &mut Vec<u64>, id: u64) -> (u32, bool)
    requires room { length wide.old.items + 1 ≤ vec_capacity wide.old }
    requires few { length wide.old.items < 2 ^ 32 }
    ensures wide { wide.new.items ≡ wide_with wide.old.items id }
    ensures kept { id_of wide.new.items result.0 result.1 ≡ id }
    ensures within { IsAmongWide (length wide.new.items) result.0 result.1 }
    ensures room { vec_capacity wide.old ≤ vec_capacity wide.new }
{
    if id <= u32::MAX as u64 {
        return (id as u32, false);
    }
    let place = wide.len() as u32;
    wide.push(id).unwrap();
    (place, true)
}

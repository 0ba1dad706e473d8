// A pair, and where the next pair of its chain stands.
use command_tables::ObjectType;

/// An entry of a set, in 16 bytes.
#[derive(Clone, Copy)]
pub struct Entry {
    pub id: u64,
    /// One more than the place of the next entry of the chain, which is an earlier one; 0 at its end.
    pub next: u32,
    pub ty: ObjectType,
}

const _: () = prove!(size_of::<Entry>() == 16);

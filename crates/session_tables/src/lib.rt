//! The tables of a session: the names with their objects, what the driver answered for objects, the births of what lives with their
//! owners, and the retrieved objects by their keys. Promises that each table holds the lists of the definitions, and that each
//! look-up answers what the definitions say of those lists.
//! Leaves to others what a call makes and ends, and in which order.
#![tactic(auto)]

mod beside_names;
mod birth_table;
mod dense;
mod filed_rows;
mod filed_type;
mod named_table;
mod object_places;
mod object_table;
mod own;
mod owned_lists;
mod owner_list;
mod owners;
mod placed_table;
mod retrieved_map;
mod retrieved_table;

pub use birth_table::BirthTable;
pub use named_table::NamedTable;
pub use object_places::ObjectPlaces;
pub use object_table::ObjectTable;
pub use own::own_object;
pub use owners::owner;
pub use retrieved_map::RetrievedKey;
pub use retrieved_table::RetrievedTable;

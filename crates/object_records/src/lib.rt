//! What a checking part of a layer keeps of the objects that it was told of, and the reading of a call by its handles.
//! Promises that each answer is that of the model's births and living objects, and that a call is read as pairs of a type and a handle.
//! Leaves to others which rules fail at a call, and what a call uses.
#![tactic(auto)]

mod births;
mod ends;
mod kept_owner;
mod kept_record;
mod link_table;
mod links;
mod living;
mod look_ups;
mod passed;
mod queue_links;
mod queues;
mod reading;
mod record;
mod record_list;
mod record_table;
mod records;

pub use reading::{argument_at, count_parameters, count_places, first_argument, object_of};
pub use records::ObjectRecords;

//! What all logs of a file's devices say in one order: a merge of the file's streams.
//! Promises that the entries of each thread stand there in the order in which it made them, that the events which they say are a merge, and that
//! what this has of each device is what the device's log says; and shows it of a small file by computation.
//! Leaves to others who makes the logs, and their order.
#![tactic(auto)]

mod laws;
mod rows;

pub use laws::{
    a_thread_stands_as_it_was_made, each_log_is_its_device_of_the_merge, logs_say_a_merge,
};

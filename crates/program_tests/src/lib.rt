//! Whole runs of both programs over memory: what drivers are told, sources, sinks and trees that fail, what is handed on when, and
//! threads that are inside at once. They stand apart, since a crate with tests is proved a second time with them. What a run prints
//! and says is shown by the stored cases of the built programs.
#![tactic(auto)]

#[cfg(test)]
mod alone;
#[cfg(test)]
mod block_tests;
#[cfg(test)]
mod conductor;
#[cfg(test)]
mod driver_table;
#[cfg(test)]
mod driver_tests;
#[cfg(test)]
mod ends;
#[cfg(test)]
mod fault_tests;
#[cfg(test)]
mod fixtures;
#[cfg(test)]
mod order_tests;
#[cfg(test)]
mod seat_tests;
#[cfg(test)]
mod sink_tests;
#[cfg(test)]
mod stream_tests;
#[cfg(test)]
mod threads;

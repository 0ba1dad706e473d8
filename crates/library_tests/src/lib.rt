//! Calls of the libraries below the session whose answers no stored run shows: a folder that fails within its names, room that stays
//! or is refused, and ticks that draw beside each other. They stand apart, since a crate with tests is proved a second time with them.
#![tactic(auto)]

#[cfg(test)]
mod adapter_tests;
#[cfg(test)]
mod clock_tests;
#[cfg(test)]
mod folder_tests;
#[cfg(test)]
mod room_tests;

//! Worked traces: small traces as they are written, with what they print and what they tell the drivers.
//! Promises each of them as the contract of an empty function, so that the definitions of what a trace means are tried by computation.
//! Leaves to others all code: no function here does anything.
#![tactic(auto)]

mod chains;
mod drivers;
mod loader;
mod objects;
mod stops;
mod threads;

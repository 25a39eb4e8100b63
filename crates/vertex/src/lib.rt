// The vertex part of create: slots and attributes judged in the reference's order, and the first fault answered.
#![tactic(auto)]

pub mod error;
pub mod layout;
mod locations;
mod reach;
pub mod step;

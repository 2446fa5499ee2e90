// The error locator: the rows of the crate decoding by their defects at the places to come, one pass over these for each place.
#![tactic(auto)]

pub mod begin;
pub mod choose;
pub mod den;
pub mod locate;
pub mod pass;
pub mod step;
pub mod turn;

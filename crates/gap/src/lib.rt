// How many tries there are, and the gap that they leave.
#![tactic(auto)]

pub mod gap;
pub mod left;
pub mod trusts;

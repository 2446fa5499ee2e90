// All multiples of a row tried in one pass over the places: each place is put right by one multiple only.
#![tactic(auto)]

pub mod choose;
pub mod gather;
pub mod multiples;

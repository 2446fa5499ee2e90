// The rows of the systematic generator matrix at picked places, one at a time: what they are made of is kept in the working space.
#![tactic(auto, using(crate::proofs::Few::few))]

pub mod base;
pub mod begin;
pub mod row;
pub mod sums;

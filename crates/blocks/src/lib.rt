// The operations on one block that need no interpolation.
#![tactic(auto)]

pub mod packing;
pub mod plain;

// The values of a function at many points.
#![tactic(auto)]

pub mod distinct;
pub mod lanes;
pub mod word;

// A second coder, for comparison alone: it solves the linear equations of a code by elimination and shares nothing with the engine but the field.
// An equation says that a function of k coefficients takes a given symbol at a given point.
#![tactic(auto)]

pub mod coder;
pub mod equations;
pub mod slices;

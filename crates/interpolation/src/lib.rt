// Interpolation on a curve over a list of places: what is written of it, and whether it takes the symbols.
#![tactic(auto)]

pub mod interpolate;
pub mod write;

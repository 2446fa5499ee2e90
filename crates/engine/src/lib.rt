// The engine: the pair of functions and the interpolant, one place further, over arrays of coefficients in weight order.
#![tactic(auto)]

pub mod pair;
pub mod places;
pub mod slices;

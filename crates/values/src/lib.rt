// The engine by values: L, U and the interpolant as lists of their values at points, which a step changes in one pass without evaluation.
#![tactic(auto)]

pub mod pair;
pub mod run;
pub mod sweep;
pub mod word;

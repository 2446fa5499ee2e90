// The operations over chosen places, and Plain, beside a second coder that solves the linear equations.
#![tactic(auto)]

pub mod compare;
pub mod trial;

// Two places in one pass over the values, where the second raises the function that the first one left. So it is but for a few places of a run.
#![tactic(auto)]

pub mod run;
pub mod turn;

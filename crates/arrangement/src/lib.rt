// The points in another order: those at the chosen places first, so that a loop over the others needs no test.
#![tactic(auto)]

pub mod arrange;

// Best: the cheapest codeword of so many tries.
#![tactic(auto, using(picked_rows::proofs::Few::few))]

pub mod figures;
pub mod operation;
pub mod run;
pub mod write;

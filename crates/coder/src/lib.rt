// The operations over places.
#![tactic(auto)]

pub mod pick;
pub mod rebuild;
pub mod recover;
pub mod relation;
pub mod systematic_function;
pub mod systematic_word;

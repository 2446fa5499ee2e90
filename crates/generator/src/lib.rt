// The rows of the generator matrix that is systematic at chosen places, all at once: a place costs a few products a row.
#![tactic(auto)]

pub mod advance;
pub mod entries;
pub mod factors;
pub mod indices;
pub mod run;

// Request S-1, Correct: the codeword that differs from n symbols in at most t places.
#![tactic(auto)]

pub mod kept;
pub mod operation;
pub mod run;
pub mod solve;

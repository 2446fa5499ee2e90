// What the operations over places have in common: their tests, whether places are dependent, and the function that is solved for.
#![tactic(auto)]

pub mod last_index;
pub mod last_zero;
pub mod prepare;
pub mod prepare_word;
pub mod restore;
pub mod solve;
pub mod solve_word;
pub mod tests;
pub mod words;
pub mod work;
pub mod zero;

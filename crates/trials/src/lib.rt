// What trials of the operations need: random numbers, codes, places, what a second coder finds of them, and tallies of what is compared.
#![tactic(auto)]

pub mod choose;
pub mod codes;
pub mod eighty;
pub mod lists;
pub mod memory;
pub mod random;
pub mod second;
pub mod small;
pub mod tally;

// Hourly means of readings, and their packing in the symbols of a block.
#![tactic(auto)]

mod bit_reader;
pub mod means;
pub mod packing;
pub mod rounding;

// The sheet language: reading a sheet's numbers, and writing lines of numbers.
#![tactic(auto)]

pub mod reading;
pub mod sheet;
pub mod writing;

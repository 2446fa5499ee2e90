// The rolling day mean: a running state by value, and the calls that keep it in 64 bytes.
#![tactic(auto)]

mod bytes;
pub mod calls;
mod mean;
pub mod state;
pub mod step;

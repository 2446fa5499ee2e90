// The code test, and the operations that rest on it alone.
#![tactic(auto)]

pub mod accepted;
pub mod heard;
pub mod lists;
pub mod test;

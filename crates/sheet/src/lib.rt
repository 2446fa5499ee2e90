// The job sheet: a text in, the text of the answer out.
#![tactic(auto)]

pub mod answer;
pub mod job;
pub mod writing;

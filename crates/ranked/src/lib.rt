// Places ranked by trust, and which of them are picked.
#![tactic(auto)]

pub mod pick;
pub mod rank;

// All tries of Best in their order: one place changed, then two. Of the tries only the best so far is kept, as the changes that it makes.
#![tactic(auto)]

pub mod amounts;
pub mod block;
pub mod pairs;
pub mod run;
pub mod singles;

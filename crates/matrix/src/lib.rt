// Matrix: the rows of the systematic generator matrix, and the operation.
#![tactic(auto)]

pub mod operation;
pub mod write;

// The sizes of a trial's lists and memory.

// What stands in memory that an operation is to write: no symbol of a field below 256 elements.
pub const UNWRITTEN: u8 = 238;

// The most points, places, symbols or coefficients.
pub const MOST: usize = 288;

// The most symbols of a matrix.
pub const MATRIX: usize = MOST * MOST;

// What an operation is lent to work in.
pub const WORKING: usize = 8192;

// The state of the random numbers with which the groups begin.
pub const SEED: u64 = 88172645463325252;

// Codes and codewords: document 01's definitions stand in specs/, and demands 2 and 3 as theorems in proofs/.
#![tactic(auto)]

use elliptic::Curve;

// What a code has beside its two coordinate lists: the field by its number, the curve, and the dimension k.
#[derive(Clone, Copy)]
pub struct Parameters {
    pub field: u8,
    pub curve: Curve,
    pub k: usize,
}

// Curves and points, and in specs/ and proofs/ the theory of functions on them.
#![tactic(auto)]

// The coefficients of Y² + typeof.g1.XY + typeof.g3.Y = X³ + typeof.g2.X² + typeof.g4.X + g6.
#[derive(Clone, Copy)]
pub struct Curve {
    pub g1: u8,
    pub g2: u8,
    pub g3: u8,
    pub g4: u8,
    pub g6: u8,
}

#[derive(Clone, Copy)]
pub struct Point {
    pub x: u8,
    pub y: u8,
}

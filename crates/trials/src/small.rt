// Two small codes of document 01: A is m = 2, curve 0,0,1,0,0, with eight points; B is m = 2, curve 1,0,0,0,1, with seven.
ghost use Rattle.std.specs.Prelude.{◌≡◌};

use codewords::Parameters;
use elliptic::Curve;

pub const CURVE_A: Curve = Curve {
    g1: 0,
    g2: 0,
    g3: 1,
    g4: 0,
    g6: 0,
};

pub const CURVE_B: Curve = Curve {
    g1: 1,
    g2: 0,
    g3: 0,
    g4: 0,
    g6: 1,
};

pub const XS_A: [u8; 8] = [0, 0, 1, 1, 2, 2, 3, 3];

pub const YS_A: [u8; 8] = [0, 1, 2, 3, 2, 3, 2, 3];

// The points of B, which the document does not list: (0, 1) is its own opposite, and the others are three pairs.
pub const XS_B: [u8; 7] = [0, 1, 1, 2, 2, 3, 3];

pub const YS_B: [u8; 7] = [1, 0, 1, 0, 2, 0, 3];

pub fn a(k: usize) -> Parameters
    ensures { result.k ≡ k }
{
    Parameters {
        field: 2,
        curve: CURVE_A,
        k,
    }
}

pub fn b(k: usize) -> Parameters
    ensures { result.k ≡ k }
{
    Parameters {
        field: 2,
        curve: CURVE_B,
        k,
    }
}

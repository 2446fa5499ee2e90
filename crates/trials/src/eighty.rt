// The curve 0,0,1,0,0 over 64 elements, which has 80 points.
ghost use Rattle.std.specs.Prelude.{◌≡◌};

use crate::memory::MOST;
use crate::small::CURVE_A;
use basics::Refusal;
use codewords::Parameters;
use curve::points;

// How many points are listed, and the first 80 of them.
#[derive(Clone, Copy)]
pub struct Eighty {
    pub count: usize,
    pub xs: [u8; 80],
    pub ys: [u8; 80],
}

pub fn code(k: usize) -> Parameters
    ensures { (result.field ≡ 6) × (result.curve ≡ CURVE_A) × (result.k ≡ k) }
{
    Parameters {
        field: 6,
        curve: CURVE_A,
        k,
    }
}

fn first_80(all: &[u8; MOST]) -> [u8; 80] {
    let mut list = [0; 80];
    list.copy_from_slice(&all[..80]);
    list
}

pub fn eighty_points() -> Result<Eighty, Refusal> {
    let mut all_x = [0; MOST];
    let mut all_y = [0; MOST];
    let count = points(6, CURVE_A, &mut all_x, &mut all_y)?;
    let xs = first_80(&all_x);
    let ys = first_80(&all_y);
    Ok(Eighty { count, xs, ys })
}

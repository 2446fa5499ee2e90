// Random codes over a field: a random curve, some of its points in a random order, and a random dimension.
ghost use Rattle.std.specs.Prelude.{◌≤◌, ◌<◌};

use crate::choose::{at_random, elements};
use crate::lists::gather;
use crate::memory::MOST;
use crate::random::{below, symbol};
use codewords::Parameters;
use curve::points;
use elliptic::Curve;

// A code of n points, which stand in front of the lists.
#[derive(Clone, Copy)]
pub struct Drawn {
    pub code: Parameters,
    pub n: usize,
    pub xs: [u8; MOST],
    pub ys: [u8; MOST],
    pub ghost small: { (code.k ≤ 288) × (n ≤ 288) },
}

fn random_curve(state: &mut u64, q: usize) -> Curve
    requires { 0 < q }
{
    Curve {
        g1: symbol(state, q),
        g2: symbol(state, q),
        g3: symbol(state, q),
        g4: symbol(state, q),
        g6: symbol(state, q),
    }
}

// A code of at most `most` points; none if the curve is singular or has less than two points.
pub fn draw_code(state: &mut u64, m: u8, most: usize) -> Option<Drawn> {
    let curve = random_curve(state, elements(m));
    let mut all_x = [0; MOST];
    let mut all_y = [0; MOST];
    let listed = points(m, curve, &mut all_x, &mut all_y).ok()?;
    let count = listed.min(MOST);
    if count < 2 {
        return None;
    }
    let n = most.min(2 + below(state, count - 1));
    if n < 2 {
        return None;
    }
    let mut order = [0; MOST];
    let mut xs = [0; MOST];
    let mut ys = [0; MOST];
    at_random(state, count, &mut order);
    gather(&all_x, &order, &mut xs);
    gather(&all_y, &order, &mut ys);
    let k = 1 + below(state, n - 1);
    let code = Parameters { field: m, curve, k };
    Some(Drawn { code, n, xs, ys })
}

// Two places at once: the first raises L, in l, and U, in u, which is then the shorter, is raised by the second.
ghost use Rattle.std.specs.Prelude.{◌≡◌, cond, true, ◌+◌, ◌<◌, ◌≤◌, ltb, length};
ghost use Rattle.elliptic.specs.Pair.{growth};
ghost use Rattle.engine.specs.Arrays.{Ordered};
ghost use Rattle.values.specs.Values.{Swept};
ghost use Rattle.two_places.specs.Turns.{raised_twice, gained_twice, IsFactors, Turns, Twice};

use engine::pair::{Sizes, grown, ordered, swapped};
use field::Field;
use values::pair::longer;

// The multiple of L that U gains by the first place, the value of that at the second, and the multiple of it that L gains there.
#[derive(Clone, Copy)]
pub struct Factors {
    pub t: u8,
    pub next: u8,
    pub s: u8,
}

pub fn find_factors(field: &Field, i: usize, xs: &[u8], l: &[u8], u: &[u8]) -> Factors
    requires i_in_bounds { (i + 1 < length xs.now) × (length l.now ≡ length xs.now) × (length u.now ≡ length xs.now) × (length xs.now ≤ 288) }
    ensures { IsFactors field.now.number xs.now i l.now u.now result }
{
    let t = field.quotient(u[i], l[i]);
    let k = i + 1;
    let ahead = l[k];
    let next = u[k] ^ field.product(t, ahead);
    let raised = field.product(xs[k] ^ xs[i], ahead);
    let s = field.quotient(raised, next);
    Factors { t, next, s }
}

// How many coefficients L and U have after a place where L is not zero.
pub fn after_step(low: usize, high: usize) -> Sizes
    requires { low + 2 ≤ 292 }
    ensures { Ordered (low + growth low) (cond (ltb high low) low high) result }
{
    ordered(grown(low), longer(low, high))
}

// Whether both can be made at once: U is the shorter after the first place, and neither function is zero at the point that raises it.
pub fn turns(z: Sizes, at: u8, w: Factors) -> bool
    ensures { result ≡ true → (z.turned ≡ true) × (at ≡ 0 → ⊥) × (w.next ≡ 0 → ⊥) }
{
    if at == 0 {
        return false;
    }
    if w.next == 0 {
        return false;
    }
    z.turned
}

// h gets (X + α)·h + s·d and g gets (X + β)·d, where d is g + t·h. Both are found before one is stored, so that nothing is read again.
pub fn sweep_twice(
    field: &Field,
    alpha: u8,
    t: u8,
    beta: u8,
    s: u8,
    from: usize,
    xs: &[u8],
    h: &mut [u8],
    g: &mut [u8],
)
    requires h_len { (length h.old ≡ length xs.now) × (length g.old ≡ length xs.now) × (length xs.now ≤ 288) }
    ensures { Swept (gained_twice field.now.number xs.now alpha t s h.old g.old) from h.old h.new
        × Swept (raised_twice field.now.number xs.now t beta h.old g.old) from g.old g.new }
{
    let by_t = field.logarithm(t);
    let by_s = field.logarithm(s);
    for i in from..xs.len() {
        let x = xs[i];
        let c = h[i];
        let d = g[i] ^ field.product_by_log(by_t, c);
        let gain = field.product_by_log(by_s, d);
        let high = field.product(x ^ alpha, c) ^ gain;
        let low = field.product(x ^ beta, d);
        h[i] = high;
        g[i] = low;
    }
}

// Both places, with indices i and i + 1. z is how many coefficients there are between them.
pub fn both_steps(
    field: &Field,
    i: usize,
    w: Factors,
    xs: &[u8],
    l: &mut [u8],
    u: &mut [u8],
    z: Sizes,
) -> Sizes
    requires i_in_bounds { (i + 1 < length xs.now) × (length xs.now ≤ 288) × (length l.old ≡ length xs.now) × (length u.old ≡ length xs.now) × (z.low + 2 ≤ 292) }
    requires turns { Turns field.now.number xs.now i l.old u.old w }
    ensures { Twice field.now.number xs.now i w.t l.old u.old z.low z.high l.new u.new result }
{
    let k = i + 1;
    sweep_twice(field, xs[i], w.t, xs[k], w.s, k + 1, xs, l, u);
    swapped(after_step(z.low, z.high))
}

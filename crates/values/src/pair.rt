// L and U by their values, and what one more place makes of them.
ghost use Rattle.std.specs.Prelude.{◌≡◌, cond, ◌<◌, length, ltb};
ghost use Rattle.values.specs.Values.{Steps, Passes, Fits};

use crate::sweep::{gain_raise, raise};
use engine::pair::{Sizes, grown, ordered};
use field::Field;

// How many coefficients the sum of two functions has.
pub fn longer(a: usize, b: usize) -> usize
    ensures { result ≡ cond (ltb b a) a b }
{
    if b < a { a } else { b }
}

// One more place, with index j: L is in l and U in u. What stands before the index `from` is needed no more.
pub fn pair_step(
    field: &Field,
    j: usize,
    from: usize,
    xs: &[u8],
    l: &mut [u8],
    u: &mut [u8],
    n: Sizes,
) -> Sizes
    requires j_in_bounds { (j < length xs.now) × Fits xs.now l.old u.old n }
    ensures { Steps field.now.number xs.now j from l.old u.old n.low n.high l.new u.new result
        × Passes field.now.number xs.now j from l.old u.old l.new u.new }
{
    let alpha = xs[j];
    let at = l[j];
    if at == 0 {
        raise(field, alpha, from, xs, u);
        return Sizes {
            low: n.low,
            high: grown(n.high),
            turned: false,
        };
    }
    let t = field.quotient(u[j], at);
    gain_raise(field, alpha, t, from, xs, l, u);
    ordered(grown(n.low), longer(n.low, n.high))
}

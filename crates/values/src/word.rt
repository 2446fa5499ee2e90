// L, U and the interpolant F by their values, and what one more place makes of them.
ghost use Rattle.std.specs.Prelude.{◌≡◌, cond, ◌<◌, length};
ghost use Rattle.values.specs.Values.{WordSteps, Fits};

use crate::pair::longer;
use crate::sweep::{gain_both_raise, gain_raise};
use engine::pair::{Sizes, grown, ordered, swapped};
use field::Field;

// One more place, with index j, where F is to be v: L is in l and U in u. What stands before the index `from` is needed no more.
pub fn word_step(
    field: &Field,
    j: usize,
    from: usize,
    v: u8,
    xs: &[u8],
    l: &mut [u8],
    u: &mut [u8],
    f: &mut [u8],
    n: Sizes,
) -> Sizes
    requires j_in_bounds { (j < length xs.now) × Fits xs.now l.old u.old n × (length f.old ≡ length xs.now) }
    ensures { WordSteps field.now.number xs.now j from v l.old u.old f.old n.low n.high l.new u.new f.new result }
{
    let alpha = xs[j];
    let missing = v ^ f[j];
    let at = l[j];
    if at == 0 {
        let e = field.quotient(missing, u[j]);
        gain_raise(field, alpha, e, from, xs, u, f);
        return Sizes {
            low: n.low,
            high: grown(n.high),
            turned: false,
        };
    }
    let t = field.quotient(u[j], at);
    let e = field.quotient(missing, at);
    gain_both_raise(field, alpha, t, e, from, xs, l, u, f);
    ordered(grown(n.low), longer(n.low, n.high))
}

// The same, with L and U in either array.
pub fn word_turn(
    field: &Field,
    j: usize,
    from: usize,
    v: u8,
    xs: &[u8],
    l: &mut [u8],
    u: &mut [u8],
    f: &mut [u8],
    n: Sizes,
) -> Sizes
    requires j_in_bounds { (j < length xs.now) × Fits xs.now l.old u.old n × (length f.old ≡ length xs.now) }
    ensures { WordSteps field.now.number xs.now j from v (cond n.turned u.old l.old) (cond n.turned l.old u.old) f.old n.low n.high
        l.new u.new f.new result }
{
    let turned = n.turned;
    if turned {
        return swapped(word_step(field, j, from, v, xs, u, l, f, n));
    }
    word_step(field, j, from, v, xs, l, u, f, n)
}

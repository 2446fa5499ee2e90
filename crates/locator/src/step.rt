// The rows after one place more, and after all of them. The second coordinates and the symbols go with the arrays for the contracts' sake.
ghost use Rattle.std.specs.Prelude.{suc, ◌<◌, length};
ghost use Rattle.locator.specs.Arrays.{Laid, After};

use crate::choose::{Heads, exchanged, lightest};
use crate::turn::{HEAD, Layout, turn};
use field::Field;

// One place more, with index i.
fn step(
    field: &Field,
    i: usize,
    shape: Layout,
    xs: &[u8],
    ys: &[u8],
    us: &[u8],
    hs: Heads,
    a: &mut [u8],
    b: &mut [u8],
    c: &mut [u8],
    d: &mut [u8],
) -> Heads
    requires laid { Laid shape xs.now ys.now us.now × (i < length xs.now) }
    requires after { After field.now.number shape xs.now ys.now us.now i hs a.old b.old c.old d.old }
    ensures { After field.now.number shape xs.now ys.now us.now (suc i) result a.new b.new c.new d.new }
{
    let o = HEAD + i;
    let best = lightest(shape.top, hs, a[o], b[o], c[o], d[o]);
    let at = best.at;
    if at == 0 {
        return turn(field, i, shape, xs, hs, a, b, c, d);
    }
    if at == 4 {
        return hs;
    }
    let first = exchanged(at, hs);
    if at == 1 {
        return exchanged(1, turn(field, i, shape, xs, first, b, a, c, d));
    }
    if at == 2 {
        return exchanged(2, turn(field, i, shape, xs, first, c, b, a, d));
    }
    exchanged(3, turn(field, i, shape, xs, first, d, b, c, a))
}

// All places.
pub fn run(
    field: &Field,
    shape: Layout,
    xs: &[u8],
    ys: &[u8],
    us: &[u8],
    hs: Heads,
    a: &mut [u8],
    b: &mut [u8],
    c: &mut [u8],
    d: &mut [u8],
) -> Heads
    requires laid { Laid shape xs.now ys.now us.now }
    requires after { After field.now.number shape xs.now ys.now us.now 0 hs a.old b.old c.old d.old }
    ensures { After field.now.number shape xs.now ys.now us.now (length xs.now) result a.new b.new c.new d.new }
{
    let mut heads = hs;
    for i in 0..xs.len() {
        heads = step(field, i, shape, xs, ys, us, heads, a, b, c, d);
    }
    heads
}

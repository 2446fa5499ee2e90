// The error locator by its values at all places: E of the lightest row after them.
ghost use Rattle.std.specs.Prelude.{◌≡◌, ◌≤◌, length, take};
ghost use Rattle.locator.specs.Arrays.{Laid, Below, FourLong, After, values_in, locator_of};

use crate::begin::begin;
use crate::choose::{Heads, lightest};
use crate::step::run;
use crate::turn::Layout;
use engine::slices::{clear, copy, value};
use field::Field;

// The values of f at all points.
fn write_values(field: &Field, xs: &[u8], ys: &[u8], f: &[u8], out: &mut [u8])
    requires ys_len { (length ys.now ≡ length xs.now) × (length xs.now ≤ length out.old) }
    ensures { take (length xs.now) out.new ≡ values_in field.now.number xs.now ys.now f.now }
{
    for i in 0..xs.len() {
        out[i] = value(field, xs[i], ys[i], f);
    }
}

// Those of E of the lightest row, to the front of a; zeros where there is no room for any.
fn write_locator(
    field: &Field,
    shape: Layout,
    xs: &[u8],
    ys: &[u8],
    us: &[u8],
    hs: Heads,
    a: &mut [u8],
    b: &mut [u8],
    c: &[u8],
    d: &[u8],
)
    requires laid { Laid shape xs.now ys.now us.now }
    requires after { After field.now.number shape xs.now ys.now us.now (length xs.now) hs a.old b.old c.now d.now }
    ensures { take (length xs.now) a.new ≡ values_in field.now.number xs.now ys.now (locator_of field.now.number shape xs.now ys.now us.now) }
{
    let best = lightest(shape.top, hs, 1, 1, 1, 1);
    let at = best.at;
    if at == 0 {
        let s = hs.a.size;
        copy(a, s, b);
        write_values(field, xs, ys, &b[..s], a);
        return;
    }
    if at == 1 {
        let s = hs.b.size;
        write_values(field, xs, ys, &b[..s], a);
        return;
    }
    if at == 2 {
        let s = hs.c.size;
        write_values(field, xs, ys, &c[..s], a);
        return;
    }
    if at == 3 {
        let s = hs.d.size;
        write_values(field, xs, ys, &d[..s], a);
        return;
    }
    let n = xs.len();
    clear(&mut a[..n]);
}

// The values of the error locator at all places, to the front of a. The arrays are lent for the rows.
pub fn locate(
    field: &Field,
    shape: Layout,
    xs: &[u8],
    ys: &[u8],
    us: &[u8],
    a: &mut [u8],
    b: &mut [u8],
    c: &mut [u8],
    d: &mut [u8],
)
    requires laid { Laid shape xs.now ys.now us.now × Below field.now.number ys.now × Below field.now.number us.now × FourLong (length xs.now) a.old b.old c.old d.old }
    ensures { take (length xs.now) a.new ≡ values_in field.now.number xs.now ys.now (locator_of field.now.number shape xs.now ys.now us.now) }
{
    let first = begin(field, shape, xs, ys, us, a, b, c, d);
    let hs = run(field, shape, xs, ys, us, first, a, b, c, d);
    write_locator(field, shape, xs, ys, us, hs, a, b, c, d);
}

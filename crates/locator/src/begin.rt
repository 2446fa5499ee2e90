// The rows before the first place: (1, 0), (Y, 0), (0, 1) and (0, Y).
ghost use Rattle.std.specs.Prelude.{◌≡◌, ◌+◌, ◌≤◌, length};
ghost use Rattle.locator.specs.Arrays.{Laid, Below, FourLong, After};
ghost use Rattle.locator.specs.First.{first_heads, FirstDefects, FirstDens};

use crate::choose::{Head, Heads};
use crate::turn::{HEAD, Layout};
use arrangement::arrange::fill_ones;
use engine::slices::copy;
use field::{Field, fill_products};

// Their defects.
fn begin_defects(
    field: &Field,
    ys: &[u8],
    us: &[u8],
    a: &mut [u8],
    b: &mut [u8],
    c: &mut [u8],
    d: &mut [u8],
)
    requires us_len { (length us.now ≡ length ys.now) × FourLong (length ys.now) a.old b.old c.old d.old }
    ensures { FirstDefects field.now.number ys.now us.now a.new b.new c.new d.new }
{
    let n = ys.len();
    fill_ones(&mut a[HEAD..]);
    copy(ys, n, &mut b[HEAD..]);
    copy(us, n, &mut c[HEAD..]);
    fill_products(field, ys, us, &mut d[HEAD..]);
}

// E of the two that have one.
fn begin_dens(c: &mut [u8], d: &mut [u8])
    requires { (3 ≤ length c.old) × (3 ≤ length d.old) }
    ensures { FirstDens c.old d.old c.new d.new }
{
    c[0] = 1;
    d[0] = 0;
    d[1] = 0;
    d[2] = 1;
}

// Their keys. There are three coefficients of E = Y, where there is room for them.
fn first_heads(shape: Layout) -> Heads
    requires { shape.k ≤ 500 }
    ensures { result ≡ first_heads shape.k shape.t }
{
    let k = shape.k;
    let room = if shape.t < 2 { 1 } else { 3 };
    Heads {
        a: Head { key: 0, size: 0 },
        b: Head { key: 6, size: 0 },
        c: Head {
            key: k + k + 1,
            size: 1,
        },
        d: Head {
            key: k + k + 7,
            size: room,
        },
    }
}

// All four.
pub fn begin(
    field: &Field,
    shape: Layout,
    xs: &[u8],
    ys: &[u8],
    us: &[u8],
    a: &mut [u8],
    b: &mut [u8],
    c: &mut [u8],
    d: &mut [u8],
) -> Heads
    requires laid { Laid shape xs.now ys.now us.now × Below field.now.number ys.now × Below field.now.number us.now × FourLong (length xs.now) a.old b.old c.old d.old }
    ensures { After field.now.number shape xs.now ys.now us.now 0 result a.new b.new c.new d.new }
{
    begin_defects(field, ys, us, a, b, c, d);
    begin_dens(c, d);
    first_heads(shape)
}

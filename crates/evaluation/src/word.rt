// The values at the points of a list: the two parts over each different first coordinate, and one product a point.
ghost use Rattle.std.specs.Prelude.{◌≡◌, ◌<◌, ◌≤◌, length};
ghost use Rattle.basics.specs.Lists.{table};
ghost use Rattle.engine.specs.Places.{value_at};
ghost use Rattle.evaluation.specs.Parts.{joined_at};

use crate::distinct::distinct;
use crate::lanes::split;
use field::Field;

// Each value by the two parts over its point's first coordinate.
fn join(field: &Field, xs: &[u8], ys: &[u8], a: &[u8; 256], b: &[u8; 256], out: &mut [u8])
    requires out_in_bounds { (length out.old ≤ length xs.now) × (length out.old ≤ length ys.now) }
    ensures { out.new ≡ table (joined_at field.now.number xs.now ys.now a.now b.now) (length out.old) }
{
    for i in 0..out.len() {
        let at = usize::from(xs[i]);
        out[i] = a[at] ^ field.product(ys[i], b[at]);
    }
}

// The values of f at the points with coordinates xs and ys.
pub fn write_word(field: &Field, xs: &[u8], ys: &[u8], f: &[u8], out: &mut [u8])
    requires out_in_bounds { (length out.old ≤ length xs.now) × (length out.old ≤ length ys.now) × (length xs.now ≤ 288) × (0 < length f.now) }
    ensures { out.new ≡ table (value_at field.now.number xs.now ys.now f.now) (length out.old) }
{
    let mut seen = [false; 256];
    let mut firsts = [0u8; 292];
    let mut a = [0u8; 256];
    let mut b = [0u8; 256];
    let count = distinct(xs, &mut seen, &mut firsts);
    split(field, f, &firsts, count, &mut a, &mut b);
    join(field, xs, ys, &a, &b, out);
}

// Whether the first k places are dependent, by the values of L at them.
ghost use Rattle.std.specs.Prelude.{◌≡◌, [], ◌-◌, ◌<◌, ◌≤◌, eqb, length};
ghost use Rattle.basics.specs.Lists.{table};
ghost use Rattle.field.specs.Galois.{galois};
ghost use Rattle.elliptic.specs.Pair.{after};
ghost use Rattle.code.specs.Shown.{shown};
ghost use Rattle.codewords.specs.Computed.{last_zero, points_of};
ghost use Rattle.engine.specs.Places.{value_at};
ghost use Rattle.values.specs.Values.{Coordinates, RunsFirst, points_in, one};
ghost use Rattle.solving.specs.Given.{Placed};

use crate::zero::zero_chosen;
use arrangement::arrange::fill_ones;
use basics::MessageIndex;
use code::accepted::Code;
use engine::places::gather;
use field::Field;
use two_places::run::run_pair;

// L of all points but the last is zero there. l and u hold L = 1 and U = Y.
fn zero_at_last(field: &Field, xs: &[u8], l: &mut [u8], u: &mut [u8]) -> bool
    requires coordinates { Coordinates field.now.number xs.now u.old × (l.old ≡ table one (length u.old)) }
    requires runs_first { RunsFirst field.now.number xs.now u.old (length xs.now - 1) × (0 < length xs.now) × (length xs.now ≤ 288) }
    ensures { result ≡ eqb (value_at field.now.number xs.now u.old (after (galois field.now.number) (points_in xs.now u.old) [] (length xs.now - 1)).low (length xs.now - 1)) 0 }
{
    let last = xs.len() - 1;
    let n = run_pair(field, xs, last, l, u);
    zero_chosen(MessageIndex(last), l, u, n)
}

// L of the first k − 1 places is zero at the k-th. Arrays are lent for the first coordinates and for the pair.
fn last_zero_in(code: &Code, places: &[u16], gx: &mut [u8], l: &mut [u8], u: &mut [u8]) -> bool
    requires placed { Placed (shown code.now) places.now × (code.now.k ≤ length places.now) }
    requires gx_len { (length gx.old ≡ code.now.k) × (length l.old ≡ code.now.k) × (length u.old ≡ code.now.k) }
    ensures { result ≡ last_zero (galois code.now.field.now.number) code.now.k (points_of (shown code.now) places.now) [] }
{
    gather(places, code.xs, gx);
    gather(places, code.ys, u);
    fill_ones(l);
    zero_at_last(code.field, gx, l, u)
}

// The same with arrays of its own: 864 bytes.
pub fn last_zero(code: &Code, places: &[u16]) -> bool
    requires placed { Placed (shown code.now) places.now × (code.now.k ≤ length places.now) }
    ensures { result ≡ last_zero (galois code.now.field.now.number) code.now.k (points_of (shown code.now) places.now) [] }
{
    let k = code.k;
    let mut gx = [0u8; 288];
    let mut l = [0u8; 288];
    let mut u = [0u8; 288];
    last_zero_in(code, places, &mut gx[..k], &mut l[..k], &mut u[..k])
}

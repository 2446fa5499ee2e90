// The function that takes the symbols at k places: at the first k or, where these are dependent, with the next in place of the last.
ghost use Rattle.std.specs.Prelude.{cond, ◌≤◌, length, take};
ghost use Rattle.basics.specs.Lists.{Holds};
ghost use Rattle.field.specs.Galois.{galois};
ghost use Rattle.elliptic.specs.Pair.{corrected, padded};
ghost use Rattle.code.specs.Shown.{shown};
ghost use Rattle.engine.specs.Arrays.{Long, Room, WordRoom};
ghost use Rattle.engine.specs.Places.{point_of, IsPlace};
ghost use Rattle.solving.specs.Given.{Posed, Solving, HoldsFunction};

use crate::last_index::last_index;
use crate::zero::zero_at;
use basics::{MessageIndex, Place};
use code::accepted::Code;
use engine::pair::{Lengths, extend};
use engine::places::{chosen_place, message_symbol, point_at};
use field::Field;
use interpolation::interpolate::{finish, run};

// F, in f, gains the multiple of L that makes its value at the place v, and becomes k coefficients.
fn finish_at(
    field: &Field,
    xs: &[u8],
    ys: &[u8],
    place: Place,
    v: u8,
    k: usize,
    l: &[u8],
    u: &[u8],
    f: &mut [u8],
    n: Lengths,
)
    requires place { IsPlace xs.now ys.now place.0 × Room l.now u.now n.pair × WordRoom f.old n × (n.pair.low ≤ k) × (n.word ≤ k) × (k ≤ length f.old) }
    ensures { Holds f.new k
        (padded k (corrected (galois field.now.number) (point_of xs.now ys.now place.0) v (take n.pair.low (cond n.pair.turned u.now l.now)) (take n.word f.old))) }
{
    let p = point_at(xs, ys, place);
    let size = finish(field, p, v, l, u, f, n);
    extend(f, size, k);
}

// The function, to the first k of f. There is none where there are k places that are dependent. Two arrays are lent for the pair.
fn solve_in(
    code: &Code,
    places: &[u16],
    symbols: &[u8],
    l: &mut [u8],
    u: &mut [u8],
    f: &mut [u8],
) -> bool
    requires posed { Posed (shown code.now) places.now symbols.now × Long l.old u.old × (292 ≤ length f.old) }
    ensures { Solving (shown code.now) places.now
        (HoldsFunction (shown code.now) places.now symbols.now f.new) result }
{
    let k = code.k;
    let count = k - 1;
    let n = run(
        code.field, code.xs, code.ys, places, symbols, count, l, u, f,
    );
    let place = chosen_place(places, MessageIndex(count));
    let zero = zero_at(code.field, code.xs, code.ys, place, l, u, n.pair);
    let last = last_index(k, zero);
    if last.0 == places.len() {
        return false;
    }
    let at = chosen_place(places, last);
    let v = message_symbol(symbols, last);
    finish_at(code.field, code.xs, code.ys, at, v, k, l, u, f, n);
    true
}

// The same with arrays of its own.
pub fn solve(code: &Code, places: &[u16], symbols: &[u8], f: &mut [u8]) -> bool
    requires posed { Posed (shown code.now) places.now symbols.now × (292 ≤ length f.old) }
    ensures { Solving (shown code.now) places.now
        (HoldsFunction (shown code.now) places.now symbols.now f.new) result }
{
    let mut l = [0u8; 292];
    let mut u = [0u8; 292];
    solve_in(code, places, symbols, &mut l, &mut u, f)
}

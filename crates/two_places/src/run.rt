// The pair of the first points of a list, two points at a time where that can be.
ghost use Rattle.std.specs.Prelude.{◌≡◌, cond, [], ◌+◌, ◌<◌, ◌≤◌, length};
ghost use Rattle.basics.specs.Lists.{table};
ghost use Rattle.field.specs.Galois.{galois};
ghost use Rattle.elliptic.specs.Pair.{after};
ghost use Rattle.values.specs.Values.{ShownIn, Coordinates, RunsFirst, Fits, points_in, one};
ghost use Rattle.two_places.specs.Turns.{Advances};

use crate::turn::{after_step, both_steps, find_factors, turns};
use engine::pair::{Sizes, first_sizes, swapped};
use field::Field;
use values::pair::pair_step;

// How many points of a run are done, and how many coefficients L and U have then.
#[derive(Clone, Copy)]
pub struct Done {
    pub count: usize,
    pub sizes: Sizes,
}

// One point more, with index i: L is in l and U in u.
fn advance_one(
    field: &Field,
    i: usize,
    count: usize,
    xs: &[u8],
    l: &mut [u8],
    u: &mut [u8],
    n: Sizes,
) -> Done
    requires i_lt_count { (i < count) × (count ≤ length xs.now) × (length xs.now ≤ 288) × Fits xs.now l.old u.old n }
    ensures { Advances field.now.number xs.now i count l.old u.old n.low n.high l.new u.new result.count result.sizes }
{
    let k = i + 1;
    let sizes = pair_step(field, i, k, xs, l, u, n);
    Done { count: k, sizes }
}

// Two points more, where the second raises the function that the first one left, or else one.
fn advance_two(
    field: &Field,
    i: usize,
    count: usize,
    xs: &[u8],
    l: &mut [u8],
    u: &mut [u8],
    n: Sizes,
) -> Done
    requires i_bound { (i + 1 < count) × (count ≤ length xs.now) × (length xs.now ≤ 288) × Fits xs.now l.old u.old n }
    ensures { Advances field.now.number xs.now i count l.old u.old n.low n.high l.new u.new result.count result.sizes }
{
    let z = after_step(n.low, n.high);
    let w = find_factors(field, i, xs, l, u);
    if !turns(z, l[i], w) {
        return advance_one(field, i, count, xs, l, u, n);
    }
    let sizes = both_steps(field, i, w, xs, l, u, z);
    let k = i + 1;
    Done {
        count: k + 1,
        sizes,
    }
}

// One point more or two.
fn advance(
    field: &Field,
    i: usize,
    count: usize,
    xs: &[u8],
    l: &mut [u8],
    u: &mut [u8],
    n: Sizes,
) -> Done
    requires i_lt_count { (i < count) × (count ≤ length xs.now) × (length xs.now ≤ 288) × Fits xs.now l.old u.old n }
    ensures { Advances field.now.number xs.now i count l.old u.old n.low n.high l.new u.new result.count result.sizes }
{
    if i + 1 < count {
        return advance_two(field, i, count, xs, l, u, n);
    }
    advance_one(field, i, count, xs, l, u, n)
}

// The same, with L and U in either array.
fn advance_turn(
    field: &Field,
    i: usize,
    count: usize,
    xs: &[u8],
    l: &mut [u8],
    u: &mut [u8],
    n: Sizes,
) -> Done
    requires i_lt_count { (i < count) × (count ≤ length xs.now) × (length xs.now ≤ 288) × Fits xs.now l.old u.old n }
    ensures { Advances field.now.number xs.now i count (cond n.turned u.old l.old) (cond n.turned l.old u.old) n.low n.high
        l.new u.new result.count result.sizes }
{
    let turned = n.turned;
    if turned {
        let d = advance(field, i, count, xs, u, l, n);
        return Done {
            count: d.count,
            sizes: swapped(d.sizes),
        };
    }
    advance(field, i, count, xs, l, u, n)
}

// The pair of the first points of a list, by its values at the later ones.
// l holds the values of L = 1, and u the second coordinates, which are the values of U = Y.
pub fn run_pair(field: &Field, xs: &[u8], count: usize, l: &mut [u8], u: &mut [u8]) -> Sizes
    requires coordinates { Coordinates field.now.number xs.now u.old × (l.old ≡ table one (length u.old)) × (length xs.now ≤ 288) }
    requires runs_first { RunsFirst field.now.number xs.now u.old count }
    ensures { ShownIn field.now.number xs.now u.old count l.new u.new result
        (after (galois field.now.number) (points_in xs.now u.old) [] count) }
{
    let mut n = first_sizes();
    // a turn adds one point or two
    let mut i = 0;
    while i < count {
        let d = advance_turn(field, i, count, xs, l, u, n);
        n = d.sizes;
        i = d.count;
    }
    n
}

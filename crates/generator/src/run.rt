// The rows of all points but the last, after which it is known whether they are dependent.
ghost use Rattle.std.specs.Prelude.{◌≡◌, ◌-◌, ◌≤◌, length};
ghost use Rattle.values.specs.Values.{ShownIn, Coordinates, RunsFirst};
ghost use Rattle.generator.specs.Rows.{RowLists, Able, Rows, pair_after};

use crate::advance::advance_turn;
use arrangement::arrange::fill_ones;
use basics::MessageIndex;
use engine::pair::{Sizes, first_sizes};
use field::Field;

// The factors of the rows of all but the last of the first count points, and L and U by their values at the points from that one on.
// u holds the second coordinates, which are the values of U = Y.
pub fn run_rows(
    field: &Field,
    xs: &[u8],
    count: usize,
    l: &mut [u8],
    u: &mut [u8],
    a: &mut [u8],
    b: &mut [u8],
) -> Sizes
    requires coordinates { Coordinates field.now.number xs.now u.old × (length l.old ≡ length xs.now) × RowLists xs.now a.old b.old count × (1 ≤ count) × (length xs.now ≤ 288) }
    requires runs_first { RunsFirst field.now.number xs.now u.old count × Able field.now.number xs.now u.old count }
    ensures { ShownIn field.now.number xs.now u.old (count - 1) l.new u.new result (pair_after field.now.number xs.now u.old (count - 1))
        × Rows field.now.number xs.now u.old count l.new u.new a.new b.new (count - 1) }
{
    fill_ones(l);
    let mut n = first_sizes();
    let last = count - 1;
    // a turn adds one point or two
    let mut i = 0;
    while i < last {
        let d = advance_turn(field, MessageIndex(i), last, xs, l, u, a, b, n);
        n = d.sizes;
        i = d.count;
    }
    n
}

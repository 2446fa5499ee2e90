// The rows with one more point or two, as two_places has it for the pair alone.
ghost use Rattle.std.specs.Prelude.{◌≡◌, cond, ◌+◌, ◌<◌, ◌≤◌, length};
ghost use Rattle.values.specs.Values.{Fits};
ghost use Rattle.two_places.specs.Turns.{Turns};
ghost use Rattle.generator.specs.Rows.{RowLists};
ghost use Rattle.generator.specs.Advance.{BothRows, RowsAdvance};

use crate::factors::{raise_rows, rows_step};
use basics::MessageIndex;
use engine::pair::{Sizes, swapped};
use field::Field;
use two_places::run::Done;
use two_places::turn::{Factors, after_step, both_steps, find_factors, turns};

// Two points more, the first of which raises L, in l, and the second U, in u. z is how many coefficients there are between them.
fn both_rows(
    field: &Field,
    index: MessageIndex,
    w: Factors,
    xs: &[u8],
    l: &mut [u8],
    u: &mut [u8],
    a: &mut [u8],
    b: &mut [u8],
    z: Sizes,
) -> Sizes
    requires row_lists { RowLists xs.now a.old b.old (index.0 + 1 + 1) × (length xs.now ≤ 288) × (length l.old ≡ length xs.now) × (length u.old ≡ length xs.now) × (z.low + 2 ≤ 292) }
    requires turns { Turns field.now.number xs.now index.0 l.old u.old w }
    ensures { BothRows field.now.number index.0 w.t xs.now l.old u.old a.old b.old z.low z.high
        l.new u.new a.new b.new result }
{
    let i = index.0;
    raise_rows(field, index, l[i], w.t, xs, a, b);
    let next = MessageIndex(i + 1);
    raise_rows(field, next, w.next, w.s, xs, b, a);
    both_steps(field, i, w, xs, l, u, z)
}

// One point more: L is in l and U in u.
fn advance_one(
    field: &Field,
    index: MessageIndex,
    limit: usize,
    xs: &[u8],
    l: &mut [u8],
    u: &mut [u8],
    a: &mut [u8],
    b: &mut [u8],
    n: Sizes,
) -> Done
    requires index_lt_limit { (index.0 < limit) × (limit ≤ length xs.now) × Fits xs.now l.old u.old n × RowLists xs.now a.old b.old limit × (length xs.now ≤ 288) }
    ensures { RowsAdvance field.now.number index.0 limit xs.now l.old u.old a.old b.old n.low n.high
        l.new u.new a.new b.new result.count result.sizes }
{
    let i = index.0;
    let k = i + 1;
    let sizes = rows_step(field, index, xs, l, u, a, b, n);
    Done { count: k, sizes }
}

// Two points more, where the second raises the function that the first one left, or else one.
fn advance_two(
    field: &Field,
    index: MessageIndex,
    limit: usize,
    xs: &[u8],
    l: &mut [u8],
    u: &mut [u8],
    a: &mut [u8],
    b: &mut [u8],
    n: Sizes,
) -> Done
    requires index_bound { (index.0 + 1 < limit) × (limit ≤ length xs.now) × Fits xs.now l.old u.old n × RowLists xs.now a.old b.old limit × (length xs.now ≤ 288) }
    ensures { RowsAdvance field.now.number index.0 limit xs.now l.old u.old a.old b.old n.low n.high
        l.new u.new a.new b.new result.count result.sizes }
{
    let i = index.0;
    let z = after_step(n.low, n.high);
    let w = find_factors(field, i, xs, l, u);
    if !turns(z, l[i], w) {
        return advance_one(field, index, limit, xs, l, u, a, b, n);
    }
    let k = i + 1;
    let sizes = both_rows(field, index, w, xs, l, u, a, b, z);
    Done {
        count: k + 1,
        sizes,
    }
}

// One point more or two.
fn advance(
    field: &Field,
    index: MessageIndex,
    limit: usize,
    xs: &[u8],
    l: &mut [u8],
    u: &mut [u8],
    a: &mut [u8],
    b: &mut [u8],
    n: Sizes,
) -> Done
    requires index_lt_limit { (index.0 < limit) × (limit ≤ length xs.now) × Fits xs.now l.old u.old n × RowLists xs.now a.old b.old limit × (length xs.now ≤ 288) }
    ensures { RowsAdvance field.now.number index.0 limit xs.now l.old u.old a.old b.old n.low n.high
        l.new u.new a.new b.new result.count result.sizes }
{
    let i = index.0;
    if i + 1 < limit {
        return advance_two(field, index, limit, xs, l, u, a, b, n);
    }
    advance_one(field, index, limit, xs, l, u, a, b, n)
}

// The same, with L and U in either array.
pub fn advance_turn(
    field: &Field,
    index: MessageIndex,
    limit: usize,
    xs: &[u8],
    l: &mut [u8],
    u: &mut [u8],
    a: &mut [u8],
    b: &mut [u8],
    n: Sizes,
) -> Done
    requires index_lt_limit { (index.0 < limit) × (limit ≤ length xs.now) × Fits xs.now l.old u.old n × RowLists xs.now a.old b.old limit × (length xs.now ≤ 288) }
    ensures { RowsAdvance field.now.number index.0 limit xs.now (cond n.turned u.old l.old) (cond n.turned l.old u.old)
        (cond n.turned b.old a.old) (cond n.turned a.old b.old) n.low n.high
        l.new u.new a.new b.new result.count result.sizes }
{
    let turned = n.turned;
    if turned {
        let d = advance(field, index, limit, xs, u, l, b, a, n);
        return Done {
            count: d.count,
            sizes: swapped(d.sizes),
        };
    }
    advance(field, index, limit, xs, l, u, a, b, n)
}

// The rows of the matrix while points are added: of each row's function f the factors a and b for which (X + x)·f is a·l + b·u at the points still to
// come. So a point costs two products a row, whatever the number of points. The chosen points stand first, in the order of their places, so the index of
// one that is added is its message index.
ghost use Rattle.std.specs.Prelude.{◌≡◌, cond, ◌+◌, ◌<◌, ◌≤◌, length};
ghost use Rattle.values.specs.Values.{Sweeping, Steps, Fits};
ghost use Rattle.generator.specs.Rows.{total, multiple_at, Over, RowLists, RowsRaised, RowsEither, RowsStep, raised_of};

use basics::MessageIndex;
use engine::pair::{Sizes, swapped};
use field::Field;
use values::pair::pair_step;

// The sum of the multiples that rows have at a point, and the index of a row whose coordinate is the point's, or the number of the rows.
#[derive(Clone, Copy)]
struct Multiples {
    sum: u8,
    over: usize,
}

// The multiples of the raised function that the first rows have at a point, each in place of its factor.
fn take_multiples(
    field: &Field,
    alpha: u8,
    t: u8,
    count: usize,
    xs: &[u8],
    a: &mut [u8],
    b: &[u8],
) -> Multiples
    requires row_lists { RowLists xs.now a.old b.now count × (length xs.now ≤ 288) }
    ensures { Sweeping (multiple_at field.now.number alpha t xs.now a.old b.now) 0 count a.old a.new
        × (result.sum ≡ total (multiple_at field.now.number alpha t xs.now a.old b.now) count) × Over xs.now count alpha result.over }
{
    let by_t = field.logarithm(t);
    let mut sum = 0u8;
    let mut over = count;
    for j in 0..count {
        let x = xs[j];
        let top = a[j] ^ field.product_by_log(by_t, b[j]);
        let e = field.quotient(top, alpha ^ x);
        a[j] = e;
        sum = sum ^ e;
        if x == alpha {
            over = j;
        }
    }
    Multiples { sum, over }
}

// The rows so far with one more point, and its own row, where the function that is raised is rc and the other t·rc.
pub fn raise_rows(
    field: &Field,
    index: MessageIndex,
    rc: u8,
    t: u8,
    xs: &[u8],
    a: &mut [u8],
    b: &mut [u8],
)
    requires row_lists { RowLists xs.now a.old b.old (index.0 + 1) × (length xs.now ≤ 288) }
    ensures { RowsRaised field.now.number index.0 rc t xs.now a.old b.old a.new b.new }
{
    let i = index.0;
    let alpha = xs[i];
    let own = field.inverse(rc);
    let others = take_multiples(field, alpha, t, i, xs, a, b);
    let sum = others.sum;
    let o = others.over;
    a[o] = own ^ sum;
    a[i] = own;
    b[i] = 0;
}

// The rows so far with one more point, and its own row, before L, in l, and U, in u, change.
fn raise_either(
    field: &Field,
    index: MessageIndex,
    xs: &[u8],
    l: &[u8],
    u: &[u8],
    a: &mut [u8],
    b: &mut [u8],
)
    requires l_len { (length l.now ≡ length xs.now) × (length u.now ≡ length xs.now) × RowLists xs.now a.old b.old (index.0 + 1) × (length xs.now ≤ 288) }
    ensures { RowsEither field.now.number index.0 xs.now l.now u.now a.old b.old a.new b.new }
{
    let i = index.0;
    let low = l[i];
    let high = u[i];
    if low == 0 {
        raise_rows(field, index, high, 0, xs, b, a);
        return;
    }
    let t = field.quotient(high, low);
    raise_rows(field, index, low, t, xs, a, b);
}

// The rows so far with one more point: L is in l and U in u.
pub fn rows_step(
    field: &Field,
    index: MessageIndex,
    xs: &[u8],
    l: &mut [u8],
    u: &mut [u8],
    a: &mut [u8],
    b: &mut [u8],
    n: Sizes,
) -> Sizes
    requires fits { Fits xs.now l.old u.old n × RowLists xs.now a.old b.old (index.0 + 1) × (length xs.now ≤ 288) }
    ensures { Steps field.now.number xs.now index.0 (index.0 + 1) l.old u.old n.low n.high l.new u.new result
        × RowsStep field.now.number index.0 xs.now (raised_of index.0 l.old u.old) l.old u.old a.old b.old
        l.new u.new a.new b.new }
{
    raise_either(field, index, xs, l, u, a, b);
    let i = index.0;
    pair_step(field, i, i + 1, xs, l, u, n)
}

// The same, with L and U in either array.
pub fn rows_turn(
    field: &Field,
    index: MessageIndex,
    xs: &[u8],
    l: &mut [u8],
    u: &mut [u8],
    a: &mut [u8],
    b: &mut [u8],
    n: Sizes,
) -> Sizes
    requires fits { Fits xs.now l.old u.old n × RowLists xs.now a.old b.old (index.0 + 1) × (length xs.now ≤ 288) }
    ensures { Steps field.now.number xs.now index.0 (index.0 + 1) (cond n.turned u.old l.old) (cond n.turned l.old u.old) n.low n.high
        l.new u.new result
        × RowsStep field.now.number index.0 xs.now (raised_of index.0 (cond n.turned u.old l.old) (cond n.turned l.old u.old))
        l.old u.old a.old b.old l.new u.new a.new b.new }
{
    let turned = n.turned;
    if turned {
        return swapped(rows_step(field, index, xs, u, l, b, a, n));
    }
    rows_step(field, index, xs, l, u, a, b, n)
}

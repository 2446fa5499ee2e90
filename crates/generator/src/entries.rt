// The entries of a row of the matrix, by its factors. A row is that of a unit message, and so has a message index. All rows together are 1 at every
// point: the one over a point's coordinate gets what the sum of the others leaves there, once they are all written.
ghost use Rattle.std.specs.Prelude.{◌≡◌, ◌<◌, ◌≤◌, length, get_or, replicate};
ghost use Rattle.field.specs.Sum.{◌⊕◌};
ghost use Rattle.field.specs.Galois.{product, inverse};
ghost use Rattle.field.specs.Tables.{IsLog, product_by_log};
ghost use Rattle.generator.specs.Rows.{Factor, Slots, Filled, Completed};

use crate::indices::index_in;
use basics::{MessageIndex, Place};
use engine::places::index_of;
use field::{Field, add};

// The logarithm of a factor, which a row looks up once.
fn factor(field: &Field, a: u8) -> u16
    ensures { Factor field.now.number a result }
{
    field.logarithm(a)
}

// What a row's factors, which have the logarithms la and lb, give it at a point where L and U are v and w; d is the sum of their coordinates.
fn part(field: &Field, la: u16, lb: u16, v: u8, w: u8, d: u8) -> u8
    requires { IsLog field.now.number la × IsLog field.now.number lb }
    ensures { result ≡ product field.now.number (product_by_log field.now.number la v ⊕ product_by_log field.now.number lb w) (inverse field.now.number d) }
{
    let top = add(field.product_by_log(la, v), field.product_by_log(lb, w));
    field.quotient(top, d)
}

// The parts of a row with first coordinate x, each at the index of its point, and added to the sum there.
fn fill_parts(
    field: &Field,
    index: MessageIndex,
    la: u16,
    lb: u16,
    count: usize,
    xs: &[u8],
    l: &[u8],
    u: &[u8],
    a: &[u8],
    b: &[u8],
    sums: &mut [u8],
    row: &mut [u8],
)
    requires slots { Slots count xs.now a.now b.now sums.old row.old × (length l.now ≡ length xs.now) × (length u.now ≡ length xs.now) × (index.0 < count) }
    requires factor { Factor field.now.number (get_or a.now index.0 0) la × Factor field.now.number (get_or b.now index.0 0) lb × (row.old ≡ replicate (length xs.now) 0) }
    ensures { Filled field.now.number index.0 count xs.now l.now u.now a.now b.now sums.old sums.new row.new }
{
    let j = index.0;
    let x = xs[j];
    for s in count..xs.len() {
        let e = part(field, la, lb, l[s], u[s], xs[s] ^ x);
        let i = index_in(a, b, s);
        row[i] = e;
        sums[s] = sums[s] ^ e;
    }
}

// The row of a message index, which is clear, but for its own place and a point over its own coordinate: there it stays 0.
pub fn fill_row(
    field: &Field,
    index: MessageIndex,
    count: usize,
    xs: &[u8],
    l: &[u8],
    u: &[u8],
    a: &[u8],
    b: &[u8],
    sums: &mut [u8],
    row: &mut [u8],
)
    requires slots { Slots count xs.now a.now b.now sums.old row.old × (length l.now ≡ length xs.now) × (length u.now ≡ length xs.now) × (index.0 < count)
        × (row.old ≡ replicate (length xs.now) 0) }
    ensures { Filled field.now.number index.0 count xs.now l.now u.now a.now b.now sums.old sums.new row.new }
{
    let j = index.0;
    let la = factor(field, a[j]);
    let lb = factor(field, b[j]);
    fill_parts(field, index, la, lb, count, xs, l, u, a, b, sums, row);
}

// The sum of all rows at a point over the coordinate of this one is its entry there, and 1 that at its own place.
pub fn complete_row(
    index: MessageIndex,
    place: Place,
    count: usize,
    xs: &[u8],
    a: &[u8],
    b: &[u8],
    sums: &[u8],
    row: &mut [u8],
)
    requires { Slots count xs.now a.now b.now sums.now row.old × (index.0 < count) × (1 ≤ place.0) × (place.0 ≤ length xs.now) }
    ensures { Completed index.0 count place.0 xs.now a.now b.now sums.now row.old row.new }
{
    let j = index.0;
    let x = xs[j];
    for s in count..xs.len() {
        if xs[s] == x {
            let i = index_in(a, b, s);
            row[i] = sums[s];
        }
    }
    row[index_of(place)] = 1;
}

// What all rows leave of 1 at each free point, to the working space.
ghost use Rattle.std.specs.Prelude.{◌≡◌, ◌≤◌, length};
ghost use Rattle.code.specs.Shown.{shown};
ghost use Rattle.generator.specs.Rows.{Slots};
ghost use Rattle.picked_rows.specs.Stored.{Stored, Spared, Left, LeftIn, Summed};

use crate::begin::store;
use arrangement::arrange::fill_ones;
use basics::MessageIndex;
use code::accepted::Code;
use engine::slices::clear;
use field::Field;
use generator::entries::fill_row;

// The rows are filled one after the other, in one array, for what they add to the sums.
fn sum_rows(
    field: &Field,
    k: usize,
    px: &[u8],
    l: &[u8],
    u: &[u8],
    a: &[u8],
    b: &[u8],
    sums: &mut [u8],
    row: &mut [u8],
)
    requires slots { Slots k px.now a.now b.now sums.old row.old × (length l.now ≡ length px.now) × (length u.now ≡ length px.now) }
    ensures { Left field.now.number k px.now l.now u.now a.now b.now sums.new }
{
    fill_ones(sums);
    for i in 0..k {
        clear(row);
        fill_row(field, MessageIndex(i), k, px, l, u, a, b, sums, row);
    }
}

// The same, of what the working space holds.
fn sum_stored(code: &Code, places: &[u16], work: &[u8], sums: &mut [u8], row: &mut [u8])
    requires stored { Stored (shown code.now) places.now work.now × (length sums.old ≡ length code.now.xs.now) × (length row.old ≡ length code.now.xs.now) }
    ensures { LeftIn (shown code.now) work.now sums.new }
{
    let n = code.xs.len();
    let n2 = n + n;
    let n3 = n2 + n;
    let n4 = n3 + n;
    let n5 = n4 + n;
    sum_rows(
        code.field,
        code.k,
        &work[..n],
        &work[n..n2],
        &work[n2..n3],
        &work[n3..n4],
        &work[n4..n5],
        sums,
        row,
    );
}

// To the sixth array of the working space. An array is lent for the sums while they are computed.
pub fn store_sums(code: &Code, places: &[u16], sums: &mut [u8], work: &mut [u8])
    requires stored { Stored (shown code.now) places.now work.old × (length sums.old ≡ length code.now.xs.now) }
    ensures { Summed (shown code.now) places.now work.new
        × Spared (length code.now.xs.now) work.old work.new }
{
    let n = code.xs.len();
    let mut row = [0u8; 288];
    sum_stored(code, places, work, sums, &mut row[..n]);
    store(sums, 5, work);
}

// A row of the matrix, from what the working space holds.
ghost use Rattle.std.specs.Prelude.{◌≡◌, ◌<◌, ◌≤◌, length};
ghost use Rattle.code.specs.Shown.{shown};
ghost use Rattle.codewords.specs.Codewords.{row};
ghost use Rattle.generator.specs.Rows.{Slots};
ghost use Rattle.solving.specs.Given.{Works};
ghost use Rattle.picked_rows.specs.Stored.{Left, Summed, Writes};

use basics::{MessageIndex, Place};
use code::accepted::Code;
use engine::places::chosen_place;
use engine::slices::clear;
use field::Field;
use generator::entries::{complete_row, fill_row};

// The row of an index, in a clear array. What filling it adds to sums goes to an array that is lent for that.
fn write_row(
    field: &Field,
    index: MessageIndex,
    place: Place,
    k: usize,
    px: &[u8],
    l: &[u8],
    u: &[u8],
    a: &[u8],
    b: &[u8],
    sums: &[u8],
    spare: &mut [u8],
    row: &mut [u8],
)
    requires slots { Slots k px.now a.now b.now sums.now row.old × (length l.now ≡ length px.now) × (length u.now ≡ length px.now) × (length spare.old ≡ length px.now)
        × (index.0 < k) × (1 ≤ place.0) × (place.0 ≤ length px.now) × Left field.now.number k px.now l.now u.now a.now b.now sums.now }
    ensures { Writes field.now.number k index.0 place.0 px.now l.now u.now a.now b.now row.new }
{
    clear(row);
    fill_row(field, index, k, px, l, u, a, b, spare, row);
    complete_row(index, place, k, px, a, b, sums, row);
}

// The same, of what the working space holds.
pub fn picked_row(code: &Code, places: &[u16], work: &[u8], index: MessageIndex, out: &mut [u8])
    requires works { Works (shown code.now) places.now × Summed (shown code.now) places.now work.now × (length out.old ≡ length code.now.xs.now) × (index.0 < code.now.k) }
    ensures { out.new ≡ row (shown code.now) places.now index }
{
    let n = code.xs.len();
    let n2 = n + n;
    let n3 = n2 + n;
    let n4 = n3 + n;
    let n5 = n4 + n;
    let n6 = n5 + n;
    let mut spare = [0u8; 288];
    let place = chosen_place(places, index);
    write_row(
        code.field,
        index,
        place,
        code.k,
        &work[..n],
        &work[n..n2],
        &work[n2..n3],
        &work[n3..n4],
        &work[n4..n5],
        &work[n5..n6],
        &mut spare[..n],
        out,
    );
}

// The rows of Matrix: the points with the chosen ones first, the factors of the rows, and then the symbols of each row, in its own part of the buffer:
// first what its factors give, and when all rows have that, what their sums leave.
ghost use Rattle.std.specs.Prelude.{◌≡◌, ◌*◌, ◌≤◌, length, replicate};
ghost use Rattle.basics.specs.Lists.{table};
ghost use Rattle.code.specs.Shown.{shown};
ghost use Rattle.solving.specs.Given.{Placed};
ghost use Rattle.solving.specs.Tests.{room, cleared};
ghost use Rattle.coder.specs.Outcomes.{joined};
ghost use Rattle.values.specs.Values.{one};
ghost use Rattle.arrangement.specs.Arranged.{Places};
ghost use Rattle.generator.specs.Rows.{Marked, Behind, Slots};
ghost use Rattle.matrix.specs.Given.{Sized, Begun, Written, Parts, AllCompleted, frees, row_at};

use arrangement::arrange::{arrange, fill_ones, mark};
use basics::MessageIndex;
use code::accepted::Code;
use engine::pair::Sizes;
use engine::places::chosen_place;
use engine::slices::clear;
use field::Field;
use generator::entries::{complete_row, fill_row};
use generator::indices::index_free;
use generator::run::run_rows;
use solving::work::clear_room;

// The points with the chosen ones first, and the rows of all of these but the last. Until then a marks the points that are not chosen.
pub fn begin_rows(
    code: &Code,
    places: &[u16],
    px: &mut [u8],
    l: &mut [u8],
    u: &mut [u8],
    a: &mut [u8],
    b: &mut [u8],
) -> Sizes
    requires placed { Placed (shown code.now) places.now × (length places.now ≡ code.now.k) × Sized (length code.now.xs.now) px.old l.old u.old a.old b.old }
    ensures { Begun (shown code.now) places.now px.new l.new u.new a.new b.new result }
{
    let k = code.k;
    mark(places, a);
    arrange(places, a, code.xs, px);
    arrange(places, a, code.ys, u);
    run_rows(code.field, px, k, l, u, a, b)
}

// The indices of the points that are not chosen, behind the factors. `marks` marks these points, and is lent for that.
pub fn index_rest(k: usize, places: &[u16], a: &mut [u8], b: &mut [u8], marks: &mut [u8])
    requires { Places (length marks.old) places.now × Marked k (frees places.now marks.old) × (length a.old ≡ length marks.old) × (length b.old ≡ length marks.old) }
    ensures { Behind k (frees places.now marks.old) a.old b.old a.new b.new }
{
    mark(places, marks);
    index_free(k, marks, a, b);
}

// What the factors of all rows give, in a clear buffer, and the sums, which begin as 1.
fn part_rows(
    field: &Field,
    k: usize,
    px: &[u8],
    l: &[u8],
    u: &[u8],
    a: &[u8],
    b: &[u8],
    sums: &mut [u8],
    out: &mut [u8],
)
    requires slots { Slots k px.now a.now b.now sums.old px.now × (length l.now ≡ length px.now) × (length u.now ≡ length px.now)
        × (length out.old ≡ k * length px.now) × (sums.old ≡ table one (length px.now)) × (out.old ≡ replicate (k * length px.now) 0) }
    ensures { Parts field.now.number k px.now l.now u.now a.now b.now sums.new out.new k }
{
    let n = px.len();
    for i in 0..k {
        let index = MessageIndex(i);
        let start = i * n;
        let end = start + n;
        let row = &mut out[start..end];
        fill_row(field, index, k, px, l, u, a, b, sums, row);
    }
}

// What the sums leave, in the row over the coordinate of each point, and 1 at each row's own place.
fn complete_rows(
    k: usize,
    places: &[u16],
    px: &[u8],
    a: &[u8],
    b: &[u8],
    sums: &[u8],
    out: &mut [u8],
)
    requires { Slots k px.now a.now b.now sums.now px.now × Places (length px.now) places.now × (length places.now ≡ k) × (length out.old ≡ k * length px.now) }
    ensures { AllCompleted k places.now px.now a.now b.now sums.now out.old out.new }
{
    let n = px.len();
    for i in 0..k {
        let index = MessageIndex(i);
        let place = chosen_place(places, index);
        let from = i * n;
        let to = from + n;
        let row = &mut out[from..to];
        complete_row(index, place, k, px, a, b, sums, row);
    }
}

// The symbols of all rows. `sums` is lent, one for each point.
fn fill_rows(
    field: &Field,
    k: usize,
    places: &[u16],
    px: &[u8],
    l: &[u8],
    u: &[u8],
    a: &mut [u8],
    b: &mut [u8],
    sums: &mut [u8],
    out: &mut [u8],
)
    requires written { Written k places.now px.now l.now u.now a.old b.old out.old × (length sums.old ≡ length px.now) }
    ensures { out.new ≡ joined (table (row_at field.now.number k places.now px.now l.now u.now a.old b.old) k) }
{
    index_rest(k, places, a, b, sums);
    fill_ones(sums);
    clear(out);
    part_rows(field, k, px, l, u, a, b, sums, out);
    complete_rows(k, places, px, a, b, sums, out);
}

// The same with the sums in the working space, which is cleared behind it.
pub fn write_rows(
    field: &Field,
    k: usize,
    places: &[u16],
    px: &[u8],
    l: &[u8],
    u: &[u8],
    a: &mut [u8],
    b: &mut [u8],
    out: &mut [u8],
    work: &mut [u8],
)
    requires written { Written k places.now px.now l.now u.now a.old b.old out.old × (room ≤ length work.old) }
    ensures { (out.new ≡ joined (table (row_at field.now.number k places.now px.now l.now u.now a.old b.old) k))
        × (work.new ≡ cleared work.old) }
{
    let n = px.len();
    fill_rows(field, k, places, px, l, u, a, b, &mut work[..n], out);
    clear_room(work);
}

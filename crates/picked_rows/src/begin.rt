// What the rows are made of, from the picked places: in own arrays while it is computed, and then in the working space.
ghost use Rattle.std.specs.Prelude.{◌≡◌, ◌*◌, ◌≤◌, length};
ghost use Rattle.code.specs.Shown.{shown};
ghost use Rattle.solving.specs.Given.{Works};
ghost use Rattle.arrangement.specs.Arranged.{Places, Apart};
ghost use Rattle.generator.specs.Rows.{Behind};
ghost use Rattle.matrix.specs.Given.{Sized, frees, part};
ghost use Rattle.picked_rows.specs.Stored.{Factored, Put, PutFour, Stored, Spared};

use basics::MessageIndex;
use code::accepted::Code;
use engine::slices::copy;
use generator::factors::rows_turn;
use matrix::write::{begin_rows, index_rest};

// The factors of all rows.
fn factor_rows(
    code: &Code,
    places: &[u16],
    px: &mut [u8],
    l: &mut [u8],
    u: &mut [u8],
    a: &mut [u8],
    b: &mut [u8],
)
    requires works { Works (shown code.now) places.now × Sized (length code.now.xs.now) px.old l.old u.old a.old b.old }
    ensures { Factored (shown code.now) places.now px.new l.new u.new a.new b.new }
{
    let z = begin_rows(code, places, px, l, u, a, b);
    let k = code.k;
    let last = k - 1;
    rows_turn(code.field, MessageIndex(last), px, l, u, a, b, z);
}

// An array becomes the one of index i in the working space.
pub fn store(from: &[u8], i: usize, work: &mut [u8])
    requires { (7 * length from.now ≤ length work.old) × (length from.now ≤ 288) × (i ≤ 6) }
    ensures { Put (length from.now) i from.now work.old work.new }
{
    let n = from.len();
    let start = i * n;
    let end = start + n;
    copy(from, n, &mut work[start..end]);
}

// The arrays behind the first one.
fn store_four(l: &[u8], u: &[u8], a: &[u8], b: &[u8], work: &mut [u8])
    requires { (length u.now ≡ length l.now) × (length a.now ≡ length l.now) × (length b.now ≡ length l.now)
        × (7 * length l.now ≤ length work.old) × (length l.now ≤ 288) }
    ensures { PutFour (length l.now) l.now u.now a.now b.now work.old work.new }
{
    store(l, 1, work);
    store(u, 2, work);
    store(a, 3, work);
    store(b, 4, work);
}

// The indices of the free points, behind the factors. The second array of the working space is lent for marks.
fn index_points(k: usize, places: &[u16], a: &mut [u8], b: &mut [u8], work: &mut [u8])
    requires { Places (length a.old) places.now × Apart places.now × (length places.now ≡ k) × (length b.old ≡ length a.old)
        × (7 * length a.old ≤ length work.old) × (length a.old ≤ 288) }
    ensures { Behind k (frees places.now a.old) a.old b.old a.new b.new
        × (part (length a.old) 0 work.new ≡ part (length a.old) 0 work.old)
        × Spared (length a.old) work.old work.new }
{
    let n = a.len();
    let end = n + n;
    index_rest(k, places, a, b, &mut work[n..end]);
}

// What the rows are made of, to the working space. Arrays are lent while it is computed.
fn begin_in(
    code: &Code,
    places: &[u16],
    l: &mut [u8],
    u: &mut [u8],
    a: &mut [u8],
    b: &mut [u8],
    work: &mut [u8],
)
    requires works { Works (shown code.now) places.now × Sized (length code.now.xs.now) code.now.xs.now l.old u.old a.old b.old × (7 * length code.now.xs.now ≤ length work.old) }
    ensures { Stored (shown code.now) places.now work.new
        × Spared (length code.now.xs.now) work.old work.new }
{
    let n = code.xs.len();
    factor_rows(code, places, &mut work[..n], l, u, a, b);
    index_points(code.k, places, a, b, work);
    store_four(l, u, a, b, work);
}

// The same with arrays of its own, 864 bytes, and one that is lent.
pub fn begin(code: &Code, places: &[u16], b: &mut [u8], work: &mut [u8])
    requires works { Works (shown code.now) places.now × (length b.old ≡ length code.now.xs.now) × (7 * length code.now.xs.now ≤ length work.old) }
    ensures { Stored (shown code.now) places.now work.new
        × Spared (length code.now.xs.now) work.old work.new }
{
    let n = code.xs.len();
    let mut l = [0u8; 288];
    let mut u = [0u8; 288];
    let mut a = [0u8; 288];
    begin_in(code, places, &mut l[..n], &mut u[..n], &mut a[..n], b, work);
}

// From symbols that passed their tests to the codeword within t, or to the refusal: the error locator, the places that it keeps, and the word that they decide.
ghost use Rattle.std.specs.Prelude.{◌≡◌, true, ◌+◌, ◌-◌, ◌/◌, ◌<◌, ◌≤◌, length};
ghost use Rattle.basics.specs.Outcome.{Meets, count_of};
ghost use Rattle.code.specs.Shown.{shown};
ghost use Rattle.codewords.specs.Codewords.{symbols};
ghost use Rattle.decoding.specs.Near.{radius};
ghost use Rattle.decoding.specs.Rows.{span};
ghost use Rattle.locator.specs.Arrays.{FourLong};
ghost use Rattle.solving.specs.Tests.{room};
ghost use Rattle.correction.specs.Located.{Located, LaidFor};
ghost use Rattle.correction.specs.Stages.{correct_run};

use crate::kept::{count, distance};
use crate::solve::solve_kept;
use basics::Refusal;
use code::accepted::Code;
use engine::slices::copy;
use locator::locate::locate;
use locator::turn::{HEAD, Layout};
use solving::work::clear_room;

// t.
fn radius(n: usize, k: usize) -> usize
    requires { k ≤ n }
    ensures { result ≡ (n - k - 2) / 2 }
{
    if n - k < 2 { 0 } else { (n - k - 2) / 2 }
}

// How many coefficients N has.
fn span_of(k: usize, t: usize) -> usize
    requires { (k ≤ 288) × (t ≤ 288) }
    ensures { result ≡ span k t }
{
    if t == 0 {
        return k;
    }
    k + t + 1
}

// The layout of the rows for n points.
fn layout(n: usize, k: usize) -> Layout
    requires { (k < n) × (n ≤ 288) }
    ensures { LaidFor n k result }
{
    let t = radius(n, k);
    Layout {
        k,
        t,
        top: 2 * span_of(k, t) + 1,
    }
}

// From the values of the error locator on. Arrays are lent for the pair and the word.
fn correct_kept(
    code: &Code,
    r: &[u8],
    t: usize,
    e: &[u8],
    l: &mut [u8],
    u: &mut [u8],
    f: &mut [u8],
    out: &mut [u8],
    work: &mut [u8],
) -> Result<usize, Refusal>
    requires located { Located (shown code.now) r.now e.now × (t ≡ radius (shown code.now)) }
    requires l_len { (length l.old ≡ length code.now.xs.now) × (length u.old ≡ length code.now.xs.now) × (length f.old ≡ length code.now.xs.now) × (length out.old ≡ length code.now.xs.now) × (room ≤ length work.old) }
    ensures { Meets (correct_run (shown code.now) r.now work.old) (count_of result)
        (out.old, work.old) (out.new, work.new) }
{
    let kept = count(e);
    if kept <= code.k {
        return Err(Refusal::TooFar);
    }
    solve_kept(code, r, e, l, u, f);
    let changed = distance(f, r);
    if t < changed {
        return Err(Refusal::TooFar);
    }
    copy(f, code.xs.len(), out);
    clear_room(work);
    Ok(changed)
}

// The error locator, and all that follows. Arrays are lent for the rows, and then for its values, the pair and the word.
fn correct_in(
    code: &Code,
    r: &[u8],
    a: &mut [u8],
    b: &mut [u8],
    c: &mut [u8],
    d: &mut [u8],
    out: &mut [u8],
    work: &mut [u8],
) -> Result<usize, Refusal>
    requires r_len { (length r.now ≡ length code.now.xs.now) × (length out.old ≡ length code.now.xs.now) × (room ≤ length work.old) × (symbols (shown code.now) r.now ≡ true) }
    requires four_long { FourLong (length code.now.xs.now) a.old b.old c.old d.old }
    ensures { Meets (correct_run (shown code.now) r.now work.old) (count_of result)
        (out.old, work.old) (out.new, work.new) }
{
    let n = code.xs.len();
    let shape = layout(n, code.k);
    locate(code.field, shape, code.xs, code.ys, r, a, b, c, d);
    correct_kept(
        code,
        r,
        shape.t,
        &a[..n],
        &mut b[..n],
        &mut c[..n],
        &mut d[..n],
        out,
        work,
    )
}

// The same with arrays of its own: 1,448 bytes.
pub fn correct_run(code: &Code, r: &[u8], out: &mut [u8], work: &mut [u8]) -> Result<usize, Refusal>
    requires r_len { (length r.now ≡ length code.now.xs.now) × (length out.old ≡ length code.now.xs.now) × (room ≤ length work.old) × (symbols (shown code.now) r.now ≡ true) }
    ensures { Meets (correct_run (shown code.now) r.now work.old) (count_of result)
        (out.old, work.old) (out.new, work.new) }
{
    let size = HEAD + code.xs.len();
    let mut a = [0u8; 362];
    let mut b = [0u8; 362];
    let mut c = [0u8; 362];
    let mut d = [0u8; 362];
    correct_in(
        code,
        r,
        &mut a[..size],
        &mut b[..size],
        &mut c[..size],
        &mut d[..size],
        out,
        work,
    )
}

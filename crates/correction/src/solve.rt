// The word that the kept places decide, by its values at all points.
ghost use Rattle.std.specs.Prelude.{◌≡◌, ◌<◌, length, replicate};
ghost use Rattle.basics.specs.Lists.{table};
ghost use Rattle.code.specs.Shown.{shown};
ghost use Rattle.values.specs.Values.{one};
ghost use Rattle.solving.specs.Given.{solved_word};
ghost use Rattle.correction.specs.Kept.{kept_before, kept_in, symbols_at, Decided};
ghost use Rattle.correction.specs.Runs.{RunsKept, RanKept, TwoLeft, last_kept, finished};

use crate::kept::next;
use arrangement::arrange::fill_ones;
use code::accepted::Code;
use engine::pair::{Sizes, first_sizes};
use engine::slices::{add_scaled, clear, copy};
use field::Field;
use values::word::word_turn;

// How many coefficients L and U have, and the index behind the last place so far.
#[derive(Clone, Copy)]
pub struct Reached {
    pub sizes: Sizes,
    pub behind: usize,
}

// L = 1, U = Y and F = 0 by their values.
fn begin(ys: &[u8], l: &mut [u8], u: &mut [u8], f: &mut [u8])
    requires { (length l.old ≡ length ys.now) × (length u.old ≡ length ys.now) }
    ensures { (l.new ≡ table one (length ys.now)) × (u.new ≡ ys.now)
        × (f.new ≡ replicate (length f.old) 0) }
{
    fill_ones(l);
    copy(ys, ys.len(), u);
    clear(f);
}

// The pair and the interpolant of the first kept places, where it takes the received symbols.
fn run(
    field: &Field,
    xs: &[u8],
    ys: &[u8],
    r: &[u8],
    e: &[u8],
    count: usize,
    l: &mut [u8],
    u: &mut [u8],
    f: &mut [u8],
) -> Reached
    requires runs_kept { RunsKept field.now.number xs.now ys.now r.now e.now count }
    requires l_len { (length l.old ≡ length xs.now) × (length u.old ≡ length xs.now) × (length f.old ≡ length xs.now) }
    ensures { RanKept field.now.number xs.now ys.now r.now e.now count l.new u.new f.new result.sizes result.behind }
{
    begin(ys, l, u, f);
    let mut n = first_sizes();
    let mut behind = 0;
    for _i in 0..count {
        let j = next(e, behind);
        n = word_turn(field, j, 0, r[j], xs, l, u, f, n);
        behind = j + 1;
    }
    Reached { sizes: n, behind }
}

// The index of the last place that is used, by the values of L.
fn last_index(e: &[u8], behind: usize, l: &[u8]) -> usize
    requires { TwoLeft e.now l.now behind }
    ensures { (result < length e.now) × (result ≡ last_kept e.now l.now (length (kept_before e.now behind))) }
{
    let j = next(e, behind);
    if l[j] == 0 {
        return next(e, j + 1);
    }
    j
}

// F, in f, gains the multiple of L, in l, that makes it the received symbol at the last place that is used.
fn finish(field: &Field, r: &[u8], e: &[u8], behind: usize, l: &[u8], f: &mut [u8])
    requires two_left { TwoLeft e.now l.now behind }
    requires r_len { (length r.now ≡ length e.now) × (length f.old ≡ length e.now) }
    ensures { f.new ≡ finished field.now.number r.now l.now f.old
        (last_kept e.now l.now (length (kept_before e.now behind))) }
{
    let j = last_index(e, behind, l);
    let c = field.quotient(r[j] ^ f[j], l[j]);
    add_scaled(field, c, l, f);
}

// The word that the kept places decide, to f. Arrays are lent for the pair.
pub fn solve_kept(code: &Code, r: &[u8], e: &[u8], l: &mut [u8], u: &mut [u8], f: &mut [u8])
    requires decided { Decided (shown code.now) r.now e.now }
    requires l_len { (length l.old ≡ length code.now.xs.now) × (length u.old ≡ length code.now.xs.now) × (length f.old ≡ length code.now.xs.now) }
    ensures { f.new ≡ solved_word (shown code.now) (kept_in e.now) (symbols_at r.now (kept_in e.now)) }
{
    let count = code.k - 1;
    let reached = run(code.field, code.xs, code.ys, r, e, count, l, u, f);
    let behind = reached.behind;
    let sizes = reached.sizes;
    let turned = sizes.turned;
    if turned {
        finish(code.field, r, e, behind, u, f);
    } else {
        finish(code.field, r, e, behind, l, f);
    }
}

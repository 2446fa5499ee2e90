// What src/solve.rt solves for, by its values at all points. The points at the given places come first, so that a place changes what stands behind it alone.
ghost use Rattle.std.specs.Prelude.{◌≡◌, cond, ◌++◌, ◌<◌, ◌≤◌, length, take, drop};
ghost use Rattle.basics.specs.Lists.{table};
ghost use Rattle.field.specs.Galois.{galois};
ghost use Rattle.elliptic.specs.Pair.{add_scaled};
ghost use Rattle.code.specs.Shown.{shown};
ghost use Rattle.codewords.specs.Computed.{solution};
ghost use Rattle.arrangement.specs.Arranged.{free_at};
ghost use Rattle.values.specs.Values.{Shows};
ghost use Rattle.solving.specs.Given.{Placed, Posed, Laid, Solving, solved_word, missing};

use crate::last_index::last_index;
use crate::restore::restore;
use crate::zero::zero_chosen;
use arrangement::arrange::{arrange, fill_ones, mark};
use basics::MessageIndex;
use code::accepted::Code;
use engine::pair::Sizes;
use engine::places::message_symbol;
use engine::slices::{add_scaled, copy};
use field::Field;
use values::run::run;

// The points with those at the places first, and L = 1 and U = Y by their values there. f marks the points that are at none.
fn lay_out(code: &Code, places: &[u16], px: &mut [u8], l: &mut [u8], u: &mut [u8], f: &mut [u8])
    requires placed { Placed (shown code.now) places.now }
    requires px_len { (length px.old ≡ length code.now.xs.now) × (length l.old ≡ length code.now.xs.now) × (length u.old ≡ length code.now.xs.now) × (length f.old ≡ length code.now.xs.now) }
    ensures { Laid (shown code.now) places.now px.new l.new u.new
        × (f.new ≡ table (free_at places.now) (length code.now.xs.now)) }
{
    mark(places, f);
    arrange(places, f, code.xs, px);
    arrange(places, f, code.ys, u);
    fill_ones(l);
}

// F, in f, gains the multiple of L, in l, that makes it v at the point of the message index.
fn correct(field: &Field, index: MessageIndex, v: u8, l: &[u8], f: &mut [u8])
    requires index_in_bounds { (index.0 < length l.now) × (length l.now ≡ length f.old) }
    ensures { f.new ≡ add_scaled (galois field.now.number) (missing field.now.number index.0 v l.now f.old) l.now f.old }
{
    let j = index.0;
    let e = field.quotient(v ^ f[j], l[j]);
    add_scaled(field, e, l, f);
}

// The same, with L in either array.
fn correct_at(field: &Field, index: MessageIndex, v: u8, l: &[u8], u: &[u8], f: &mut [u8], n: Sizes)
    requires index_in_bounds { (index.0 < length f.old) × (length l.now ≡ length f.old) × (length u.now ≡ length f.old) }
    ensures { f.new ≡ add_scaled (galois field.now.number) (missing field.now.number index.0 v (cond n.turned u.now l.now) f.old)
        (cond n.turned u.now l.now) f.old }
{
    let turned = n.turned;
    if turned {
        correct(field, index, v, u, f);
    } else {
        correct(field, index, v, l, f);
    }
}

// The first symbols, which are the values at the points that the run is past.
fn put_symbols(symbols: &[u8], count: usize, f: &mut [u8])
    requires { (count ≤ length symbols.now) × (count ≤ length f.old) }
    ensures { f.new ≡ take count symbols.now ++ drop count f.old }
{
    copy(symbols, count, &mut f[..count]);
}

// The values at the points with those at the places first, to f. There are none where there are k places that are dependent.
fn solve_laid(
    code: &Code,
    places: &[u16],
    symbols: &[u8],
    px: &[u8],
    l: &mut [u8],
    u: &mut [u8],
    f: &mut [u8],
) -> bool
    requires posed { Posed (shown code.now) places.now symbols.now × Laid (shown code.now) places.now px.now l.old u.old × (length f.old ≡ length px.now) }
    ensures { Solving (shown code.now) places.now
        (Shows code.now.field.now.number px.now u.old 0 (solution (shown code.now) places.now symbols.now) f.new) result }
{
    let k = code.k;
    let count = k - 1;
    let n = run(code.field, px, symbols, count, l, u, f);
    let zero = zero_chosen(MessageIndex(count), l, u, n);
    let last = last_index(k, zero);
    if last.0 == places.len() {
        return false;
    }
    let v = message_symbol(symbols, last);
    correct_at(code.field, last, v, l, u, f, n);
    put_symbols(symbols, count, f);
    true
}

// The values at all points, to f. Arrays are lent for the points, the pair and the values in their order.
fn solve_word_in(
    code: &Code,
    places: &[u16],
    symbols: &[u8],
    px: &mut [u8],
    l: &mut [u8],
    u: &mut [u8],
    w: &mut [u8],
    f: &mut [u8],
) -> bool
    requires posed { Posed (shown code.now) places.now symbols.now × (length f.old ≡ length code.now.xs.now) }
    requires px_len { (length px.old ≡ length code.now.xs.now) × (length l.old ≡ length code.now.xs.now) × (length u.old ≡ length code.now.xs.now) × (length w.old ≡ length code.now.xs.now) }
    ensures { Solving (shown code.now) places.now
        (f.new ≡ solved_word (shown code.now) places.now symbols.now) result }
{
    lay_out(code, places, px, l, u, f);
    if !solve_laid(code, places, symbols, px, l, u, w) {
        return false;
    }
    restore(places, w, f);
    true
}

// The same with arrays of its own: 1,152 bytes.
pub fn solve_word(code: &Code, places: &[u16], symbols: &[u8], f: &mut [u8]) -> bool
    requires posed { Posed (shown code.now) places.now symbols.now × (length f.old ≡ length code.now.xs.now) }
    ensures { Solving (shown code.now) places.now
        (f.new ≡ solved_word (shown code.now) places.now symbols.now) result }
{
    let n = code.xs.len();
    let mut px = [0u8; 288];
    let mut l = [0u8; 288];
    let mut u = [0u8; 288];
    let mut w = [0u8; 288];
    solve_word_in(
        code,
        places,
        symbols,
        &mut px[..n],
        &mut l[..n],
        &mut u[..n],
        &mut w[..n],
        f,
    )
}

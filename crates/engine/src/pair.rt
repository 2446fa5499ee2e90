// L, U and the interpolant F, each the first coefficients of an array of its own, and what one more place makes of them.
// At every place L is read first: where it is zero, only U and F change.
ghost use Rattle.std.specs.Prelude.{◌≡◌, [], ◌++◌, not, false, ◌+◌, ◌-◌, ◌^◌, ◌<◌, ◌≤◌, length, take, replicate};
ghost use Rattle.basics.specs.Lists.{Holds};
ghost use Rattle.field.specs.Galois.{galois};
ghost use Rattle.elliptic.specs.Pair.{growth, evaluate, add_scaled, raised, held, corrected, stepped, step};
ghost use Rattle.engine.specs.Arrays.{Pair, Filled, Room, WordRoom, Ordered, pair_in, state_in};

use crate::slices::{add_scaled, clear, times_linear, value};
use elliptic::Point;
use field::Field;

// How many coefficients L and U have. They stand in two arrays: L in the first, or in the second where they have turned.
#[derive(Clone, Copy)]
pub struct Sizes {
    pub low: usize,
    pub high: usize,
    pub turned: bool,
}

// The same with the interpolant.
#[derive(Clone, Copy)]
pub struct Lengths {
    pub pair: Sizes,
    pub word: usize,
}

// Those of L = 1 and U = Y, with which every run begins.
pub fn first_sizes() -> Sizes
    ensures { (result.low ≡ 1) × (result.high ≡ 3) × (result.turned ≡ false) }
{
    Sizes {
        low: 1,
        high: 3,
        turned: false,
    }
}

// How many coefficients (X + α) times a function of n coefficients has.
pub fn grown(n: usize) -> usize
    requires { n + 2 < 2 ^ 64 }
    ensures { result ≡ n + growth n }
{
    if n == 1 { 2 } else { n + 2 }
}

// The first n coefficients of f become m, by zeros.
pub fn extend(f: &mut [u8], n: usize, m: usize)
    requires { (n ≤ m) × (m ≤ length f.old) }
    ensures { take m f.new ≡ take n f.old ++ replicate (m - n) 0 }
{
    clear(&mut f[n..m]);
}

// The first n coefficients of f become (X + α) times as much; how many there are then.
fn raise(field: &Field, alpha: u8, f: &mut [u8], n: usize) -> usize
    requires n_nonzero { (0 < n) × (n + 2 ≤ length f.old) }
    ensures { Holds f.new result (raised (galois field.now.number) alpha (take n f.old)) }
{
    let k = grown(n);
    extend(f, n, k);
    times_linear(field, alpha, &mut f[..k]);
    k
}

// The first n coefficients of f gain t·h; how many there are then.
fn gain(field: &Field, t: u8, h: &[u8], f: &mut [u8], n: usize) -> usize
    requires n_in_bounds { (n ≤ length f.old) × (length h.now ≤ length f.old) }
    ensures { Holds f.new result (add_scaled (galois field.now.number) t h.now (take n f.old)) }
{
    let k = h.len();
    if n < k {
        extend(f, n, k);
        add_scaled(field, t, h, &mut f[..k]);
        return k;
    }
    add_scaled(field, t, h, &mut f[..n]);
    n
}

// F, the first n coefficients of f, gains the multiple of g that makes its value at p v; how many coefficients it has then.
// The value of g at p is `at`.
fn correct(field: &Field, p: Point, v: u8, at: u8, g: &[u8], f: &mut [u8], n: usize) -> usize
    requires n_in_bounds { (n ≤ length f.old) × (length g.now ≤ length f.old) × (at ≡ evaluate (galois field.now.number) g.now p) }
    ensures { Holds f.new result (corrected (galois field.now.number) p v g.now (take n f.old)) }
{
    let missing = v ^ value(field, p.x, p.y, &f[..n]);
    let t = field.quotient(missing, at);
    gain(field, t, g, f, n)
}

// The same where the value of g is not known yet.
pub fn complete(field: &Field, p: Point, v: u8, g: &[u8], f: &mut [u8], n: usize) -> usize
    requires n_in_bounds { (n ≤ length f.old) × (length g.now ≤ length f.old) }
    ensures { Holds f.new result (corrected (galois field.now.number) p v g.now (take n f.old)) }
{
    let at = value(field, p.x, p.y, g);
    correct(field, p, v, at, g, f, n)
}

// The shorter of two functions as L; the first stands in the first array.
pub fn ordered(first: usize, second: usize) -> Sizes
    ensures { Ordered first second result }
{
    if second < first {
        return Sizes {
            low: second,
            high: first,
            turned: true,
        };
    }
    Sizes {
        low: first,
        high: second,
        turned: false,
    }
}

// The arrays the other way round.
pub fn swapped(n: Sizes) -> Sizes
    ensures { (result.low ≡ n.low) × (result.high ≡ n.high) × (result.turned ≡ not n.turned) }
{
    Sizes {
        low: n.low,
        high: n.high,
        turned: !n.turned,
    }
}

// One more place p, where the value of L is `at`, which is not zero. L is in l and U in u.
fn advance(field: &Field, p: Point, at: u8, l: &mut [u8], u: &mut [u8], n: Sizes) -> Sizes
    requires room { Room l.old u.old n × (at ≡ evaluate (galois field.now.number) (take n.low l.old) p) }
    ensures { Pair l.new u.new result
        (stepped (galois field.now.number) p 0 (held false (take n.low l.old) (take n.high u.old) [])) }
{
    let low = n.low;
    let high = n.high;
    let at_u = value(field, p.x, p.y, &u[..high]);
    let t = field.quotient(at_u, at);
    let second = gain(field, t, &l[..low], u, high);
    let first = raise(field, p.x, l, low);
    ordered(first, second)
}

// One more place p, with L in l and U in u.
fn pair_step(field: &Field, p: Point, l: &mut [u8], u: &mut [u8], n: Sizes) -> Sizes
    requires room { Room l.old u.old n }
    ensures { Pair l.new u.new result
        (step (galois field.now.number) p 0 (held false (take n.low l.old) (take n.high u.old) [])) }
{
    let low = n.low;
    let at = value(field, p.x, p.y, &l[..low]);
    if at == 0 {
        let high = raise(field, p.x, u, n.high);
        return Sizes {
            low,
            high,
            turned: false,
        };
    }
    advance(field, p, at, l, u, n)
}

// The same, with L and U in either array.
pub fn pair_turn(field: &Field, p: Point, l: &mut [u8], u: &mut [u8], n: Sizes) -> Sizes
    requires room { Room l.old u.old n }
    ensures { Pair l.new u.new result (step (galois field.now.number) p 0 (pair_in l.old u.old n)) }
{
    let turned = n.turned;
    if turned {
        return swapped(pair_step(field, p, u, l, n));
    }
    pair_step(field, p, l, u, n)
}

// One more place p, where F, in f, is to be v, with L in l and U in u.
fn step(
    field: &Field,
    p: Point,
    v: u8,
    l: &mut [u8],
    u: &mut [u8],
    f: &mut [u8],
    n: Lengths,
) -> Lengths
    requires room { Room l.old u.old n.pair × WordRoom f.old n }
    ensures { Filled l.new u.new f.new result
        (step (galois field.now.number) p v (held false (take n.pair.low l.old) (take n.pair.high u.old) (take n.word f.old))) }
{
    let low = n.pair.low;
    let high = n.pair.high;
    let at_l = value(field, p.x, p.y, &l[..low]);
    if at_l == 0 {
        let word = complete(field, p, v, &u[..high], f, n.word);
        let raised = raise(field, p.x, u, high);
        return Lengths {
            pair: Sizes {
                low,
                high: raised,
                turned: false,
            },
            word,
        };
    }
    let word = correct(field, p, v, at_l, &l[..low], f, n.word);
    let pair = advance(field, p, at_l, l, u, n.pair);
    Lengths { pair, word }
}

// The same, with L and U in either array.
pub fn turn(
    field: &Field,
    p: Point,
    v: u8,
    l: &mut [u8],
    u: &mut [u8],
    f: &mut [u8],
    n: Lengths,
) -> Lengths
    requires room { Room l.old u.old n.pair × WordRoom f.old n }
    ensures { Filled l.new u.new f.new result
        (step (galois field.now.number) p v (state_in l.old u.old f.old n)) }
{
    let turned = n.pair.turned;
    if turned {
        let r = step(field, p, v, u, l, f, n);
        return Lengths {
            pair: swapped(r.pair),
            word: r.word,
        };
    }
    step(field, p, v, l, u, f, n)
}

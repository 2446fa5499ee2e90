// The places that are kept: those where e, the values of the error locator, is not zero.
ghost use Rattle.std.specs.Prelude.{◌≡◌, cond, ◌+◌, ◌<◌, ◌≤◌, eqb, length};
ghost use Rattle.decoding.specs.Near.{distance};
ghost use Rattle.correction.specs.Kept.{kept_in, NextKept};

// One more, where x is not zero.
fn more(c: usize, x: u8) -> usize
    requires { c < 288 }
    ensures { result ≡ cond (eqb x 0) c (c + 1) }
{
    if x == 0 {
        return c;
    }
    c + 1
}

// How many are kept.
pub fn count(e: &[u8]) -> usize
    requires { length e.now ≤ 288 }
    ensures { result ≡ length (kept_in e.now) }
{
    let mut c = 0;
    for x in e {
        c = more(c, *x);
    }
    c
}

// The index of the first that is kept from j on, or the length.
pub fn next(e: &[u8], j: usize) -> usize
    requires { j ≤ length e.now }
    ensures { NextKept e.now j result }
{
    for i in j..e.len() {
        if e[i] != 0 {
            return i;
        }
    }
    e.len()
}

// The number of places where two words differ.
pub fn distance(w: &[u8], r: &[u8]) -> usize
    requires { (length w.now ≡ length r.now) × (length w.now ≤ 288) }
    ensures { result ≡ distance w.now r.now }
{
    let mut d = 0;
    for i in 0..w.len() {
        d = more(d, w[i] ^ r[i]);
    }
    d
}

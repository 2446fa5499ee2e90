// Random codes over each field.
ghost use Rattle.std.specs.Prelude.{◌≤◌, length};

use codewords::Parameters;
use comparisons::trial::try_places;
use trials::codes::draw_code;
use trials::memory::{MOST, SEED};
use trials::random::below;
use trials::tally::{Tally, close, show, write};

// Trials of a code at two choices of k places, at any number of places, and at all of them.
fn try_code(t: &mut Tally, state: &mut u64, code: Parameters, xs: &[u8], ys: &[u8])
    requires { (length xs.now ≤ 288) × (code.k ≤ 288) }
{
    let n = xs.len();
    t.coded();
    try_places(t, state, code, xs, ys, code.k, None);
    try_places(t, state, code, xs, ys, code.k, None);
    let s = below(state, n + 1);
    try_places(t, state, code, xs, ys, s, None);
    try_places(t, state, code, xs, ys, n, None);
}

// Of so many curves over field m, and at most `most` points of each.
fn line(m: u8, curves: u32, most: usize) {
    let mut state = SEED;
    let mut t = Tally::default();
    for _ in 0..curves {
        if let Some(drawn) = draw_code(&mut state, m, most) {
            let n = drawn.n;
            let xs = &drawn.xs[..n];
            let ys = &drawn.ys[..n];
            try_code(&mut t, &mut state, drawn.code, xs, ys);
        }
    }
    show(b"random codes, field ", u64::from(m));
    show(b": ", t.codes);
    show(b" codes, ", t.choices);
    show(b" choices, ", t.dependent);
    write(b" dependent");
    close(t);
}

pub fn random_codes() {
    for m in 2..=5 {
        line(m, 600, MOST);
    }
    for m in 6..=9 {
        line(m, 600, 48);
    }
}

pub fn large_codes() {
    line(7, 12, MOST);
    line(8, 8, MOST);
    line(9, 8, MOST);
}

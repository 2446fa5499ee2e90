// All choices of places of the two small codes.
ghost use Rattle.std.specs.Prelude.{◌≤◌, length};

use codewords::Parameters;
use comparisons::trial::try_places;
use trials::choose::size;
use trials::memory::SEED;
use trials::small::{XS_A, XS_B, YS_A, YS_B, a, b};
use trials::tally::{Tally, close, show, write};

// A trial at every choice of k places; `end` is past the mask of all places.
fn try_all(code: Parameters, xs: &[u8], ys: &[u8], end: u32) -> Tally
    requires { (length xs.now ≤ 288) × (code.k ≤ 288) }
{
    let mut state = SEED;
    let mut t = Tally::default();
    for mask in 1..end {
        if size(mask) == code.k {
            try_places(&mut t, &mut state, code, xs, ys, code.k, Some(mask));
        }
    }
    t
}

fn line(name: &[u8], k: usize, t: Tally) {
    write(name);
    show(b", k = ", k as u64);
    show(b": ", t.choices);
    show(b" choices, ", t.dependent);
    write(b" dependent");
    close(t);
}

// All choices of A.
pub fn all_a() {
    for k in 1..8 {
        line(b"A", k, try_all(a(k), &XS_A, &YS_A, 256));
    }
}

// All choices of B.
pub fn all_b() {
    for k in 1..7 {
        line(b"B", k, try_all(b(k), &XS_B, &YS_B, 128));
    }
}

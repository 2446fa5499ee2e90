// Matrix at all choices of the two small codes, and Heard of all their masks.
ghost use Rattle.std.specs.Prelude.{◌≤◌, length};

use crate::heard::try_first;
use crate::matrices::try_matrix;
use codewords::Parameters;
use trials::choose::size;
use trials::memory::SEED;
use trials::small::{XS_A, XS_B, YS_A, YS_B, a, b};
use trials::tally::{Tally, close, show, write};

// Matrix at every choice of k places; `end` is past the mask of all places.
fn all_choices(code: Parameters, xs: &[u8], ys: &[u8], end: u32) -> Tally
    requires { (length xs.now ≤ 288) × (code.k ≤ 288) }
{
    let mut state = SEED;
    let mut t = Tally::default();
    for mask in 1..end {
        if size(mask) == code.k {
            try_matrix(&mut t, &mut state, code, xs, ys, Some(mask));
        }
    }
    t
}

// Heard of every mask; `last` is the mask of all places.
fn all_masks(code: Parameters, xs: &[u8], ys: &[u8], last: u8) -> Tally
    requires { length xs.now ≤ 288 }
{
    let mut state = SEED;
    let mut t = Tally::default();
    for mask in 0..=last {
        try_first(&mut t, &mut state, code, xs, ys, mask);
    }
    t
}

fn matrix_line(name: &[u8], k: usize, t: Tally) {
    write(name);
    show(b", k = ", k as u64);
    show(b", Matrix: ", t.choices);
    show(b" choices, ", t.dependent);
    write(b" dependent");
    close(t);
}

fn heard_line(name: &[u8], t: Tally) {
    write(name);
    show(b", Heard: ", t.choices);
    write(b" masks");
    close(t);
}

// All choices of A.
pub fn all_a() {
    for k in 1..8 {
        matrix_line(b"A", k, all_choices(a(k), &XS_A, &YS_A, 256));
    }
}

// All choices of B.
pub fn all_b() {
    for k in 1..7 {
        matrix_line(b"B", k, all_choices(b(k), &XS_B, &YS_B, 128));
    }
}

// All masks of both.
pub fn heard() {
    heard_line(b"A", all_masks(a(5), &XS_A, &YS_A, 255));
    heard_line(b"B", all_masks(b(5), &XS_B, &YS_B, 127));
}

// Random codes over each field: Matrix at a random choice of each, and Heard of a random mask.
use crate::heard::try_random;
use crate::matrices::try_matrix;
use trials::codes::draw_code;
use trials::memory::{MOST, SEED};
use trials::tally::{Tally, close, show, write};

// Heard of random masks, or Matrix at random choices: of so many curves over field m, and at most `most` points of each.
fn try_curves(masks: bool, m: u8, curves: u32, most: usize) -> Tally {
    let mut state = SEED;
    let mut t = Tally::default();
    for _ in 0..curves {
        if let Some(drawn) = draw_code(&mut state, m, most) {
            let n = drawn.n;
            let xs = &drawn.xs[..n];
            let ys = &drawn.ys[..n];
            if masks {
                try_random(&mut t, &mut state, drawn.code, xs, ys);
            } else {
                try_matrix(&mut t, &mut state, drawn.code, xs, ys, None);
            }
        }
    }
    t
}

fn matrix_line(m: u8, t: Tally) {
    show(b"random codes, field ", u64::from(m));
    show(b", Matrix: ", t.choices);
    show(b" choices, ", t.dependent);
    write(b" dependent");
    close(t);
}

fn heard_line(m: u8, t: Tally) {
    show(b"random codes, field ", u64::from(m));
    show(b", Heard: ", t.choices);
    write(b" masks");
    close(t);
}

fn field(m: u8, curves: u32, most: usize) {
    matrix_line(m, try_curves(false, m, curves, most));
    heard_line(m, try_curves(true, m, curves, most));
}

pub fn fields() {
    for m in 2..=5 {
        field(m, 600, MOST);
    }
    for m in 6..=9 {
        field(m, 600, 48);
    }
}

pub fn large() {
    field(7, 12, MOST);
    field(8, 8, MOST);
    field(9, 8, MOST);
}

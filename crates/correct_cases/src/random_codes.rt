// Random codes over each field: two words of each, beside plain search where there are few codewords.
use crate::words::try_word;
use basics::Refusal;
use trials::codes::draw_code;
use trials::memory::{MOST, SEED};
use trials::tally::{Tally, close, show, write};

// Of so many curves over field m, and at most `most` points of each.
fn line(m: u8, curves: u32, most: usize) -> Result<(), Refusal> {
    let mut state = SEED;
    let mut t = Tally::default();
    for _ in 0..curves {
        if let Some(drawn) = draw_code(&mut state, m, most) {
            let n = drawn.n;
            let xs = &drawn.xs[..n];
            let ys = &drawn.ys[..n];
            t.coded();
            try_word(&mut t, &mut state, drawn.code, xs, ys, 1024)?;
            try_word(&mut t, &mut state, drawn.code, xs, ys, 1024)?;
        }
    }
    show(b"random codes, field ", u64::from(m));
    show(b", Correct: ", t.codes);
    show(b" codes, ", t.choices);
    show(b" words, ", t.dependent);
    write(b" too far");
    close(t);
    Ok(())
}

pub fn fields() -> Result<(), Refusal> {
    for m in 2..=5 {
        line(m, 600, MOST)?;
    }
    for m in 6..=9 {
        line(m, 600, 48)?;
    }
    Ok(())
}

pub fn large() -> Result<(), Refusal> {
    for m in 7..=9 {
        line(m, 30, MOST)?;
    }
    Ok(())
}

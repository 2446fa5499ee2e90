// The curve 0,0,1,0,0 over 64 elements, with 80 points and k = 60: t is 9.
use crate::words::try_word;
use basics::Refusal;
use trials::eighty::{code, eighty_points};
use trials::memory::SEED;
use trials::tally::{Tally, close, show, write};

// 1,000 codewords with at most 9 symbols changed.
pub fn eighty() -> Result<(), Refusal> {
    let p = eighty_points()?;
    let mut state = SEED + 1;
    let mut t = Tally::default();
    for _ in 0..1000 {
        try_word(&mut t, &mut state, code(60), &p.xs, &p.ys, 1)?;
    }
    show(b"80 points, k = 60, Correct: ", t.choices);
    write(b" words");
    close(t);
    Ok(())
}

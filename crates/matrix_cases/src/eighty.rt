// Matrix of the curve 0,0,1,0,0 over 64 elements, with 80 points and k = 60.
use crate::matrices::try_matrix;
use basics::Refusal;
use trials::eighty::{code, eighty_points};
use trials::memory::SEED;
use trials::tally::{Tally, close, show, write};

// 100 random choices.
pub fn eighty() -> Result<(), Refusal> {
    let p = eighty_points()?;
    let mut state = SEED + 2;
    let mut t = Tally::default();
    for _ in 0..100 {
        try_matrix(&mut t, &mut state, code(60), &p.xs, &p.ys, None);
    }
    show(b"80 points, k = 60, Matrix: ", t.choices);
    show(b" choices, ", t.dependent);
    write(b" dependent");
    close(t);
    Ok(())
}

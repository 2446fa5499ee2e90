// A trial: places and symbols, in all operations and in the second coder.
ghost use Rattle.std.specs.Prelude.{◌≤◌, length};

use crate::compare::Trial;
use codewords::Parameters;
use elimination::coder::{ROOM, word};
use elimination::equations::Added;
use trials::choose::{choose, elements};
use trials::lists::{draw, gather};
use trials::memory::MOST;
use trials::random::below;
use trials::second::find;
use trials::tally::Tally;

// In every other trial one of the symbols is spoiled.
fn spoil(state: &mut u64, symbols: &mut [u8]) {
    let n = symbols.len();
    if n == 0 {
        return;
    }
    let i = below(state, n);
    if below(state, 2) == 0 {
        symbols[i] ^= 1;
    }
}

// A trial at the s places of a mask, or at s random ones where there is none.
pub fn try_places(
    t: &mut Tally,
    state: &mut u64,
    code: Parameters,
    xs: &[u8],
    ys: &[u8],
    s: usize,
    mask: Option<u32>,
)
    requires { (length xs.now ≤ 288) × (code.k ≤ 288) × (s ≤ 288) }
{
    let n = xs.len();
    let mut places = [0; MOST];
    let mut symbols = [0; MOST];
    let mut function = [0; MOST];
    let mut own = [0; MOST];
    let mut marks = [Added::Implied; MOST];
    let mut rows = [0; ROOM];
    choose(state, n, mask, &mut places);
    let places = &places[..s];
    let symbols = &mut symbols[..s];
    let function = &mut function[..code.k];
    let own = &mut own[..n];
    let marks = &mut marks[..s];
    // The symbols of a random codeword, one of them perhaps spoiled.
    draw(state, elements(code.field), function);
    let drawn = word(code.field, xs, ys, function, own);
    gather(own, places, symbols);
    spoil(state, symbols);
    let found = find(
        code.field, xs, ys, places, symbols, marks, &mut rows, function, own,
    );
    t.compared(drawn.is_ok() && found.is_ok());
    if let Ok(found) = found {
        let trial = Trial {
            code,
            xs,
            ys,
            places,
            symbols,
            found,
            marks,
            rows: &rows,
            function,
            word: own,
        };
        trial.compare_all(t);
    }
}

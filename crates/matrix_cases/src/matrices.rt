// Matrix beside the second coder: its rows are the words of the unit messages.
ghost use Rattle.std.specs.Prelude.{◌≤◌, length};

use basics::{Refusal, number};
use codewords::Parameters;
use matrix::operation::matrix;
use trials::choose::choose;
use trials::memory::{MATRIX, MOST, UNWRITTEN, WORKING};
use trials::second::word_of;
use trials::tally::Tally;

// Every row is compared, or every 16th of more than 60.
fn is_compared(k: usize, i: usize) -> bool {
    k <= 60 || i % 16 == 0
}

// Row i.
fn compare_row(t: &mut Tally, m: u8, xs: &[u8], ys: &[u8], places: &[u16], i: usize, row: &[u8])
    requires { (length xs.now ≤ 288) × (length places.now ≤ 288) }
{
    let mut message = [0; MOST];
    let mut word = [0; MOST];
    let message = &mut message[..places.len()];
    let word = &mut word[..xs.len()];
    if let Some(symbol) = message.get_mut(i) {
        *symbol = 1;
    }
    let found = word_of(m, xs, ys, places, message, word);
    t.compared(found.is_ok() && row == &*word);
}

// Whether the second coder finds the places dependent.
fn are_dependent(m: u8, xs: &[u8], ys: &[u8], places: &[u16]) -> Result<bool, Refusal>
    requires { (length xs.now ≤ 288) × (length places.now ≤ 288) }
{
    let k = places.len();
    let found = word_of(
        m,
        xs,
        ys,
        places,
        &[0; MOST][..k],
        &mut [0; MOST][..xs.len()],
    )?;
    Ok(found.rank < k)
}

// A trial at the k places of a mask, or at random ones where there is none: dependent places are refused, and else the rows are the words.
pub fn try_matrix(
    t: &mut Tally,
    state: &mut u64,
    code: Parameters,
    xs: &[u8],
    ys: &[u8],
    mask: Option<u32>,
)
    requires { (length xs.now ≤ 288) × (code.k ≤ 288) }
{
    let n = xs.len();
    let k = code.k;
    let mut places = [0; MOST];
    choose(state, n, mask, &mut places);
    let places = &places[..k];
    let mut rows = [UNWRITTEN; MATRIX];
    let rows = &mut rows[..k * n];
    let answer = matrix(code, xs, ys, places, rows, &mut [0; WORKING]);
    let dependent = are_dependent(code.field, xs, ys, places) == Ok(true);
    t.chosen(dependent);
    if dependent {
        t.compared(answer.map_err(number) == Err(12));
        return;
    }
    t.compared(answer.is_ok());
    for (i, row) in rows.chunks(n.max(1)).enumerate() {
        if is_compared(k, i) {
            compare_row(t, code.field, xs, ys, places, i, row);
        }
    }
}

// A word in Correct, beside what is expected of it.
ghost use Rattle.std.specs.Prelude.{◌≤◌, ◌<◌, length};

use crate::search::{Near, codewords, differ, radius, search};
use basics::{Refusal, number};
use codewords::Parameters;
use correction::operation::correct;
use elimination::coder::word;
use trials::choose::elements;
use trials::lists::draw;
use trials::memory::{MOST, UNWRITTEN, WORKING};
use trials::random::{below, symbol};
use trials::tally::Tally;

// The answer and what is written: nothing if no codeword lies within t, else the one and its distance.
fn compare(
    t: &mut Tally,
    code: Parameters,
    xs: &[u8],
    ys: &[u8],
    received: &[u8],
    found: Near,
    nearest: &[u8],
)
    requires { length xs.now ≤ 288 }
{
    let mut out = [UNWRITTEN; MOST];
    let out = &mut out[..xs.len()];
    let answer = correct(code, xs, ys, received, out, &mut [0; WORKING]);
    t.chosen(found.count == 0);
    t.compared(found.count <= 1);
    if found.count == 0 {
        t.compared(answer.map_err(number) == Err(21) && out.iter().all(|x| *x == UNWRITTEN));
    } else {
        t.compared(answer == Ok(found.distance) && nearest == &*out);
    }
}

// A word with so many symbols drawn anew, some of them perhaps more than once.
fn spoil(state: &mut u64, q: usize, many: usize, word: &mut [u8])
    requires { 0 < q }
{
    let n = word.len();
    if n == 0 {
        return;
    }
    for _ in 0..many {
        let i = below(state, n);
        word[i] = symbol(state, q);
    }
}

// A word beside plain search.
pub fn try_searched(
    t: &mut Tally,
    code: Parameters,
    xs: &[u8],
    ys: &[u8],
    received: &[u8],
    words: usize,
) -> Result<(), Refusal>
    requires { length xs.now ≤ 288 }
{
    let n = xs.len();
    let mut nearest = [0; MOST];
    let nearest = &mut nearest[..n];
    let found = search(code, xs, ys, received, radius(n, code.k), words, nearest)?;
    compare(t, code, xs, ys, received, found, nearest);
    Ok(())
}

// A codeword with some symbols changed: with up to t + 2 of them beside plain search, or where there are more than `most` codewords, with up to t of
// them, and it comes back.
pub fn try_word(
    t: &mut Tally,
    state: &mut u64,
    code: Parameters,
    xs: &[u8],
    ys: &[u8],
    most: usize,
) -> Result<(), Refusal>
    requires { (length xs.now ≤ 288) × (code.k ≤ 288) }
{
    let n = xs.len();
    let q = elements(code.field);
    let within = radius(n, code.k);
    let words = codewords(q, code.k, most);
    let more = if words.is_some() { 3 } else { 1 };
    let changes = below(state, within + more);
    let mut function = [0; MOST];
    let mut sent = [0; MOST];
    let function = &mut function[..code.k];
    draw(state, q, function);
    word(code.field, xs, ys, function, &mut sent[..n])?;
    let mut received = sent;
    spoil(state, q, changes, &mut received[..n]);
    let received = &received[..n];
    let sent = &sent[..n];
    match words {
        Some(words) => try_searched(t, code, xs, ys, received, words)?,
        None => {
            let found = Near {
                count: 1,
                distance: differ(sent, received),
            };
            compare(t, code, xs, ys, received, found, sent);
        }
    }
    Ok(())
}

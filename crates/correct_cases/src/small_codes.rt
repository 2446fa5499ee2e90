// Two small codes: every word, and codewords with some symbols changed.
ghost use Rattle.std.specs.Prelude.{◌≤◌, length};

use crate::search::advance;
use crate::words::{try_searched, try_word};
use basics::Refusal;
use codewords::Parameters;
use trials::memory::SEED;
use trials::small::{XS_A, XS_B, YS_A, YS_B, a, b};
use trials::tally::{Tally, close, show, write};

// 200 words, beside plain search over all codewords.
fn some_words(code: Parameters, xs: &[u8], ys: &[u8]) -> Result<Tally, Refusal>
    requires { (length xs.now ≤ 288) × (code.k ≤ 288) }
{
    let mut state = SEED;
    let mut t = Tally::default();
    for _ in 0..200 {
        try_word(&mut t, &mut state, code, xs, ys, 16384)?;
    }
    Ok(t)
}

// Every word of symbols below 4; `end` is their number, and `words` that of the codewords.
fn all_words(
    code: Parameters,
    xs: &[u8],
    ys: &[u8],
    end: u32,
    words: usize,
    received: &mut [u8],
) -> Result<Tally, Refusal>
    requires { (length xs.now ≤ 288) × (code.k ≤ 288) }
{
    let mut t = Tally::default();
    for _ in 0..end {
        try_searched(&mut t, code, xs, ys, received, words)?;
        advance(4, received);
    }
    Ok(t)
}

fn line(name: &[u8], k: usize, t: Tally) {
    write(name);
    show(b", k = ", k as u64);
    show(b", Correct: ", t.choices);
    show(b" words, ", t.dependent);
    write(b" too far");
    close(t);
}

pub fn all_a() -> Result<(), Refusal> {
    for k in 1..8 {
        line(b"A", k, some_words(a(k), &XS_A, &YS_A)?);
    }
    Ok(())
}

pub fn all_b() -> Result<(), Refusal> {
    for k in 1..7 {
        line(b"B", k, some_words(b(k), &XS_B, &YS_B)?);
    }
    Ok(())
}

// All words of both, with k = 2.
pub fn every_word() -> Result<(), Refusal> {
    let of_a = all_words(a(2), &XS_A, &YS_A, 65536, 16, &mut [0; 8])?;
    line(b"every word of A", 2, of_a);
    let of_b = all_words(b(2), &XS_B, &YS_B, 16384, 16, &mut [0; 7])?;
    line(b"every word of B", 2, of_b);
    Ok(())
}

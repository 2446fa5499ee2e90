// Each operation over chosen places beside the second coder: its answer, and where it accepts, what it writes.
use basics::{Refusal, number};
use blocks::plain::plain;
use coder::pick::pick;
use coder::rebuild::rebuild;
use coder::recover::recover;
use coder::relation::relation;
use coder::systematic_function::systematic_function;
use coder::systematic_word::systematic_word;
use codewords::Parameters;
use elimination::coder::solution;
use elimination::equations::Added;
use trials::lists::{same_marked, scatter};
use trials::memory::{MOST, UNWRITTEN, WORKING};
use trials::second::Found;
use trials::tally::Tally;

// Places and their symbols, and what the second coder finds of them: the marks of the equations and what they became, the function that
// they give, and its word.
#[derive(Clone, Copy)]
pub struct Trial<'a> {
    pub code: Parameters,
    pub xs: &'a [u8],
    pub ys: &'a [u8],
    pub places: &'a [u16],
    pub symbols: &'a [u8],
    pub found: Found,
    pub marks: &'a [Added],
    pub rows: &'a [u8],
    pub function: &'a [u8],
    pub word: &'a [u8],
}

impl Trial<'_> {
    // The number with which Pick refuses the places.
    pub fn pick_number(&self) -> Result<(), u8> {
        if self.places.len() < self.code.k {
            return Err(13);
        }
        if self.found.rank < self.code.k {
            return Err(12);
        }
        Ok(())
    }

    // The number with which Rebuild and Recover refuse the symbols at them.
    pub fn rebuild_number(&self) -> Result<(), u8> {
        self.pick_number()?;
        if self.found.contradictions > 0 {
            return Err(14);
        }
        Ok(())
    }

    // Plain of the function, beside its word.
    pub fn compare_plain(&self, t: &mut Tally) {
        let mut out = [UNWRITTEN; MOST];
        let out = &mut out[..self.xs.len().min(MOST)];
        let answer = plain(self.code, self.xs, self.ys, self.function, out);
        t.compared(answer.is_ok() && self.word == &*out);
    }

    // Pick, beside the first k places that the equations mark as new.
    pub fn compare_pick(&self, t: &mut Tally) {
        let mut out = [0; MOST];
        let out = &mut out[..self.code.k.min(MOST)];
        let expected = self.pick_number();
        let answer = pick(
            self.code,
            self.xs,
            self.ys,
            self.places,
            out,
            &mut [0; WORKING],
        );
        t.compared(answer.map_err(number) == expected);
        if expected.is_ok() {
            t.compared(same_marked(self.places, self.marks, out));
        }
    }

    // Rebuild, beside the word.
    pub fn compare_rebuild(&self, t: &mut Tally) {
        let mut out = [UNWRITTEN; MOST];
        let out = &mut out[..self.xs.len().min(MOST)];
        let answer = rebuild(
            self.code,
            self.xs,
            self.ys,
            self.places,
            self.symbols,
            out,
            &mut [0; WORKING],
        );
        compare(t, answer, self.rebuild_number(), out, self.word);
    }

    // Recover of symbols at all places, beside the function.
    pub fn compare_recover(&self, t: &mut Tally) {
        let mut received = [0; MOST];
        let received = &mut received[..self.xs.len().min(MOST)];
        scatter(self.symbols, self.places, received);
        let mut out = [UNWRITTEN; MOST];
        let out = &mut out[..self.code.k.min(MOST)];
        let answer = recover(
            self.code,
            self.xs,
            self.ys,
            received,
            out,
            &mut [0; WORKING],
        );
        compare(t, answer, self.rebuild_number(), out, self.function);
    }

    // Systematic function, beside the function.
    pub fn compare_function(&self, t: &mut Tally) {
        let mut out = [UNWRITTEN; MOST];
        let out = &mut out[..self.code.k.min(MOST)];
        let answer = systematic_function(
            self.code,
            self.xs,
            self.ys,
            self.places,
            self.symbols,
            out,
            &mut [0; WORKING],
        );
        compare(t, answer, self.pick_number(), out, self.function);
    }

    // Systematic word, beside the word.
    pub fn compare_word(&self, t: &mut Tally) {
        let mut out = [UNWRITTEN; MOST];
        let out = &mut out[..self.xs.len().min(MOST)];
        let answer = systematic_word(
            self.code,
            self.xs,
            self.ys,
            self.places,
            self.symbols,
            out,
            &mut [0; WORKING],
        );
        compare(t, answer, self.pick_number(), out, self.word);
    }

    // Relation, beside the function that the equations leave if every symbol is 0.
    pub fn compare_relation(&self, t: &mut Tally) {
        let mut out = [UNWRITTEN; MOST];
        let out = &mut out[..self.code.k.min(MOST)];
        let answer = relation(
            self.code,
            self.xs,
            self.ys,
            self.places,
            out,
            &mut [0; WORKING],
        );
        if self.pick_number() != Err(12) {
            t.compared(answer.map_err(number) == Err(15));
            return;
        }
        let mut function = [0; MOST];
        let function = &mut function[..self.code.k.min(MOST)];
        let solved = solution(self.code.field, self.rows, false, function);
        t.compared(solved.is_ok() && answer.is_ok());
        t.compared(&*function == &*out);
    }

    // All operations that take so many places.
    pub fn compare_all(&self, t: &mut Tally) {
        let s = self.places.len();
        self.compare_plain(t);
        self.compare_rebuild(t);
        if s == self.xs.len() {
            self.compare_recover(t);
        }
        if s == self.code.k {
            self.compare_function(t);
            self.compare_word(t);
            t.chosen(self.pick_number() == Err(12));
        }
        self.compare_pick(t);
        if s == self.code.k {
            self.compare_relation(t);
        }
    }
}

// An answer, and where it is Ok, what is written.
fn compare(
    t: &mut Tally,
    answer: Result<(), Refusal>,
    expected: Result<(), u8>,
    out: &[u8],
    right: &[u8],
) {
    t.compared(answer.map_err(number) == expected);
    if expected.is_ok() {
        t.compared(out == right);
    }
}

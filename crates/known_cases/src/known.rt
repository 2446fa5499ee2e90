// The known cases of document 01, literally.
use basics::number;
use coder::pick::pick;
use coder::rebuild::rebuild;
use coder::relation::relation;
use coder::systematic_function::systematic_function;
use coder::systematic_word::systematic_word;
use curve::points;
use elliptic::Curve;
use trials::memory::{MOST, WORKING};
use trials::small::{CURVE_A, CURVE_B, XS_A, XS_B, YS_A, YS_B, a, b};
use trials::tally::Tally;

// The points of A are those of the document.
fn points_a(t: &mut Tally) {
    let mut xs = [0; MOST];
    let mut ys = [0; MOST];
    t.compared(points(2, CURVE_A, &mut xs, &mut ys) == Ok(8));
    t.compared(xs.starts_with(&XS_A));
    t.compared(ys.starts_with(&YS_A));
}

// B has seven points, (0, 1) first, its own opposite: g1·0 + g3 is 0.
fn points_b(t: &mut Tally) {
    let mut xs = [0; MOST];
    let mut ys = [0; MOST];
    t.compared(points(2, CURVE_B, &mut xs, &mut ys) == Ok(7));
    t.compared(xs.starts_with(&XS_B) && ys.starts_with(&YS_B));
    t.compared(xs[0] == 0 && ys[0] == 1);
}

// What the points of a curve of field 2 are counted as, a refusal by its number.
fn count(curve: Curve) -> Result<usize, u8> {
    points(2, curve, &mut [0; MOST], &mut [0; MOST]).map_err(number)
}

pub fn known_points() -> Tally {
    let mut t = Tally::default();
    points_a(&mut t);
    points_b(&mut t);
    let none = Curve { g6: 2, ..CURVE_A };
    let singular = Curve { g3: 0, ..CURVE_A };
    t.compared(count(none) == Ok(0));
    t.compared(count(singular) == Err(3));
    t
}

// What an operation answers over A, a refusal by its number.
fn function_a(k: usize, places: &[u16], message: &[u8], out: &mut [u8]) -> Result<(), u8> {
    systematic_function(a(k), &XS_A, &YS_A, places, message, out, &mut [0; WORKING]).map_err(number)
}

fn word_a(k: usize, places: &[u16], message: &[u8], out: &mut [u8]) -> Result<(), u8> {
    systematic_word(a(k), &XS_A, &YS_A, places, message, out, &mut [0; WORKING]).map_err(number)
}

fn relation_a(k: usize, places: &[u16], out: &mut [u8]) -> Result<(), u8> {
    relation(a(k), &XS_A, &YS_A, places, out, &mut [0; WORKING]).map_err(number)
}

fn pick_a(k: usize, places: &[u16], out: &mut [u16]) -> Result<(), u8> {
    pick(a(k), &XS_A, &YS_A, places, out, &mut [0; WORKING]).map_err(number)
}

fn rebuild_a(k: usize, places: &[u16], symbols: &[u8], out: &mut [u8]) -> Result<(), u8> {
    rebuild(a(k), &XS_A, &YS_A, places, symbols, out, &mut [0; WORKING]).map_err(number)
}

// Systematic function of A with k = 5 at places 1,2,3,5,8.
fn unit_function(t: &mut Tally, message: [u8; 5], function: [u8; 5]) {
    let mut out = [9; 5];
    let answer = function_a(5, &[1, 2, 3, 5, 8], &message, &mut out);
    t.compared(answer.is_ok() && out == function);
}

// The functions for the unit messages: source document 001, Example 1.
fn example(t: &mut Tally) {
    unit_function(t, [1, 0, 0, 0, 0], [1, 0, 1, 2, 3]);
    unit_function(t, [0, 1, 0, 0, 0], [0, 1, 1, 1, 1]);
    unit_function(t, [0, 0, 1, 0, 0], [0, 0, 0, 2, 2]);
    unit_function(t, [0, 0, 0, 1, 0], [0, 2, 0, 1, 2]);
    unit_function(t, [0, 0, 0, 0, 1], [0, 3, 0, 0, 2]);
}

// A, k = 2, places 1,2: dependent.
fn pair_a(t: &mut Tally) {
    let answer = word_a(2, &[1, 2], &[1, 0], &mut [9; 8]);
    t.compared(answer == Err(12));
}

// B, k = 2, places 1,2, message 1,0: the function.
fn function_b(t: &mut Tally) {
    let mut out = [9; 2];
    let work = &mut [0; WORKING];
    let answer = systematic_function(b(2), &XS_B, &YS_B, &[1, 2], &[1, 0], &mut out, work);
    t.compared(answer.is_ok() && out == [1, 1]);
}

// And the word.
fn word_b(t: &mut Tally) {
    let mut out = [9; 7];
    let work = &mut [0; WORKING];
    let answer = systematic_word(b(2), &XS_B, &YS_B, &[1, 2], &[1, 0], &mut out, work);
    t.compared(answer.is_ok() && out == [1, 0, 0, 3, 3, 2, 2]);
}

// A, k = 3, places 3,5,7: dependent, though no two of them share X.
fn line_function(t: &mut Tally) {
    let answer = function_a(3, &[3, 5, 7], &[1, 0, 0], &mut [9; 3]);
    t.compared(answer == Err(12));
}

fn line_relation(t: &mut Tally) {
    let mut out = [9; 3];
    let answer = relation_a(3, &[3, 5, 7], &mut out);
    t.compared(answer.is_ok() && out == [2, 0, 1]);
}

fn line_pick(t: &mut Tally) {
    let mut out = [0; 3];
    let answer = pick_a(3, &[3, 5, 7, 1], &mut out);
    t.compared(answer.is_ok() && out == [3, 5, 1]);
}

// A, k = 4, places 1,2,3,4.
fn four_relation(t: &mut Tally) {
    let mut out = [9; 4];
    let answer = relation_a(4, &[1, 2, 3, 4], &mut out);
    t.compared(answer.is_ok() && out == [0, 1, 0, 1]);
}

// A, k = 5: Rebuild, and with place 4 and symbol 0 added.
fn rebuilt(t: &mut Tally) {
    let mut out = [9; 8];
    let answer = rebuild_a(5, &[1, 2, 3, 5, 8], &[1, 0, 0, 0, 0], &mut out);
    t.compared(answer.is_ok() && out == [1, 0, 0, 2, 0, 0, 3, 0]);
}

fn not_rebuilt(t: &mut Tally) {
    let answer = rebuild_a(5, &[1, 2, 3, 5, 8, 4], &[1, 0, 0, 0, 0, 0], &mut [9; 8]);
    t.compared(answer == Err(14));
}

pub fn known_functions() -> Tally {
    let mut t = Tally::default();
    example(&mut t);
    pair_a(&mut t);
    function_b(&mut t);
    word_b(&mut t);
    line_function(&mut t);
    line_relation(&mut t);
    line_pick(&mut t);
    four_relation(&mut t);
    rebuilt(&mut t);
    not_rebuilt(&mut t);
    t
}

// A with k = 0 and k = 8: no dimension of a code.
pub fn known_dimensions() -> Tally {
    let mut t = Tally::default();
    let none = word_a(0, &[], &[], &mut [9; 8]);
    let all = word_a(8, &[1, 2, 3, 4, 5, 6, 7, 8], &[0; 8], &mut [9; 8]);
    t.compared(none == Err(7));
    t.compared(all == Err(7));
    t
}

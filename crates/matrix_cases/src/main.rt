// Matrix beside a second coder that solves the linear equations, and Heard beside a plain listing of bits: at all choices and masks of two small codes,
// in random codes over every field, and at 80 points. One line for each group; the file `stdout` beside this folder has what they must be.
#![tactic(auto)]

mod eighty;
mod heard;
mod matrices;
mod random_codes;
mod small_codes;

use trials::tally::finish;

fn main() {
    small_codes::all_a();
    small_codes::all_b();
    small_codes::heard();
    random_codes::fields();
    random_codes::large();
    finish(eighty::eighty());
}

// Correct beside plain search over all codewords of a second coder, and beside the codeword that was changed: in two small codes, in random codes over
// every field, and at 80 points. One line for each group; the file `stdout` beside this folder has what they must be.
#![tactic(auto)]

mod eighty;
mod random_codes;
mod search;
mod small_codes;
mod words;

use basics::Refusal;
use trials::tally::finish;

fn groups() -> Result<(), Refusal> {
    small_codes::every_word()?;
    small_codes::all_a()?;
    small_codes::all_b()?;
    random_codes::fields()?;
    random_codes::large()?;
    eighty::eighty()
}

fn main() {
    finish(groups());
}

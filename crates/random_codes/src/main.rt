// Random codes over every field, and the curve with 80 points, by the proved operations and by a second coder that solves the linear equations.
// One line for each group; the file `stdout` beside this folder has what they must be. A difference shows in its group's line.
#![tactic(auto)]

mod codes;
mod eighty;

use trials::tally::finish;

fn main() {
    codes::random_codes();
    codes::large_codes();
    finish(eighty::eighty());
}

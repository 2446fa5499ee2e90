// The known cases of document 01, and all choices of two small codes, by the proved operations and by a second coder that solves the linear equations.
// One line for each group; the file `stdout` beside this folder has what they must be. A difference shows in its group's line.
#![tactic(auto)]

mod choices;
mod hourly;
mod known;

use trials::tally::{Tally, close, write};

fn group(name: &[u8], t: Tally) {
    write(name);
    close(t);
}

fn main() {
    group(b"known cases, points", known::known_points());
    group(b"known cases, functions", known::known_functions());
    group(b"known cases, k = 0 and k = 8", known::known_dimensions());
    group(b"known cases, hourly means", hourly::known_means());
    group(b"known cases, stamps", hourly::known_stamps());
    group(b"known cases, packing", hourly::known_packing());
    choices::all_a();
    choices::all_b();
}

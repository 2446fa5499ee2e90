// A job: the code of a sheet, and Systematic function and word over it.
ghost use Rattle.basics.specs.Outcome.{Done};
ghost use Rattle.std.specs.Prelude.{◌≡◌, true, ◌≤◌, ◌<◌, length, take};
ghost use Rattle.basics.specs.Lists.{all};
ghost use Rattle.code.specs.Lists.{is_below};
ghost use Rattle.codewords.specs.Code.{code_of, code_answer};
ghost use Rattle.sheet.specs.Job.{job_outcome, outcome_over};
ghost use Rattle.sheet.specs.Running.{Runs, Rooms, Solvable, over_points, after_code, solving, small, parameters_of, job_of};

use basics::Refusal;
use code::test::test_code;
use coder::systematic_function::systematic_function;
use coder::systematic_word::systematic_word;
use codewords::Parameters;
use curve::points;
use elliptic::Curve;
use field::{is_field, size};
use solving::tests::test_places;
use text::sheet::Head;

// Every symbol is below q, whatever a byte can hold.
fn symbols_below(q: usize, message: &[u16]) -> bool
    ensures { result ≡ all (is_below q) message.now }
{
    message.iter().all(|symbol| usize::from(*symbol) < q)
}

// The symbols as bytes, to the front of a buffer.
fn narrow(message: &[u16], symbols: &mut [u8])
    requires { (length message.now ≤ length symbols.old) × (all (is_below 256) message.now ≡ true) }
    ensures { take (length message.now) symbols.new ≡ message.now }
{
    for i in 0..message.len() {
        symbols[i] = message[i] as u8;
    }
}

// Function and word of a message that passed every test but that of dependent places, to the front of two buffers, with the length of the word.
fn solve_into(
    p: Parameters,
    xs: &[u8],
    ys: &[u8],
    places: &[u16],
    symbols: &[u8],
    function: &mut [u8],
    word: &mut [u8],
) -> Result<usize, Refusal>
    requires solvable { Solvable (code_of p xs.now ys.now) places.now symbols.now }
    requires rooms { Rooms function.old word.old }
    ensures { Runs (solving (code_of p xs.now ys.now) places.now symbols.now) p.k function.new word.new result }
{
    let n = xs.len();
    let mut work = [0u8; 8192];
    systematic_function(p, xs, ys, places, symbols, &mut function[..p.k], &mut work)?;
    systematic_word(p, xs, ys, places, symbols, &mut word[..n], &mut work)?;
    Ok(n)
}

// The same with symbols that are not bytes yet.
fn solve_message(
    p: Parameters,
    xs: &[u8],
    ys: &[u8],
    places: &[u16],
    message: &[u16],
    function: &mut [u8],
    word: &mut [u8],
) -> Result<usize, Refusal>
    requires solvable { Solvable (code_of p xs.now ys.now) places.now message.now }
    requires rooms { Rooms function.old word.old }
    ensures { Runs (solving (code_of p xs.now ys.now) places.now message.now) p.k function.new word.new result }
{
    let mut symbols = [0u8; 288];
    narrow(message, &mut symbols);
    solve_into(p, xs, ys, places, &symbols[..message.len()], function, word)
}

// Numbers 8 to 12, where the code passed its test.
fn run_tested(
    p: Parameters,
    xs: &[u8],
    ys: &[u8],
    places: &[u16],
    message: &[u16],
    function: &mut [u8],
    word: &mut [u8],
) -> Result<usize, Refusal>
    requires ys_value { code_answer (code_of p xs.now ys.now) ≡ Done }
    requires rooms { Rooms function.old word.old }
    ensures { Runs (after_code (code_of p xs.now ys.now) places.now message.now) p.k function.new word.new result }
{
    if places.len() != p.k {
        return Err(Refusal::Length);
    }
    if message.len() != p.k {
        return Err(Refusal::Length);
    }
    test_places(xs.len(), places)?;
    if !symbols_below(size(p.field), message) {
        return Err(Refusal::Symbol);
    }
    solve_message(p, xs, ys, places, message, function, word)
}

// The code test, and then what is behind it.
fn run_over(
    p: Parameters,
    xs: &[u8],
    ys: &[u8],
    places: &[u16],
    message: &[u16],
    function: &mut [u8],
    word: &mut [u8],
) -> Result<usize, Refusal>
    requires { Rooms function.old word.old }
    ensures { Runs (outcome_over (code_of p xs.now ys.now) places.now message.now) p.k function.new word.new result }
{
    test_code(p, xs, ys)?;
    run_tested(p, xs, ys, places, message, function, word)
}

// The points, and then the job over them.
fn run_points(
    p: Parameters,
    places: &[u16],
    message: &[u16],
    function: &mut [u8],
    word: &mut [u8],
) -> Result<usize, Refusal>
    requires { Rooms function.old word.old }
    ensures { Runs (outcome_over (over_points p) places.now message.now) p.k function.new word.new result }
{
    let mut xs = [0u8; 288];
    let mut ys = [0u8; 288];
    let n = points(p.field, p.curve, &mut xs, &mut ys)?;
    run_over(p, &xs[..n], &ys[..n], places, message, function, word)
}

// The coefficients fit bytes.
fn is_small(h: Head) -> bool
    ensures { result ≡ small h }
{
    h.g1 < 256 && h.g2 < 256 && h.g3 < 256 && h.g4 < 256 && h.g6 < 256
}

fn parameters(h: Head) -> Parameters
    requires { (h.field < 256) × (small h ≡ true) }
    ensures { result ≡ parameters_of h }
{
    let curve = Curve {
        g1: h.g1 as u8,
        g2: h.g2 as u8,
        g3: h.g3 as u8,
        g4: h.g4 as u8,
        g6: h.g6 as u8,
    };
    Parameters {
        field: h.field as u8,
        curve,
        k: usize::from(h.k),
    }
}

// What a sheet asks for: function and word to the front of two buffers, with the length of the word.
pub fn run(
    head: Head,
    places: &[u16],
    message: &[u16],
    function: &mut [u8],
    word: &mut [u8],
) -> Result<usize, Refusal>
    requires { Rooms function.old word.old }
    ensures { Runs (job_outcome (job_of head places.now message.now)) head.k function.new word.new result }
{
    if 256 <= head.field {
        return Err(Refusal::FieldNumber);
    }
    if !is_field(head.field as u8) {
        return Err(Refusal::FieldNumber);
    }
    if !is_small(head) {
        return Err(Refusal::CurveCoefficient);
    }
    run_points(parameters(head), places, message, function, word)
}

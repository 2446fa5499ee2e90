// Systematic function: the function that agrees with a message at k places.
ghost use Rattle.codewords.specs.Code.{code_of};
ghost use Rattle.std.specs.Prelude.{◌≡◌, ◌≤◌, length};
ghost use Rattle.basics.specs.Outcome.{Meets, answer_of};
ghost use Rattle.code.specs.Shown.{shown};
ghost use Rattle.solving.specs.Tests.{room};
ghost use Rattle.coder.specs.Outcomes.{systematic_function_outcome};
ghost use Rattle.coder.specs.Stages.{function_run, function_tested};

use basics::Refusal;
use code::accepted::Code;
use codewords::Parameters;
use field::{Field, test_number};
use interpolation::write::write_function;
use solving::prepare::prepare;
use solving::work::{ROOM, clear_room};

// The tests from number 9 on, and then the result. An array is lent for the function.
fn systematic_function_run(
    code: &Code,
    places: &[u16],
    symbols: &[u8],
    f: &mut [u8],
    out: &mut [u8],
    work: &mut [u8],
) -> Result<(), Refusal>
    requires places_len { (length places.now ≡ code.now.k) × (length symbols.now ≡ code.now.k) × (length out.old ≡ code.now.k) × (room ≤ length work.old) × (292 ≤ length f.old) }
    ensures { Meets (function_run (shown code.now) places.now symbols.now work.old) (answer_of result)
        (out.old, work.old) (out.new, work.new) }
{
    prepare(code, places, symbols, f)?;
    write_function(f, code.k, out);
    clear_room(work);
    Ok(())
}

// Systematic function of a code that passed the code test.
fn systematic_function_tested(
    code: &Code,
    places: &[u16],
    symbols: &[u8],
    out: &mut [u8],
    work: &mut [u8],
) -> Result<(), Refusal>
    ensures { Meets (function_tested (shown code.now) places.now symbols.now out.old work.old) (answer_of result)
        (out.old, work.old) (out.new, work.new) }
{
    if places.len() != code.k {
        return Err(Refusal::Length);
    }
    if symbols.len() != code.k {
        return Err(Refusal::Length);
    }
    if out.len() != code.k {
        return Err(Refusal::Length);
    }
    if work.len() < ROOM {
        return Err(Refusal::Length);
    }
    let mut f = [0u8; 292];
    systematic_function_run(code, places, symbols, &mut f, out, work)
}

// The k coefficients of the function that takes the message symbols at the places.
pub fn systematic_function(
    code: Parameters,
    xs: &[u8],
    ys: &[u8],
    places: &[u16],
    symbols: &[u8],
    out: &mut [u8],
    work: &mut [u8],
) -> Result<(), Refusal>
    ensures { Meets (systematic_function_outcome (code_of code xs.now ys.now) places.now symbols.now out.old work.old) (answer_of result)
        (out.old, work.old) (out.new, work.new) }
{
    test_number(code.field)?;
    let field = Field::of(code.field);
    let accepted = Code::new(&field, code.curve, code.k, xs, ys)?;
    systematic_function_tested(&accepted, places, symbols, out, work)
}

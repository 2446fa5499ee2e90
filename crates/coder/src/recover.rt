// Recover: the coefficients of a codeword, from all its symbols.
ghost use Rattle.codewords.specs.Code.{code_of};
ghost use Rattle.std.specs.Prelude.{◌≡◌, ◌+◌, ◌<◌, ◌≤◌, length};
ghost use Rattle.basics.specs.Lists.{table};
ghost use Rattle.basics.specs.Outcome.{Meets, answer_of};
ghost use Rattle.code.specs.Shown.{shown};
ghost use Rattle.solving.specs.Tests.{room};
ghost use Rattle.coder.specs.Outcomes.{recover_outcome};
ghost use Rattle.coder.specs.Stages.{place_at, recover_run, recover_tested};

use basics::{MessageIndex, Place, Refusal};
use code::accepted::Code;
use codewords::Parameters;
use field::{Field, test_number};
use interpolation::write::write_function;
use solving::prepare::prepare;
use solving::words::agrees_all;
use solving::work::{ROOM, clear_room};

// The place of a message index, where all places are chosen in their order.
fn place_at(index: MessageIndex) -> Place
    requires { index.0 < 288 }
    ensures { result.0 ≡ place_at index.0 }
{
    Place(index.0 as u16 + 1)
}

// All places in their order.
fn fill_places(places: &mut [u16])
    requires { length places.old ≤ 288 }
    ensures { places.new ≡ table place_at (length places.old) }
{
    for (i, place) in places.iter_mut().enumerate() {
        *place = place_at(MessageIndex(i)).0;
    }
}

// The tests from number 11 on, and then the result. An array is lent for the function.
fn recover_run(
    code: &Code,
    places: &[u16],
    symbols: &[u8],
    f: &mut [u8],
    out: &mut [u8],
    work: &mut [u8],
) -> Result<(), Refusal>
    requires places_value { (places.now ≡ table place_at (length code.now.xs.now)) × (length symbols.now ≡ length code.now.xs.now) × (length out.old ≡ code.now.k) × (room ≤ length work.old) × (292 ≤ length f.old) }
    ensures { Meets (recover_run (shown code.now) symbols.now work.old) (answer_of result)
        (out.old, work.old) (out.new, work.new) }
{
    prepare(code, places, symbols, f)?;
    if !agrees_all(code, places, symbols, f) {
        return Err(Refusal::NoCodeword);
    }
    write_function(f, code.k, out);
    clear_room(work);
    Ok(())
}

// The same, with an array for the places.
fn recover_at(
    code: &Code,
    places: &mut [u16],
    symbols: &[u8],
    f: &mut [u8],
    out: &mut [u8],
    work: &mut [u8],
) -> Result<(), Refusal>
    requires in_bounds { (288 ≤ length places.old) × (length symbols.now ≡ length code.now.xs.now) × (length out.old ≡ code.now.k) × (room ≤ length work.old) × (292 ≤ length f.old) }
    ensures { Meets (recover_run (shown code.now) symbols.now work.old) (answer_of result)
        (out.old, work.old) (out.new, work.new) }
{
    let n = code.xs.len();
    fill_places(&mut places[..n]);
    recover_run(code, &places[..n], symbols, f, out, work)
}

// Recover of a code that passed the code test.
fn recover_tested(
    code: &Code,
    symbols: &[u8],
    out: &mut [u8],
    work: &mut [u8],
) -> Result<(), Refusal>
    ensures { Meets (recover_tested (shown code.now) symbols.now out.old work.old) (answer_of result)
        (out.old, work.old) (out.new, work.new) }
{
    if symbols.len() != code.xs.len() {
        return Err(Refusal::Length);
    }
    if out.len() != code.k {
        return Err(Refusal::Length);
    }
    if work.len() < ROOM {
        return Err(Refusal::Length);
    }
    let mut places = [0u16; 288];
    let mut f = [0u8; 292];
    recover_at(code, &mut places, symbols, &mut f, out, work)
}

// The k coefficients of the codeword.
pub fn recover(
    code: Parameters,
    xs: &[u8],
    ys: &[u8],
    symbols: &[u8],
    out: &mut [u8],
    work: &mut [u8],
) -> Result<(), Refusal>
    ensures { Meets (recover_outcome (code_of code xs.now ys.now) symbols.now out.old work.old) (answer_of result)
        (out.old, work.old) (out.new, work.new) }
{
    test_number(code.field)?;
    let field = Field::of(code.field);
    let accepted = Code::new(&field, code.curve, code.k, xs, ys)?;
    recover_tested(&accepted, symbols, out, work)
}

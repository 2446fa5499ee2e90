// Relation: the function with leading coefficient 1 that is zero at k dependent places.
ghost use Rattle.codewords.specs.Code.{code_of};
ghost use Rattle.std.specs.Prelude.{◌≡◌, ◌≤◌, length};
ghost use Rattle.basics.specs.Outcome.{Meets, answer_of};
ghost use Rattle.code.specs.Shown.{shown};
ghost use Rattle.engine.specs.Arrays.{Long};
ghost use Rattle.solving.specs.Given.{Placed};
ghost use Rattle.solving.specs.Tests.{room};
ghost use Rattle.coder.specs.Outcomes.{relation_outcome};
ghost use Rattle.coder.specs.Stages.{relation_run, relation_placed, relation_tested};

use basics::{MessageIndex, Refusal};
use code::accepted::Code;
use codewords::Parameters;
use engine::places::chosen_place;
use field::{Field, test_number};
use interpolation::interpolate::run_pair;
use interpolation::write::write_low;
use solving::tests::test_places;
use solving::work::{ROOM, clear_room};
use solving::zero::zero_at;

// L of the first k − 1 places is the function if it is zero at the last. Two arrays are lent for the pair.
fn relation_run(
    code: &Code,
    places: &[u16],
    l: &mut [u8],
    u: &mut [u8],
    out: &mut [u8],
    work: &mut [u8],
) -> Result<(), Refusal>
    requires placed { Placed (shown code.now) places.now × Long l.old u.old × (length places.now ≡ code.now.k) × (length out.old ≡ code.now.k) × (room ≤ length work.old) }
    ensures { Meets (relation_run (shown code.now) places.now work.old) (answer_of result)
        (out.old, work.old) (out.new, work.new) }
{
    let last = code.k - 1;
    let n = run_pair(code.field, code.xs, code.ys, places, last, l, u);
    let place = chosen_place(places, MessageIndex(last));
    let dependent = zero_at(code.field, code.xs, code.ys, place, l, u, n);
    if !dependent {
        return Err(Refusal::Independent);
    }
    write_low(l, u, n, out);
    clear_room(work);
    Ok(())
}

// Relation of lists that have the right lengths.
fn relation_placed(
    code: &Code,
    places: &[u16],
    out: &mut [u8],
    work: &mut [u8],
) -> Result<(), Refusal>
    requires places_len { (length places.now ≡ code.now.k) × (length out.old ≡ code.now.k) × (room ≤ length work.old) }
    ensures { Meets (relation_placed (shown code.now) places.now work.old) (answer_of result)
        (out.old, work.old) (out.new, work.new) }
{
    test_places(code.xs.len(), places)?;
    let mut l = [0u8; 292];
    let mut u = [0u8; 292];
    relation_run(code, places, &mut l, &mut u, out, work)
}

// Relation of a code that passed the code test.
fn relation_tested(
    code: &Code,
    places: &[u16],
    out: &mut [u8],
    work: &mut [u8],
) -> Result<(), Refusal>
    ensures { Meets (relation_tested (shown code.now) places.now out.old work.old) (answer_of result)
        (out.old, work.old) (out.new, work.new) }
{
    if places.len() != code.k {
        return Err(Refusal::Length);
    }
    if out.len() != code.k {
        return Err(Refusal::Length);
    }
    if work.len() < ROOM {
        return Err(Refusal::Length);
    }
    relation_placed(code, places, out, work)
}

// The k coefficients of the function that is zero at all k places.
pub fn relation(
    code: Parameters,
    xs: &[u8],
    ys: &[u8],
    places: &[u16],
    out: &mut [u8],
    work: &mut [u8],
) -> Result<(), Refusal>
    ensures { Meets (relation_outcome (code_of code xs.now ys.now) places.now out.old work.old) (answer_of result)
        (out.old, work.old) (out.new, work.new) }
{
    test_number(code.field)?;
    let field = Field::of(code.field);
    let accepted = Code::new(&field, code.curve, code.k, xs, ys)?;
    relation_tested(&accepted, places, out, work)
}

// Pick: of places ranked best first, the first k that work.
ghost use Rattle.codewords.specs.Code.{code_of};
ghost use Rattle.std.specs.Prelude.{◌≡◌, [], ◌∷◌, ◌++◌, ◌-◌, ◌<◌, ◌≤◌, length, take, get_or};
ghost use Rattle.basics.specs.Outcome.{Meets, answer_of};
ghost use Rattle.code.specs.Shown.{shown};
ghost use Rattle.solving.specs.Given.{Placed};
ghost use Rattle.solving.specs.Tests.{room};
ghost use Rattle.coder.specs.Outcomes.{pick_outcome};
ghost use Rattle.coder.specs.Stages.{pick_run, pick_placed, pick_tested};

use basics::{MessageIndex, Refusal};
use code::accepted::Code;
use codewords::Parameters;
use engine::places::chosen_place;
use field::{Field, test_number};
use solving::last_index::last_index;
use solving::last_zero::last_zero;
use solving::tests::test_places;
use solving::work::{ROOM, clear_room};

// The first places, and at the end of `out` the one of the message index `last`.
fn write_picked(ranked: &[u16], last: MessageIndex, out: &mut [u16])
    requires { (last.0 < length ranked.now) × (0 < length out.old) × (length out.old ≤ length ranked.now) }
    ensures { out.new ≡ take (length out.old - 1) ranked.now ++ get_or ranked.now last.0 0 ∷ [] }
{
    let end = out.len() - 1;
    for i in 0..end {
        let place = chosen_place(ranked, MessageIndex(i));
        out[i] = place.0;
    }
    let place = chosen_place(ranked, last);
    out[end] = place.0;
}

// Pick of different places.
fn pick_run(code: &Code, ranked: &[u16], out: &mut [u16], work: &mut [u8]) -> Result<(), Refusal>
    requires placed { Placed (shown code.now) ranked.now × (length out.old ≡ code.now.k) × (room ≤ length work.old) }
    ensures { Meets (pick_run (shown code.now) ranked.now work.old) (answer_of result)
        (out.old, work.old) (out.new, work.new) }
{
    if ranked.len() < code.k {
        return Err(Refusal::TooFew);
    }
    let zero = last_zero(code, ranked);
    let last = last_index(code.k, zero);
    if last.0 == ranked.len() {
        return Err(Refusal::Dependent);
    }
    write_picked(ranked, last, out);
    clear_room(work);
    Ok(())
}

// Pick of lists that have the right lengths.
fn pick_placed(code: &Code, ranked: &[u16], out: &mut [u16], work: &mut [u8]) -> Result<(), Refusal>
    requires out_len { (length out.old ≡ code.now.k) × (room ≤ length work.old) }
    ensures { Meets (pick_placed (shown code.now) ranked.now work.old) (answer_of result)
        (out.old, work.old) (out.new, work.new) }
{
    test_places(code.xs.len(), ranked)?;
    pick_run(code, ranked, out, work)
}

// Pick of a code that passed the code test.
fn pick_tested(code: &Code, ranked: &[u16], out: &mut [u16], work: &mut [u8]) -> Result<(), Refusal>
    ensures { Meets (pick_tested (shown code.now) ranked.now out.old work.old) (answer_of result)
        (out.old, work.old) (out.new, work.new) }
{
    if code.xs.len() < ranked.len() {
        return Err(Refusal::Length);
    }
    if out.len() != code.k {
        return Err(Refusal::Length);
    }
    if work.len() < ROOM {
        return Err(Refusal::Length);
    }
    pick_placed(code, ranked, out, work)
}

// Of the ranked places the k that are kept.
pub fn pick(
    code: Parameters,
    xs: &[u8],
    ys: &[u8],
    ranked: &[u16],
    out: &mut [u16],
    work: &mut [u8],
) -> Result<(), Refusal>
    ensures { Meets (pick_outcome (code_of code xs.now ys.now) ranked.now out.old work.old) (answer_of result)
        (out.old, work.old) (out.new, work.new) }
{
    test_number(code.field)?;
    let field = Field::of(code.field);
    let accepted = Code::new(&field, code.curve, code.k, xs, ys)?;
    pick_tested(&accepted, ranked, out, work)
}

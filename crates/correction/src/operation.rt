// Correct: the codeword within t of the symbols, and how many places it changes.
ghost use Rattle.codewords.specs.Code.{code_of};
ghost use Rattle.std.specs.Prelude.{◌≡◌};
ghost use Rattle.basics.specs.Outcome.{Meets, count_of};
ghost use Rattle.code.specs.Shown.{shown};
ghost use Rattle.codewords.specs.Codewords.{symbols};
ghost use Rattle.correction.specs.Outcomes.{correct_outcome};
ghost use Rattle.correction.specs.Stages.{correct_tested};

use crate::run::correct_run;
use basics::Refusal;
use code::accepted::Code;
use code::lists::all_below;
use codewords::Parameters;
use field::{Field, test_number};
use solving::work::ROOM;

// Correct of a code that passed the code test.
fn correct_tested(code: &Code, r: &[u8], out: &mut [u8], work: &mut [u8]) -> Result<usize, Refusal>
    ensures { Meets (correct_tested (shown code.now) r.now out.old work.old) (count_of result)
        (out.old, work.old) (out.new, work.new) }
{
    if r.len() != code.xs.len() {
        return Err(Refusal::Length);
    }
    if out.len() != code.xs.len() {
        return Err(Refusal::Length);
    }
    if work.len() < ROOM {
        return Err(Refusal::Length);
    }
    if !all_below(code.field.size(), r) {
        return Err(Refusal::Symbol);
    }
    correct_run(code, r, out, work)
}

// The n symbols of the codeword within t, with the count of places where it differs from r.
pub fn correct(
    code: Parameters,
    xs: &[u8],
    ys: &[u8],
    r: &[u8],
    out: &mut [u8],
    work: &mut [u8],
) -> Result<usize, Refusal>
    ensures { Meets (correct_outcome (code_of code xs.now ys.now) r.now out.old work.old) (count_of result)
        (out.old, work.old) (out.new, work.new) }
{
    test_number(code.field)?;
    let field = Field::of(code.field);
    let accepted = Code::new(&field, code.curve, code.k, xs, ys)?;
    correct_tested(&accepted, r, out, work)
}

// Best: the cheapest codeword of so many tries, with its cost, the tries made and the gap.
ghost use Rattle.codewords.specs.Code.{code_of};
ghost use Rattle.std.specs.Prelude.{◌≡◌, ◌≤◌, length};
ghost use Rattle.basics.specs.Outcome.{Meets, answer_of};
ghost use Rattle.code.specs.Shown.{shown};
ghost use Rattle.solving.specs.Tests.{room};
ghost use Rattle.best.specs.Outcomes.{best_outcome};
ghost use Rattle.best.specs.Stages.{best_sized, best_tested};

use crate::run::best_run;
use basics::Refusal;
use code::accepted::Code;
use code::lists::all_below;
use codewords::Parameters;
use field::{Field, test_number};
use solving::work::ROOM;

// The greatest budget.
const MOST_TRIES: u32 = 65535;

// Best of lists that have the right lengths.
fn best_sized(
    code: &Code,
    received: &[u8],
    trusts: &[u8],
    budget: u32,
    out: &mut [u8],
    figures: &mut [u32],
    work: &mut [u8],
) -> Result<(), Refusal>
    requires received_len { (length received.now ≡ length code.now.xs.now) × (length trusts.now ≡ length code.now.xs.now) × (length out.old ≡ length code.now.xs.now) × (length figures.old ≡ 3) × (room ≤ length work.old) }
    ensures { Meets (best_sized (shown code.now) received.now trusts.now budget work.old) (answer_of result)
        (out.old, figures.old, work.old) (out.new, figures.new, work.new) }
{
    if !all_below(code.field.size(), received) {
        return Err(Refusal::Symbol);
    }
    if budget < 1 || MOST_TRIES < budget {
        return Err(Refusal::Budget);
    }
    best_run(code, received, trusts, budget as usize, out, figures, work);
    Ok(())
}

// Best of a code that passed the code test.
fn best_tested(
    code: &Code,
    received: &[u8],
    trusts: &[u8],
    budget: u32,
    out: &mut [u8],
    figures: &mut [u32],
    work: &mut [u8],
) -> Result<(), Refusal>
    ensures { Meets (best_tested (shown code.now) received.now trusts.now budget out.old figures.old work.old) (answer_of result)
        (out.old, figures.old, work.old) (out.new, figures.new, work.new) }
{
    let n = code.xs.len();
    if received.len() != n {
        return Err(Refusal::Length);
    }
    if trusts.len() != n {
        return Err(Refusal::Length);
    }
    if out.len() != n {
        return Err(Refusal::Length);
    }
    if figures.len() != 3 {
        return Err(Refusal::Length);
    }
    if work.len() < ROOM {
        return Err(Refusal::Length);
    }
    best_sized(code, received, trusts, budget, out, figures, work)
}

// The n symbols of the cheapest codeword of so many tries, and its figures: cost, tries made and gap.
pub fn best(
    code: Parameters,
    xs: &[u8],
    ys: &[u8],
    received: &[u8],
    trusts: &[u8],
    budget: u32,
    out: &mut [u8],
    figures: &mut [u32],
    work: &mut [u8],
) -> Result<(), Refusal>
    ensures { Meets (best_outcome (code_of code xs.now ys.now) received.now trusts.now budget out.old figures.old work.old) (answer_of result)
        (out.old, figures.old, work.old) (out.new, figures.new, work.new) }
{
    test_number(code.field)?;
    let field = Field::of(code.field);
    let accepted = Code::new(&field, code.curve, code.k, xs, ys)?;
    best_tested(&accepted, received, trusts, budget, out, figures, work)
}

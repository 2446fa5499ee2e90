// Plain: from the coefficients of a function to its codeword.
ghost use Rattle.std.specs.Prelude.{length};
ghost use Rattle.basics.specs.Outcome.{Meets, answer_of};
ghost use Rattle.codewords.specs.Code.{code_of};
ghost use Rattle.code.specs.Shown.{shown};
ghost use Rattle.blocks.specs.Outcomes.{plain_tested, plain_outcome};

use basics::Refusal;
use code::accepted::Code;
use code::lists::all_below;
use codewords::Parameters;
use evaluation::word::write_word;
use field::{Field, test_number};

// Plain of a code that passed the code test.
fn plain_tested(code: &Code, coefficients: &[u8], out: &mut [u8]) -> Result<(), Refusal>
    ensures { Meets (plain_tested (shown code.now) coefficients.now (length out.old))
        (answer_of result) out.old out.new }
{
    if coefficients.len() != code.k {
        return Err(Refusal::Length);
    }
    if out.len() != code.xs.len() {
        return Err(Refusal::Length);
    }
    let q = code.field.size();
    if !all_below(q, coefficients) {
        return Err(Refusal::Symbol);
    }
    write_word(code.field, code.xs, code.ys, coefficients, out);
    Ok(())
}

// The values of the function at the listed points.
pub fn plain(
    code: Parameters,
    xs: &[u8],
    ys: &[u8],
    coefficients: &[u8],
    out: &mut [u8],
) -> Result<(), Refusal>
    ensures { Meets (plain_outcome (code_of code xs.now ys.now) coefficients.now (length out.old))
        (answer_of result) out.old out.new }
{
    test_number(code.field)?;
    let field = Field::of(code.field);
    let accepted = Code::new(&field, code.curve, code.k, xs, ys)?;
    plain_tested(&accepted, coefficients, out)
}

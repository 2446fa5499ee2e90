// What a customer signs against: three demands over the calls of all operations, in specs/, each with one theorem in proofs/.
#![tactic(auto)]

ghost use Rattle.basics.specs.Outcome.{Done, answer_of};
ghost use Rattle.std.specs.Prelude.{◌≡◌};
ghost use Rattle.codewords.specs.Code.{code_of, code_answer};
ghost use Rattle.demands.specs.Call.{call};
ghost use Rattle.demands.specs.Demand3.{WordClause};

use basics::Refusal;
use coder::systematic_word::systematic_word;
use codewords::Parameters;

// The smallest caller: Systematic word, with demand 3 for its contract in place of an outcome.
pub fn demanded_word(
    code: Parameters,
    xs: &[u8],
    ys: &[u8],
    places: &[u16],
    symbols: &[u8],
    out: &mut [u8],
    work: &mut [u8],
) -> Result<(), Refusal>
    ensures { code_answer (code_of code xs.now ys.now) ≡ Done
        → WordClause (code_of code xs.now ys.now) places.now symbols.now
        (call (answer_of result) out.old work.old out.new work.new) }
{
    systematic_word(code, xs, ys, places, symbols, out, work)
}

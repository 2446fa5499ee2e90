// Systematic word: the codeword that agrees with a message at k places.
ghost use Rattle.codewords.specs.Code.{code_of};
ghost use Rattle.std.specs.Prelude.{◌≡◌, ◌≤◌, length};
ghost use Rattle.basics.specs.Outcome.{Meets, answer_of};
ghost use Rattle.code.specs.Shown.{shown};
ghost use Rattle.solving.specs.Tests.{room};
ghost use Rattle.coder.specs.Outcomes.{systematic_word_outcome};
ghost use Rattle.coder.specs.Stages.{word_run, word_tested};

use basics::Refusal;
use code::accepted::Code;
use codewords::Parameters;
use engine::slices::copy;
use field::{Field, test_number};
use solving::prepare_word::prepare_word;
use solving::work::{ROOM, clear_room};

// The tests from number 9 on, and then the result. An array is lent for the word.
fn systematic_word_run(
    code: &Code,
    places: &[u16],
    symbols: &[u8],
    f: &mut [u8],
    out: &mut [u8],
    work: &mut [u8],
) -> Result<(), Refusal>
    requires places_len { (length places.now ≡ code.now.k) × (length symbols.now ≡ code.now.k) × (length out.old ≡ length code.now.xs.now) × (room ≤ length work.old) × (length f.old ≡ length code.now.xs.now) }
    ensures { Meets (word_run (shown code.now) places.now symbols.now work.old) (answer_of result)
        (out.old, work.old) (out.new, work.new) }
{
    prepare_word(code, places, symbols, f)?;
    copy(f, code.xs.len(), out);
    clear_room(work);
    Ok(())
}

// Systematic word of a code that passed the code test.
fn systematic_word_tested(
    code: &Code,
    places: &[u16],
    symbols: &[u8],
    out: &mut [u8],
    work: &mut [u8],
) -> Result<(), Refusal>
    ensures { Meets (word_tested (shown code.now) places.now symbols.now out.old work.old) (answer_of result)
        (out.old, work.old) (out.new, work.new) }
{
    if places.len() != code.k {
        return Err(Refusal::Length);
    }
    if symbols.len() != code.k {
        return Err(Refusal::Length);
    }
    if out.len() != code.xs.len() {
        return Err(Refusal::Length);
    }
    if work.len() < ROOM {
        return Err(Refusal::Length);
    }
    let n = code.xs.len();
    let mut f = [0u8; 288];
    systematic_word_run(code, places, symbols, &mut f[..n], out, work)
}

// The codeword that agrees with the message at the places.
pub fn systematic_word(
    code: Parameters,
    xs: &[u8],
    ys: &[u8],
    places: &[u16],
    symbols: &[u8],
    out: &mut [u8],
    work: &mut [u8],
) -> Result<(), Refusal>
    ensures { Meets (systematic_word_outcome (code_of code xs.now ys.now) places.now symbols.now out.old work.old) (answer_of result)
        (out.old, work.old) (out.new, work.new) }
{
    test_number(code.field)?;
    let field = Field::of(code.field);
    let accepted = Code::new(&field, code.curve, code.k, xs, ys)?;
    systematic_word_tested(&accepted, places, symbols, out, work)
}

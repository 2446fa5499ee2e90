// Rebuild: the codeword that agrees with the symbols at k places or more.
ghost use Rattle.codewords.specs.Code.{code_of};
ghost use Rattle.std.specs.Prelude.{◌≡◌, ◌≤◌, length};
ghost use Rattle.basics.specs.Outcome.{Meets, answer_of};
ghost use Rattle.code.specs.Shown.{shown};
ghost use Rattle.solving.specs.Tests.{room};
ghost use Rattle.coder.specs.Outcomes.{rebuild_outcome};
ghost use Rattle.coder.specs.Stages.{rebuild_run, rebuild_tested};

use basics::Refusal;
use code::accepted::Code;
use codewords::Parameters;
use engine::slices::copy;
use field::{Field, test_number};
use solving::prepare_word::prepare_word;
use solving::words::agrees_at;
use solving::work::{ROOM, clear_room};

// The tests from number 9 on, and then the result. An array is lent for the word.
fn rebuild_run(
    code: &Code,
    places: &[u16],
    symbols: &[u8],
    f: &mut [u8],
    out: &mut [u8],
    work: &mut [u8],
) -> Result<(), Refusal>
    requires symbols_len { (length symbols.now ≡ length places.now) × (length out.old ≡ length code.now.xs.now) × (room ≤ length work.old) × (length f.old ≡ length code.now.xs.now) }
    ensures { Meets (rebuild_run (shown code.now) places.now symbols.now work.old) (answer_of result)
        (out.old, work.old) (out.new, work.new) }
{
    prepare_word(code, places, symbols, f)?;
    if !agrees_at(f, places, symbols) {
        return Err(Refusal::NoCodeword);
    }
    copy(f, code.xs.len(), out);
    clear_room(work);
    Ok(())
}

// Rebuild of a code that passed the code test.
fn rebuild_tested(
    code: &Code,
    places: &[u16],
    symbols: &[u8],
    out: &mut [u8],
    work: &mut [u8],
) -> Result<(), Refusal>
    ensures { Meets (rebuild_tested (shown code.now) places.now symbols.now out.old work.old) (answer_of result)
        (out.old, work.old) (out.new, work.new) }
{
    if code.xs.len() < places.len() {
        return Err(Refusal::Length);
    }
    if symbols.len() != places.len() {
        return Err(Refusal::Length);
    }
    if out.len() != code.xs.len() {
        return Err(Refusal::Length);
    }
    if work.len() < ROOM {
        return Err(Refusal::Length);
    }
    let n = code.xs.len();
    let mut f = [0u8; 288];
    rebuild_run(code, places, symbols, &mut f[..n], out, work)
}

// The codeword that agrees with the symbols at all of the places.
pub fn rebuild(
    code: Parameters,
    xs: &[u8],
    ys: &[u8],
    places: &[u16],
    symbols: &[u8],
    out: &mut [u8],
    work: &mut [u8],
) -> Result<(), Refusal>
    ensures { Meets (rebuild_outcome (code_of code xs.now ys.now) places.now symbols.now out.old work.old) (answer_of result)
        (out.old, work.old) (out.new, work.new) }
{
    test_number(code.field)?;
    let field = Field::of(code.field);
    let accepted = Code::new(&field, code.curve, code.k, xs, ys)?;
    rebuild_tested(&accepted, places, symbols, out, work)
}

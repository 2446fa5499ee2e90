// What Systematic word and Rebuild have in common: the tests from number 9 to 12, and the values of the function that is solved for.
ghost use Rattle.basics.specs.Outcome.{Done, answer_of};
ghost use Rattle.std.specs.Prelude.{◌≡◌, length};
ghost use Rattle.code.specs.Shown.{shown};
ghost use Rattle.solving.specs.Given.{Prepared, solved_word};

use crate::solve_word::solve_word;
use crate::tests::test_lists;
use basics::Refusal;
use code::accepted::Code;

// The tests; where they pass, the values at all points stand in f.
pub fn prepare_word(
    code: &Code,
    places: &[u16],
    symbols: &[u8],
    f: &mut [u8],
) -> Result<(), Refusal>
    requires symbols_len { (length symbols.now ≡ length places.now) × (length f.old ≡ length code.now.xs.now) }
    ensures { Prepared (shown code.now) places.now symbols.now
        (f.new ≡ solved_word (shown code.now) places.now symbols.now) (answer_of result) }
{
    test_lists(code.field.number, code.k, code.xs, places, symbols)?;
    if !solve_word(code, places, symbols, f) {
        return Err(Refusal::Dependent);
    }
    Ok(())
}

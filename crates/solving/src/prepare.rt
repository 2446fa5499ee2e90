// What the operations with symbols have in common: the tests from number 9 to 12, and the function that is solved for.
ghost use Rattle.basics.specs.Outcome.{Done, answer_of};
ghost use Rattle.std.specs.Prelude.{◌≡◌, ◌≤◌, length};
ghost use Rattle.code.specs.Shown.{shown};
ghost use Rattle.solving.specs.Given.{Prepared, HoldsFunction};

use crate::solve::solve;
use crate::tests::test_lists;
use basics::Refusal;
use code::accepted::Code;

// The tests; where they pass, the function stands in f.
pub fn prepare(code: &Code, places: &[u16], symbols: &[u8], f: &mut [u8]) -> Result<(), Refusal>
    requires symbols_len { (length symbols.now ≡ length places.now) × (292 ≤ length f.old) }
    ensures { Prepared (shown code.now) places.now symbols.now
        (HoldsFunction (shown code.now) places.now symbols.now f.new) (answer_of result) }
{
    test_lists(code.field.number, code.k, code.xs, places, symbols)?;
    if !solve(code, places, symbols, f) {
        return Err(Refusal::Dependent);
    }
    Ok(())
}

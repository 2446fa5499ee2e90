// The tests of places and symbols that operations have in common, in the order of their numbers.
ghost use Rattle.basics.specs.Outcome.{answer_of};
ghost use Rattle.std.specs.Prelude.{◌≡◌, ◌≤◌, List, ℕ, length};
ghost use Rattle.field.specs.Galois.{IsField};
ghost use Rattle.elliptic.specs.declared.Curve.{Curve};
ghost use Rattle.code.specs.Parts.{code_with};
ghost use Rattle.solving.specs.Tests.{places_answer, lists_answer};

use basics::Refusal;
use code::lists::{all_below, all_different, all_places};
use field::size;

// The tests of places: numbers 9 and 10, where there are n points.
pub fn test_places(n: usize, places: &[u16]) -> Result<(), Refusal>
    requires { n ≤ 288 }
    ensures { answer_of result ≡ places_answer n places.now }
{
    if !all_places(n, places) {
        return Err(Refusal::Place);
    }
    if !all_different(places) {
        return Err(Refusal::RepeatedPlace);
    }
    Ok(())
}

// The tests of places and symbols: these, and numbers 11 and 13. The curve and the second coordinates do not matter to them.
pub fn test_lists(m: u8, k: usize, xs: &[u8], places: &[u16], symbols: &[u8]) -> Result<(), Refusal>
    requires { IsField m × (length xs.now ≤ 288) }
    ensures { (curve : Curve) (ys : List ℕ) → answer_of result ≡ lists_answer (code_with m curve k xs.now ys) places.now symbols.now }
{
    test_places(xs.len(), places)?;
    if !all_below(size(m), symbols) {
        return Err(Refusal::Symbol);
    }
    if places.len() < k {
        return Err(Refusal::TooFew);
    }
    Ok(())
}

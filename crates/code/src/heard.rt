// Heard: from a mask of the receiver to the places that it heard, eight bytes at a time.
ghost use Rattle.std.specs.Prelude.{◌≡◌, ◌≤◌, length};
ghost use Rattle.basics.specs.Lists.{written};
ghost use Rattle.basics.specs.Outcome.{Meets, count_of};
ghost use Rattle.codewords.specs.Code.{code_of};
ghost use Rattle.code.specs.Heard.{none_past, heard_tested, heard_outcome};
ghost use Rattle.code.specs.Words.{set_places};

use crate::accepted::Code;
use crate::test::test_code_with;
use basics::Refusal;
use bitset::{list_set, word};
use codewords::Parameters;
use field::{Field, test_number};

// No bit is set past the n-th: none from bit n mod 64 of word n div 64 on, and none in the words after it.
fn none_past(mask: &[u8], n: usize) -> bool
    requires { (length mask.now ≡ 40) × (n ≤ 288) }
    ensures { result ≡ none_past mask.now n }
{
    let mut from = n % 64;
    for w in n / 64..5 {
        if word(mask, 8 * w) >> from != 0 {
            return false;
        }
        from = 0;
    }
    true
}

// The places of all set bits, to the front of `out`; how many there are.
fn fill_heard(mask: &[u8], out: &mut [u16]) -> usize
    requires { (length mask.now ≡ 40) × (length (set_places mask.now) ≤ length out.old) }
    ensures { (result ≡ length (set_places mask.now)) × (out.new ≡ written (set_places mask.now) out.old) }
{
    let mut count = 0;
    for i in 0..5 {
        count = list_set(word(mask, 8 * i), (64 * i) as u16, out, count);
    }
    count
}

// Heard of a code that passed the code test.
fn heard_tested(n: usize, mask: &[u8], out: &mut [u16]) -> Result<usize, Refusal>
    requires { n ≤ 288 }
    ensures { Meets (heard_tested n mask.now out.old) (count_of result) out.old out.new }
{
    if mask.len() != 40 {
        return Err(Refusal::Length);
    }
    if out.len() != 288 {
        return Err(Refusal::Length);
    }
    if !none_past(mask, n) {
        return Err(Refusal::Place);
    }
    let count = fill_heard(mask, out);
    Ok(count)
}

// The heard places, ascending, with their count; entries past the count keep their values.
pub fn heard(
    code: Parameters,
    xs: &[u8],
    ys: &[u8],
    mask: &[u8],
    out: &mut [u16],
) -> Result<usize, Refusal>
    ensures { Meets (heard_outcome (code_of code xs.now ys.now) mask.now out.old) (count_of result) out.old out.new }
{
    test_number(code.field)?;
    let field = Field::of(code.field);
    let accepted = Code::new(&field, code.curve, code.k, xs, ys)?;
    heard_tested(accepted.xs.len(), mask, out)
}

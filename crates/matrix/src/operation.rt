// Matrix: the codewords of all unit messages at k places.
ghost use Rattle.codewords.specs.Code.{code_of};
ghost use Rattle.std.specs.Prelude.{◌≡◌, ◌*◌, ◌≤◌, length};
ghost use Rattle.basics.specs.Outcome.{Meets, answer_of};
ghost use Rattle.code.specs.Shown.{shown};
ghost use Rattle.solving.specs.Given.{Placed};
ghost use Rattle.matrix.specs.Given.{Sized};
ghost use Rattle.solving.specs.Tests.{room};
ghost use Rattle.coder.specs.Outcomes.{matrix_outcome};
ghost use Rattle.coder.specs.Stages.{matrix_run, matrix_placed, matrix_tested};

use crate::write::{begin_rows, write_rows};
use basics::{MessageIndex, Refusal};
use code::accepted::Code;
use codewords::Parameters;
use field::{Field, test_number};
use generator::factors::rows_turn;
use solving::tests::test_places;
use solving::work::ROOM;
use solving::zero::zero_chosen;

// Matrix of k different places. The arrays are lent. The working space is used where nothing is refused any more.
fn matrix_in(
    code: &Code,
    places: &[u16],
    px: &mut [u8],
    l: &mut [u8],
    u: &mut [u8],
    a: &mut [u8],
    b: &mut [u8],
    out: &mut [u8],
    work: &mut [u8],
) -> Result<(), Refusal>
    requires placed { Placed (shown code.now) places.now × (length places.now ≡ code.now.k) × Sized (length code.now.xs.now) px.old l.old u.old a.old b.old
        × (length out.old ≡ code.now.k * length code.now.xs.now) × (room ≤ length work.old) }
    ensures { Meets (matrix_run (shown code.now) places.now work.old) (answer_of result)
        (out.old, work.old) (out.new, work.new) }
{
    let z = begin_rows(code, places, px, l, u, a, b);
    let k = code.k;
    let last = k - 1;
    if zero_chosen(MessageIndex(last), l, u, z) {
        return Err(Refusal::Dependent);
    }
    rows_turn(code.field, MessageIndex(last), px, l, u, a, b, z);
    write_rows(code.field, k, places, px, l, u, a, b, out, work);
    Ok(())
}

// The same with arrays of its own: 1,440 bytes.
fn matrix_run(code: &Code, places: &[u16], out: &mut [u8], work: &mut [u8]) -> Result<(), Refusal>
    requires placed { Placed (shown code.now) places.now × (length places.now ≡ code.now.k) × (length out.old ≡ code.now.k * length code.now.xs.now) × (room ≤ length work.old) }
    ensures { Meets (matrix_run (shown code.now) places.now work.old) (answer_of result)
        (out.old, work.old) (out.new, work.new) }
{
    let n = code.xs.len();
    let mut px = [0u8; 288];
    let mut l = [0u8; 288];
    let mut u = [0u8; 288];
    let mut a = [0u8; 288];
    let mut b = [0u8; 288];
    matrix_in(
        code,
        places,
        &mut px[..n],
        &mut l[..n],
        &mut u[..n],
        &mut a[..n],
        &mut b[..n],
        out,
        work,
    )
}

// Matrix of lists that have the right lengths.
fn matrix_placed(
    code: &Code,
    places: &[u16],
    out: &mut [u8],
    work: &mut [u8],
) -> Result<(), Refusal>
    requires places_len { (length places.now ≡ code.now.k) × (length out.old ≡ code.now.k * length code.now.xs.now) × (room ≤ length work.old) }
    ensures { Meets (matrix_placed (shown code.now) places.now work.old) (answer_of result)
        (out.old, work.old) (out.new, work.new) }
{
    test_places(code.xs.len(), places)?;
    matrix_run(code, places, out, work)
}

// Matrix of a code that passed the code test, so that k·n is small.
fn matrix_tested(
    code: &Code,
    places: &[u16],
    out: &mut [u8],
    work: &mut [u8],
) -> Result<(), Refusal>
    ensures { Meets (matrix_tested (shown code.now) places.now out.old work.old) (answer_of result)
        (out.old, work.old) (out.new, work.new) }
{
    if places.len() != code.k {
        return Err(Refusal::Length);
    }
    if out.len() != code.k * code.xs.len() {
        return Err(Refusal::Length);
    }
    if work.len() < ROOM {
        return Err(Refusal::Length);
    }
    matrix_placed(code, places, out, work)
}

// The k rows of n symbols.
pub fn matrix(
    code: Parameters,
    xs: &[u8],
    ys: &[u8],
    places: &[u16],
    out: &mut [u8],
    work: &mut [u8],
) -> Result<(), Refusal>
    ensures { Meets (matrix_outcome (code_of code xs.now ys.now) places.now out.old work.old) (answer_of result)
        (out.old, work.old) (out.new, work.new) }
{
    test_number(code.field)?;
    let field = Field::of(code.field);
    let accepted = Code::new(&field, code.curve, code.k, xs, ys)?;
    matrix_tested(&accepted, places, out, work)
}

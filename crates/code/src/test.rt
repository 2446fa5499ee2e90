// The code test: numbers 1 to 7 in their order, in time proportional to the number of points.
ghost use Rattle.std.specs.Prelude.{◌≡◌, true, ◌<◌, length, replicate};
ghost use Rattle.field.specs.Galois.{galois, size};
ghost use Rattle.elliptic.specs.Curve.{coefficients_below};
ghost use Rattle.basics.specs.Outcome.{answer_of};
ghost use Rattle.codewords.specs.Code.{code_of, code_answer};
ghost use Rattle.code.specs.Parts.{code_with};
ghost use Rattle.code.specs.Slots.{slot};
ghost use Rattle.code.specs.Points.{Judged, count_in, dimension_in, points_answer};

use basics::Refusal;
use codewords::Parameters;
use curve::{coefficients_below, is_singular, on_curve, opposite};
use elliptic::{Curve, Point};
use field::{Field, test_number};

// What one pass over the points finds: all are points of the curve; no slot is met twice.
#[derive(Clone, Copy)]
struct Verdict {
    on: bool,
    apart: bool,
}

fn slot(field: &Field, c: Curve, p: Point) -> usize
    ensures { (result ≡ slot (galois field.now.number) c p) × (result < 512) }
{
    let other = opposite(field, c, p);
    let twice = usize::from(p.x) * 2;
    let greater = other.y < p.y;
    twice + usize::from(greater)
}

// One pass over the points, without an early exit. q is a power of 2: all coordinates are below it if all their bits together are. Marks are lent for
// the slots, of whatever bytes the lists hold.
fn pass_over(field: &Field, c: Curve, xs: &[u8], ys: &[u8], seen: &mut [u8]) -> Verdict
    requires xs_len { (length xs.now ≡ length ys.now) × (seen.old ≡ replicate 512 0) }
    ensures { Judged field.now.number c xs.now ys.now result.on result.apart }
{
    let mut bits: u8 = 0;
    let mut on = true;
    let mut apart = true;
    for i in 0..xs.len() {
        let x = xs[i];
        let y = ys[i];
        let p = Point { x, y };
        bits = bits | (x | y);
        on = on & on_curve(field, c, p);
        let s = slot(field, c, p);
        apart = apart & (seen[s] != 1);
        seen[s] = 1;
    }
    Verdict {
        on: (usize::from(bits) < field.size()) & on,
        apart,
    }
}

// The same with marks of its own.
fn judge(field: &Field, c: Curve, xs: &[u8], ys: &[u8]) -> Verdict
    requires xs_len { length xs.now ≡ length ys.now }
    ensures { Judged field.now.number c xs.now ys.now result.on result.apart }
{
    let mut seen = [0u8; 512];
    pass_over(field, c, xs, ys, &mut seen)
}

fn right_count(xs: &[u8], ys: &[u8]) -> bool
    ensures { result ≡ count_in (length xs.now) (length ys.now) }
{
    if xs.len() != ys.len() {
        return false;
    }
    2 <= xs.len() && xs.len() <= 288
}

fn right_dimension(k: usize, n: usize) -> bool
    ensures { result ≡ dimension_in k n }
{
    1 <= k && k < n
}

// Numbers 3 to 7, where 1 and 2 do not apply.
fn test_points(field: &Field, c: Curve, k: usize, xs: &[u8], ys: &[u8]) -> Result<(), Refusal>
    requires { coefficients_below (size field.now.number) c ≡ true }
    ensures { answer_of result ≡ points_answer (code_with field.now.number c k xs.now ys.now) }
{
    if is_singular(field, c) {
        return Err(Refusal::Singular);
    }
    if !right_count(xs, ys) {
        return Err(Refusal::PointCount);
    }
    let found = judge(field, c, xs, ys);
    if !found.on {
        return Err(Refusal::OffCurve);
    }
    if !found.apart {
        return Err(Refusal::RepeatedPoint);
    }
    if !right_dimension(k, xs.len()) {
        return Err(Refusal::Dimension);
    }
    Ok(())
}

// The code test where the field number is right: numbers 2 to 7.
pub fn test_code_with(
    field: &Field,
    c: Curve,
    k: usize,
    xs: &[u8],
    ys: &[u8],
) -> Result<(), Refusal>
    ensures { answer_of result ≡ code_answer (code_with field.now.number c k xs.now ys.now) }
{
    if !coefficients_below(field.number, c) {
        return Err(Refusal::CurveCoefficient);
    }
    test_points(field, c, k, xs, ys)
}

// The answer of the code test, for callers that need no more of the code.
pub fn test_code(p: Parameters, xs: &[u8], ys: &[u8]) -> Result<(), Refusal>
    ensures { answer_of result ≡ code_answer (code_of p xs.now ys.now) }
{
    test_number(p.field)?;
    let field = Field::of(p.field);
    test_code_with(&field, p.curve, p.k, xs, ys)
}

// Curves and their points, over a field.
#![tactic(auto, using(field::proofs::Galois::size_le))]

ghost use Rattle.std.specs.Prelude.{◌≡◌, true, ◌∷◌, [], eqb, get_or};
ghost use Rattle.basics.specs.Lists.{filter, table};
ghost use Rattle.basics.specs.Outcome.{Meets, count_of};
ghost use Rattle.field.specs.Sum.{◌⊕◌};
ghost use Rattle.field.specs.Galois.{IsField, size, galois, product, inverse};
ghost use Rattle.elliptic.specs.Curve.{point, right, on_curve, opposite, singular, affine_points};
ghost use Rattle.elliptic.specs.Curve.{coefficients_below};
ghost use Rattle.point_count.specs.Singular.{candidate};
ghost use Rattle.curve.specs.Points.{points_outcome};
ghost use Rattle.curve.specs.Listing.{Rooms, Appends, Listed};
ghost use Rattle.curve.specs.Roots.{square_plus, Inverts, Found, AllFound, lesser};

use basics::Refusal;
use elliptic::{Curve, Point};
use field::{Field, add, size, test_number};

// The length of each buffer for points.
const ROOM: usize = 288;

// The sum of the Y of a point over x and of its opposite.
fn trace(field: &Field, c: Curve, x: u8) -> u8
    ensures { result ≡ product field.now.number c.g1 x ⊕ c.g3 }
{
    add(field.product(c.g1, x), c.g3)
}

// The right side of the curve's equation, by Horner's rule.
fn right(field: &Field, c: Curve, x: u8) -> u8
    ensures { result ≡ right (galois field.now.number) c x }
{
    let a = add(field.product(x, add(x, c.g2)), c.g4);
    add(field.product(x, a), c.g6)
}

// Whether y solves Y² + t·Y = v, by one product.
fn solves(field: &Field, t: u8, v: u8, y: u8) -> bool
    ensures { result ≡ eqb (product field.now.number y (y ⊕ t)) v }
{
    field.product(y, add(y, t)) == v
}

// Whether p lies on the curve.
pub fn on_curve(field: &Field, c: Curve, p: Point) -> bool
    ensures { result ≡ on_curve (galois field.now.number) c p }
{
    let t = trace(field, c, p.x);
    let v = right(field, c, p.x);
    solves(field, t, v, p.y)
}

// The other point over the same x, or p itself.
pub fn opposite(field: &Field, c: Curve, p: Point) -> Point
    ensures { result ≡ opposite (galois field.now.number) c p }
{
    let t = trace(field, c, p.x);
    Point {
        x: p.x,
        y: add(p.y, t),
    }
}

// Whether all five coefficients are elements of the field.
pub fn coefficients_below(m: u8, c: Curve) -> bool
    requires { IsField m }
    ensures { result ≡ coefficients_below (size m) c }
{
    let q = size(m);
    let coefficients = [c.g1, c.g2, c.g3, c.g4, c.g6];
    coefficients.iter().all(|g| usize::from(*g) < q)
}

// The only point at which a curve can be singular, where g1 is not 0.
fn candidate(field: &Field, c: Curve) -> Point
    ensures { result ≡ candidate (galois field.now.number) c }
{
    let x = field.quotient(c.g3, c.g1);
    let a = add(field.product(x, x), c.g4);
    let y = field.quotient(a, c.g1);
    Point { x, y }
}

// Whether the curve is singular, by one point: no search over the field.
pub fn is_singular(field: &Field, c: Curve) -> bool
    requires { coefficients_below (size field.now.number) c ≡ true }
    ensures { result ≡ singular (galois field.now.number) c }
{
    if c.g1 == 0 {
        return c.g3 == 0;
    }
    on_curve(field, c, candidate(field, c))
}

// Appends a point where there is room, and counts it.
fn append(xs: &mut [u8], ys: &mut [u8], count: usize, p: Point) -> usize
    requires { Rooms xs.old ys.old }
    ensures { Appends (p ∷ []) xs.old ys.old count xs.new ys.new result }
{
    if ROOM <= count {
        return count;
    }
    xs[count] = p.x;
    ys[count] = p.y;
    count + 1
}

// Appends the points over x, by Y, with one product for each Y.
fn append_column(
    field: &Field,
    c: Curve,
    x: u8,
    xs: &mut [u8],
    ys: &mut [u8],
    start: usize,
) -> usize
    requires { Rooms xs.old ys.old }
    ensures { Appends (filter (on_curve (galois field.now.number) c) (table (point x) (size field.now.number))) xs.old ys.old start xs.new ys.new result }
{
    let t = trace(field, c, x);
    let v = right(field, c, x);
    let mut count = start;
    for y in 0..field.size() {
        let b = y as u8;
        if solves(field, t, v, b) {
            count = append(xs, ys, count, Point { x, y: b });
        }
    }
    count
}

// Stores each z at z² + z. Two have the same z² + z, z and z + 1: the second stays, and none is 0.
fn fill_roots(field: &Field, roots: &mut [u8; 256])
    requires { Inverts (square_plus field.now.number) 0 roots.old }
    ensures { Inverts (square_plus field.now.number) (size field.now.number) roots.new }
{
    for z in 0..field.size() {
        let b = z as u8;
        let at = usize::from(field.product(b, add(b, 1)));
        roots[at] = b;
    }
}

// For each c a z with z² + z = c, or 0.
fn roots(field: &Field) -> [u8; 256]
    ensures { Inverts (square_plus field.now.number) (size field.now.number) result }
{
    let mut roots = [0u8; 256];
    fill_roots(field, &mut roots);
    roots
}

// The z for v over t²: t·z then solves Y² + t·Y = v.
fn root(field: &Field, roots: &[u8; 256], t: u8, v: u8) -> u8
    ensures { result ≡ get_or roots.now (product field.now.number (product field.now.number v (inverse field.now.number t)) (inverse field.now.number t)) 0 }
{
    let c = field.quotient(field.quotient(v, t), t);
    roots[usize::from(c)]
}

// A Y other than 0 over x, or 0 where there is none; unless x is the one whose points are their own opposites.
// 0 stands for none here, in place of an Option, so that the loop over all x has no branch.
fn find_y(field: &Field, roots: &[u8; 256], c: Curve, x: u8) -> u8
    requires { Inverts (square_plus field.now.number) (size field.now.number) roots.now × (coefficients_below (size field.now.number) c ≡ true) }
    ensures { Found field.now.number c x result }
{
    let t = trace(field, c, x);
    let v = right(field, c, x);
    field.product(t, root(field, roots, t, v))
}

// The same for all x: the points are appended later, so that no search waits for a branch.
fn fill_found(field: &Field, roots: &[u8; 256], c: Curve, found: &mut [u8; 256])
    requires tables { Inverts (square_plus field.now.number) (size field.now.number) roots.now × (coefficients_below (size field.now.number) c ≡ true) }
    requires all_found { AllFound field.now.number c 0 found.old }
    ensures { AllFound field.now.number c (size field.now.number) found.new }
{
    for x in 0..field.size() {
        found[x] = find_y(field, roots, c, x as u8);
    }
}

fn find_all(field: &Field, c: Curve) -> [u8; 256]
    requires { coefficients_below (size field.now.number) c ≡ true }
    ensures { AllFound field.now.number c (size field.now.number) result }
{
    let roots = roots(field);
    let mut found = [0u8; 256];
    fill_found(field, &roots, c, &mut found);
    found
}

fn lesser(a: u8, b: u8) -> u8
    ensures { result ≡ lesser a b }
{
    if a < b { a } else { b }
}

// Appends the two points over x with y and y + t, by Y.
fn append_pair(xs: &mut [u8], ys: &mut [u8], start: usize, x: u8, y: u8, t: u8) -> usize
    requires { Rooms xs.old ys.old }
    ensures { Appends (point x (lesser y (y ⊕ t)) ∷ point x (lesser y (y ⊕ t) ⊕ t) ∷ []) xs.old ys.old start xs.new ys.new result }
{
    let low = lesser(y, add(y, t));
    let high = add(low, t);
    let count = append(xs, ys, start, Point { x, y: low });
    append(xs, ys, count, Point { x, y: high })
}

// Appends the points over x, by Y, where y is what was found for x.
fn append_over(
    field: &Field,
    c: Curve,
    x: u8,
    y: u8,
    xs: &mut [u8],
    ys: &mut [u8],
    start: usize,
) -> usize
    requires { Found field.now.number c x y × Rooms xs.old ys.old }
    ensures { Appends (filter (on_curve (galois field.now.number) c) (table (point x) (size field.now.number))) xs.old ys.old start xs.new ys.new result }
{
    let t = trace(field, c, x);
    if t == 0 {
        return append_column(field, c, x, xs, ys, start);
    }
    if y == 0 {
        return start;
    }
    append_pair(xs, ys, start, x, y, t)
}

// Lists all points, by X, then Y.
fn fill_points(field: &Field, c: Curve, xs: &mut [u8], ys: &mut [u8]) -> usize
    requires c_value { (coefficients_below (size field.now.number) c ≡ true) × Rooms xs.old ys.old }
    ensures { Listed (affine_points (galois field.now.number) c) xs.old ys.old xs.new ys.new result }
{
    let found = find_all(field, c);
    let mut count = 0;
    for x in 0..field.size() {
        count = append_over(field, c, x as u8, found[x], xs, ys, count);
    }
    count
}

// Document 01's Points.
pub fn points(m: u8, c: Curve, xs: &mut [u8], ys: &mut [u8]) -> Result<usize, Refusal>
    ensures { Meets (points_outcome m c xs.old ys.old) (count_of result) (xs.old, ys.old) (xs.new, ys.new) }
{
    test_number(m)?;
    if !coefficients_below(m, c) {
        return Err(Refusal::CurveCoefficient);
    }
    let field = Field::of(m);
    if is_singular(&field, c) {
        return Err(Refusal::Singular);
    }
    if xs.len() != ROOM {
        return Err(Refusal::Length);
    }
    if ys.len() != ROOM {
        return Err(Refusal::Length);
    }
    Ok(fill_points(&field, c, xs, ys))
}

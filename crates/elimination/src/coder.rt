// The second coder: equations at points, their solution, and the word of a function.
ghost use Rattle.std.specs.Prelude.{◌≡◌, ◌≤◌, ◌∷◌, length, get_or};
ghost use Rattle.elimination.specs.Sizes.{Room};

use crate::equations::{Added, WIDTH, add_equation, clear, solve};
use crate::slices::{inner_product, monomials};
use basics::Refusal;
use field::{Field, test_number};

// 288 rows of 289 entries.
pub const ROOM: usize = 83232;

#[derive(Clone, Copy)]
struct Point {
    x: u8,
    y: u8,
}

// Whether place p is there in lists of the given lengths.
fn is_place(n: usize, other: usize, place: u16) -> bool {
    let p = usize::from(place);
    1 <= p && p <= n && p <= other
}

// The symbol at a place; 0 where there is none.
pub fn at(list: &[u8], place: u16) -> u8
    ensures { result ≡ get_or (0 ∷ list.now) place 0 }
{
    let index = usize::from(place).checked_sub(1);
    index.and_then(|i| list.get(i)).copied().unwrap_or(0)
}

fn point_at(xs: &[u8], ys: &[u8], place: u16) -> Point {
    Point {
        x: at(xs, place),
        y: at(ys, place),
    }
}

// The equation that a function takes a symbol at (x, y).
fn pose(field: &Field, p: Point, symbol: u8, equation: &mut [u8])
    requires in_bounds { 1 ≤ length equation.old }
{
    let k = equation.len() - 1;
    monomials(field, p.x, p.y, &mut equation[..k]);
    equation[k] = symbol;
}

// Adds the equations of all places in their order, and marks what each added. The memory for one equation is lent.
fn add_all(
    field: &Field,
    xs: &[u8],
    ys: &[u8],
    places: &[u16],
    symbols: &[u8],
    rows: &mut [u8],
    equation: &mut [u8],
    marks: &mut [Added],
)
    requires symbols_len { (length symbols.now ≡ length places.now) × (length marks.old ≡ length places.now) }
    requires room { Room rows.old × (1 ≤ length equation.old) × (length equation.old ≤ 289) }
{
    for ((place, symbol), mark) in places.iter().zip(symbols).zip(marks.iter_mut()) {
        pose(field, point_at(xs, ys, *place), *symbol, equation);
        *mark = add_equation(field, rows, equation);
    }
}

// Brings into echelon form the equations that a function of k coefficients takes the symbols at the places, and marks what each added.
// Refused if the field number, a length or a place is wrong.
pub fn eliminate(
    m: u8,
    k: usize,
    xs: &[u8],
    ys: &[u8],
    places: &[u16],
    symbols: &[u8],
    rows: &mut [u8],
    marks: &mut [Added],
) -> Result<(), Refusal> {
    test_number(m)?;
    if k > 288 {
        return Err(Refusal::Dimension);
    }
    if rows.len() != ROOM || symbols.len() != places.len() || marks.len() != places.len() {
        return Err(Refusal::Length);
    }
    if !places.iter().all(|p| is_place(xs.len(), ys.len(), *p)) {
        return Err(Refusal::Place);
    }
    let field = Field::of(m);
    let mut equation = [0; WIDTH];
    let width = k + 1;
    clear(rows, k);
    add_all(
        &field,
        xs,
        ys,
        places,
        symbols,
        rows,
        &mut equation[..width],
        marks,
    );
    Ok(())
}

// The function that the equations give, or with `right` false the one that they give if every symbol is 0; a free coefficient is 1.
// Refused if the field number or a length is wrong.
pub fn solution(m: u8, rows: &[u8], right: bool, function: &mut [u8]) -> Result<(), Refusal> {
    test_number(m)?;
    if rows.len() != ROOM || function.len() > 288 {
        return Err(Refusal::Length);
    }
    solve(&Field::of(m), rows, right, function);
    Ok(())
}

// The value of a function at (x, y).
fn value(field: &Field, x: u8, y: u8, function: &[u8], row: &mut [u8]) -> u8
    requires row_len { length row.old ≡ length function.now }
{
    monomials(field, x, y, row);
    inner_product(field, row, function)
}

// The values of a function at all points. The memory for the monomials is lent.
fn fill_word(field: &Field, xs: &[u8], ys: &[u8], function: &[u8], row: &mut [u8], out: &mut [u8])
    requires xs_len { (length xs.now ≡ length out.old) × (length ys.now ≡ length out.old) × (length row.old ≡ length function.now) }
{
    for ((v, x), y) in out.iter_mut().zip(xs).zip(ys) {
        *v = value(field, *x, *y, function, row);
    }
}

// The word of a function. Refused if the field number or a length is wrong.
pub fn word(m: u8, xs: &[u8], ys: &[u8], function: &[u8], out: &mut [u8]) -> Result<(), Refusal> {
    test_number(m)?;
    let k = function.len();
    if k > 289 || xs.len() != out.len() || ys.len() != out.len() {
        return Err(Refusal::Length);
    }
    let field = Field::of(m);
    let mut row = [0; WIDTH];
    fill_word(&field, xs, ys, function, &mut row[..k], out);
    Ok(())
}

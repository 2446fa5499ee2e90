// A system of equations in echelon form: the equation that leads with coefficient c, if there is one, is row c, and its entry c is 1.
// Its entries are the coefficients' factors and, last, the symbol. Rows stand at a fixed distance, so that k may be any number up to 288.
ghost use Rattle.std.specs.Prelude.{◌<◌, ◌≤◌, length};
ghost use Rattle.elimination.specs.Sizes.{Room};

use crate::slices::{add_multiple, inner_product, scale};
use field::Field;

// Where each row starts after the one before: 288 factors and a symbol.
pub const WIDTH: usize = 289;

// What an equation adds to those before it.
#[derive(Clone, Copy, PartialEq, Eq, Debug)]
pub enum Added {
    New,
    Implied,
    Contradiction,
}

// Whether some equation leads with coefficient c.
fn leads(rows: &[u8], c: usize) -> bool
    requires { Room rows.now × (c < 288) }
{
    rows[c * WIDTH + c] == 1
}

// No equation leads with any of the first k coefficients.
pub fn clear(rows: &mut [u8], k: usize)
    requires { Room rows.old × (k ≤ 288) }
{
    for c in 0..k {
        rows[c * WIDTH + c] = 0;
    }
}

// The equation loses coefficient c, by the row that leads with it.
fn reduce(field: &Field, rows: &[u8], c: usize, equation: &mut [u8])
    requires room { Room rows.now × (c < 288) × (c < length equation.old) × (length equation.old ≤ 289) }
{
    let t = equation[c];
    let start = c * WIDTH;
    let end = start + equation.len();
    add_multiple(field, t, &rows[start..end], equation);
}

// The equation becomes row c.
fn store(field: &Field, rows: &mut [u8], c: usize, equation: &[u8])
    requires room { Room rows.old × (c < 288) × (c < length equation.now) × (length equation.now ≤ 289) }
{
    let t = field.inverse(equation[c]);
    let start = c * WIDTH;
    let end = start + equation.len();
    scale(field, t, equation, &mut rows[start..end]);
}

// Whether the equation leads with coefficient c and no other did: then it becomes row c. Else it loses the coefficient.
fn takes_row(field: &Field, rows: &mut [u8], c: usize, equation: &mut [u8]) -> bool
    requires room { Room rows.old × (c < 288) × (c < length equation.old) × (length equation.old ≤ 289) }
{
    if equation[c] == 0 {
        return false;
    }
    if leads(rows, c) {
        reduce(field, rows, c, equation);
        return false;
    }
    store(field, rows, c, equation);
    true
}

// Adds an equation, in its row where it is new; it is used up by this.
pub fn add_equation(field: &Field, rows: &mut [u8], equation: &mut [u8]) -> Added
    requires room { Room rows.old × (1 ≤ length equation.old) × (length equation.old ≤ 289) }
{
    let k = equation.len() - 1;
    for c in 0..k {
        if takes_row(field, rows, c, equation) {
            return Added::New;
        }
    }
    if equation[k] == 0 {
        return Added::Implied;
    }
    Added::Contradiction
}

// Coefficient c by row c, where those after it are known; those before it have the factor 0, and its own is 1. A free one is 1.
// With `right` false every symbol is taken for 0.
fn coefficient(field: &Field, rows: &[u8], right: bool, c: usize, function: &[u8]) -> u8
    requires room { Room rows.now × (c < length function.now) × (length function.now ≤ 288) }
{
    if !leads(rows, c) {
        return 1;
    }
    let start = c * WIDTH;
    let end = start + function.len();
    let sum = function[c] ^ inner_product(field, &rows[start..end], function);
    if right { sum ^ rows[end] } else { sum }
}

// The coefficients from the last to the first: the one solution if there is one and no more.
pub fn solve(field: &Field, rows: &[u8], right: bool, function: &mut [u8])
    requires room { Room rows.now × (length function.old ≤ 288) }
{
    for c in (0..function.len()).rev() {
        function[c] = coefficient(field, rows, right, c, function);
    }
}

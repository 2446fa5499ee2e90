// Sums and products of rows, entry by entry.
ghost use Rattle.std.specs.Prelude.{◌≡◌, ◌<◌, length};

use field::Field;

// The row `to` gains t times the row `from`.
pub fn add_multiple(field: &Field, t: u8, from: &[u8], to: &mut [u8])
    requires from_len { length from.now ≡ length to.old }
{
    for (x, y) in to.iter_mut().zip(from) {
        *x ^= field.product(t, *y);
    }
}

// The row `to` becomes t times the row `from`.
pub fn scale(field: &Field, t: u8, from: &[u8], to: &mut [u8])
    requires from_len { length from.now ≡ length to.old }
{
    for (x, y) in to.iter_mut().zip(from) {
        *x = field.product(t, *y);
    }
}

// The sum of the products of two rows.
pub fn inner_product(field: &Field, a: &[u8], b: &[u8]) -> u8
    requires a_len { length a.now ≡ length b.now }
{
    a.iter()
        .zip(b)
        .fold(0, |sum, (x, y)| sum ^ field.product(*x, *y))
}

// The monomial at index j of 1, X, Y, X^2, XY, .. at (x, y): from index 3 on it is X times the one two before.
fn monomial(field: &Field, x: u8, y: u8, row: &[u8], j: usize) -> u8
    requires j_in_bounds { j < length row.now }
{
    match j {
        0 => 1,
        1 => x,
        2 => y,
        _ => field.product(x, row[j - 2]),
    }
}

// The row of all monomials at (x, y).
pub fn monomials(field: &Field, x: u8, y: u8, row: &mut [u8]) {
    for j in 0..row.len() {
        row[j] = monomial(field, x, y, row, j);
    }
}

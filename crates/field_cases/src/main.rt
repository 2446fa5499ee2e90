// Known facts of every field, computed by the tables: the orders of the elements 2 and 3, products, inverses, and a sum over the whole product table.
// In field 9 the order of 2 is 51; its other products are known from outside.
// The file `stdout` beside this folder has what they must be.
#![tactic(auto)]

use field::Field;
use io::print_decimal;

// The standard output.
const STDOUT: i32 = 1;

// After how many factors g the power is 1 again: at most 255.
fn order(field: &Field, g: u8) -> u64 {
    let mut a = g;
    for n in 1..256 {
        if a == 1 {
            return n;
        }
        a = field.product(a, g);
    }
    0
}

// How many elements have an inverse that multiplies to 1.
fn inverses(field: &Field) -> usize {
    (0..=u8::MAX)
        .take(field.size())
        .filter(|a| field.product(*a, field.inverse(*a)) == 1)
        .count()
}

// A checksum with one symbol more.
fn mixed(sum: u64, symbol: u8) -> u64 {
    (sum % 65521 * 31 + u64::from(symbol)) % 65521
}

// The checksum with a row of the product table more.
fn row_sum(field: &Field, a: u8, start: u64) -> u64 {
    (0..=u8::MAX)
        .take(field.size())
        .fold(start, |sum, b| mixed(sum, field.product(a, b)))
}

// The checksum of the product table.
fn table_sum(field: &Field) -> u64 {
    (0..=u8::MAX)
        .take(field.size())
        .fold(0, |sum, a| row_sum(field, a, sum))
}

fn show(text: &[u8], n: u64) {
    io::write_all(STDOUT, text);
    print_decimal(STDOUT, n);
}

fn facts(field: &Field) {
    show(b"field ", u64::from(field.number));
    show(b": modulus ", u64::from(field::modulus(field.number)));
    show(b", size ", field.size() as u64);
    show(b", order of 2 ", order(field, 2));
    show(b", order of 3 ", order(field, 3));
    show(b", 2*2 ", u64::from(field.product(2, 2)));
    show(b", 3*3 ", u64::from(field.product(3, 3)));
    show(b", 1/2 ", u64::from(field.quotient(1, 2)));
    show(b", inverses ", inverses(field) as u64);
    show(b", table ", table_sum(field));
    io::write_all(STDOUT, b"\n");
}

// The examples of the standard in which this field is best known (FIPS 197), in hexadecimal: 53·CA = 01, 57·83 = C1, 57·13 = FE.
fn standard_products(field: &Field) {
    show(b"field 9: 83*202 ", u64::from(field.product(0x53, 0xCA)));
    show(b", 87*131 ", u64::from(field.product(0x57, 0x83)));
    show(b", 87*19 ", u64::from(field.product(0x57, 0x13)));
    io::write_all(STDOUT, b"\n");
}

// No field is refused; one that were would lack its line.
fn main() {
    for m in 2..=9 {
        if let Ok(field) = Field::new(m) {
            facts(&field);
        }
    }
    if let Ok(field) = Field::new(9) {
        standard_products(&field);
    }
}

// The finite fields, by field number. An element is a byte below q, its bits the coefficients of a polynomial. The sum is exclusive or.
// Products are read from two tables, which an operation makes once, in a `Field`, and then passes by reference: the powers of the
// generator twice, and then zeros; and for each byte its logarithm, then for each byte the logarithm of its inverse, where what stands for the
// logarithm of zero leads to the zeros. So a product is one sum of logarithms and one power, with no branch.
#![tactic(auto)]

ghost use Rattle.basics.specs.declared.Refusal.TheVariants.{FieldNumber};
ghost use Rattle.std.specs.Prelude.{false, IfOk, IfErr, ◌≡◌, ◌+◌, ◌-◌, ◌≤◌, length, get_or};
ghost use Rattle.std.proofs.Math.Seq.{paste};
ghost use Rattle.basics.specs.Lists.{table};
ghost use Rattle.basics.specs.Outcome.{Meets, answer_of};
ghost use Rattle.field.specs.Sum.{◌⊕◌};
ghost use Rattle.field.specs.Galois.{IsField, is_field, modulus, width, size, product, inverse};
ghost use Rattle.field.specs.Tables.{power_table, byte_log_table, log_table, neg_log_table, exp_table, log_tables, none, no_byte, widened, negated, Tables, logarithm, neg_logarithm, IsLog, product_by_log};
ghost use Rattle.field.specs.Products.{product_at, products_outcome};

mod tables;

use basics::Refusal;
use tables::{
    LOGARITHMS_2_3, LOGARITHMS_4_5, LOGARITHMS_6_7, LOGARITHMS_9_8, MODULI, POWERS_2_3, POWERS_4_5,
    POWERS_6_7, POWERS_9_8, WIDTHS,
};

// What stands for the logarithm of zero, in the rows and in the tables that operations pass.
const NO_BYTE: u8 = 255;

const NONE: u16 = 510;

pub fn is_field(m: u8) -> bool
    ensures { result ≡ is_field m }
{
    2 <= m && m <= 9
}

// The same as a refusal.
pub fn test_number(m: u8) -> Result<(), Refusal>
    ensures found { IfOk result (λ _. IsField m) }
    ensures refused { IfErr result (λ e. (e ≡ FieldNumber) × (is_field m ≡ false)) }
{
    if !is_field(m) {
        return Err(Refusal::FieldNumber);
    }
    Ok(())
}

pub fn modulus(m: u8) -> u16
    requires { IsField m }
    ensures { result ≡ modulus m }
{
    MODULI[usize::from(m)]
}

// The number of bits of a symbol.
pub fn width(m: u8) -> u8
    requires { IsField m }
    ensures { result ≡ width m }
{
    WIDTHS[usize::from(m)]
}

// The order of the generator.
fn period(m: u8) -> u16
    requires { IsField m }
    ensures { result ≡ size m - 1 }
{
    (size(m) - 1) as u16
}

// The number of elements.
pub fn size(m: u8) -> usize
    requires { IsField m }
    ensures { result ≡ size m }
{
    1 << width(m)
}

// The first 255 powers of the generator. A constant array is made anew where it is read, so the rows stand in pairs: two of them are made. The last pair
// stands the other way round: from four arms of one form the compiler makes a choice for each byte, some 350 ns for both tables.
#[inline(never)]
fn power_row(m: u8) -> [u8; 255]
    requires { IsField m }
    ensures { result ≡ power_table m }
{
    let half = usize::from(m % 2);
    match m / 2 {
        1 => POWERS_2_3[half],
        2 => POWERS_4_5[half],
        3 => POWERS_6_7[half],
        _ => POWERS_9_8[1 - half],
    }
}

// The logarithms of all bytes, as bytes.
#[inline(never)]
fn log_row(m: u8) -> [u8; 256]
    requires { IsField m }
    ensures { result ≡ byte_log_table m }
{
    let half = usize::from(m % 2);
    match m / 2 {
        1 => LOGARITHMS_2_3[half],
        2 => LOGARITHMS_4_5[half],
        3 => LOGARITHMS_6_7[half],
        _ => LOGARITHMS_9_8[1 - half],
    }
}

// The row goes to the table, from an index on.
fn put_powers(row: &[u8; 255], at: usize, out: &mut [u8; 1021])
    requires { (length row.now ≡ 255) × (length out.old ≡ 1021) × (at ≤ 255) }
    ensures { out.new ≡ paste out.old at row.now 255 }
{
    for i in 0..255 {
        out[at + i] = row[i];
    }
}

// A row of powers twice, and then zeros.
#[inline(never)]
fn doubled(m: u8, row: &[u8; 255]) -> [u8; 1021]
    requires { row.now ≡ power_table m }
    ensures { result ≡ exp_table m }
{
    let mut out = [0u8; 1021];
    put_powers(row, 0, &mut out);
    put_powers(row, 255, &mut out);
    out
}

// The powers twice, and then zeros. The row is read and doubled one after the other, by two functions that are not inlined: so the constants that
// are copied for the one are gone from the stack before the other.
#[inline(always)]
pub fn powers(m: u8) -> [u8; 1021]
    requires { IsField m }
    ensures { result ≡ exp_table m }
{
    doubled(m, &power_row(m))
}

// A logarithm of the row.
fn widened(l: u8) -> u16
    ensures { result ≡ widened l }
{
    if l == NO_BYTE { NONE } else { u16::from(l) }
}

// The logarithm of the inverse, where l is an element's in the row.
fn negated(period: u16, l: u8) -> u16
    requires { (l ≡ no_byte → ⊥) → l ≤ period }
    ensures { result ≡ negated period l }
{
    if l == NO_BYTE {
        return NONE;
    }
    period - u16::from(l)
}

fn put_logs(m: u8, row: &[u8; 256], out: &mut [u16; 512])
    requires { IsField m × (row.now ≡ byte_log_table m) × (length out.old ≡ 512) }
    ensures { out.new ≡ paste out.old 0 (log_table m) 256 }
{
    for i in 0..256 {
        out[i] = widened(row[i]);
    }
}

fn put_neg_logs(m: u8, row: &[u8; 256], out: &mut [u16; 512])
    requires { IsField m × (row.now ≡ byte_log_table m) × (length out.old ≡ 512) }
    ensures { out.new ≡ paste out.old 256 (neg_log_table m) 256 }
{
    let period = period(m);
    for i in 0..256 {
        out[256 + i] = negated(period, row[i]);
    }
}

// The logarithms of a row, and then those of the inverses.
#[inline(never)]
fn with_negated(m: u8, row: &[u8; 256]) -> [u16; 512]
    requires { IsField m × (row.now ≡ byte_log_table m) }
    ensures { result ≡ log_tables m }
{
    let mut out = [0u16; 512];
    put_logs(m, row, &mut out);
    put_neg_logs(m, row, &mut out);
    out
}

// The logarithms of all bytes, and then those of their inverses. As for the powers, one function after the other.
#[inline(always)]
pub fn logarithms(m: u8) -> [u16; 512]
    requires { IsField m }
    ensures { result ≡ log_tables m }
{
    with_negated(m, &log_row(m))
}

pub fn add(a: u8, b: u8) -> u8
    ensures { result ≡ a ⊕ b }
{
    a ^ b
}

// A field of 4 to 256 elements with the two tables that its products are read from.
#[derive(Drop)]
pub struct Field {
    pub number: u8,
    pub powers: [u8; 1021],
    pub logs: [u16; 512],
    pub ghost tables: { Tables number powers logs },
}

impl Field {
    // The field of a number that was tested. Inlined, so that the tables are made where they stay: each move of a field takes its two kilobytes of the stack again.
    #[inline(always)]
    pub fn of(m: u8) -> Field
        requires { IsField m }
        ensures { result.number ≡ m }
    {
        Field {
            number: m,
            powers: powers(m),
            logs: logarithms(m),
        }
    }

    // The field of a number, if there is one.
    pub fn new(m: u8) -> Result<Field, Refusal>
        ensures field { IfOk result (λ f. f.number ≡ m) }
        ensures refused { IfErr result (λ e. (e ≡ FieldNumber) × (is_field m ≡ false)) }
    {
        test_number(m)?;
        Ok(Field::of(m))
    }

    // The number of elements.
    pub fn size(&self) -> usize
        ensures { result ≡ size self.now.number }
    {
        size(self.number)
    }

    // The number of bits of a symbol.
    pub fn width(&self) -> u8
        ensures { result ≡ width self.now.number }
    {
        width(self.number)
    }

    // The exponent at which the generator is a, or NONE.
    pub fn logarithm(&self, a: u8) -> u16
        ensures { result ≡ logarithm self.now.number a }
    {
        self.logs[usize::from(a)]
    }

    // The logarithm of the inverse of a, or NONE.
    pub fn neg_logarithm(&self, a: u8) -> u16
        ensures { result ≡ neg_logarithm self.now.number a }
    {
        self.logs[256 + usize::from(a)]
    }

    // The power at the sum of two logarithms.
    fn power(&self, l: u16, k: u16) -> u8
        requires { (l ≤ none) × (k ≤ none) }
        ensures { result ≡ get_or (exp_table self.now.number) (l + k) 0 }
    {
        self.powers[usize::from(l) + usize::from(k)]
    }

    // The product of the element whose logarithm is l, and b: a loop over b looks the logarithm of a constant factor up once.
    pub fn product_by_log(&self, l: u16, b: u8) -> u8
        requires { IsLog self.now.number l }
        ensures { result ≡ product_by_log self.now.number l b }
    {
        self.power(l, self.logarithm(b))
    }

    pub fn product(&self, a: u8, b: u8) -> u8
        ensures { result ≡ product self.now.number a b }
    {
        self.power(self.logarithm(a), self.logarithm(b))
    }

    // The inverse of a, and 0 where a is 0.
    pub fn inverse(&self, a: u8) -> u8
        ensures { result ≡ inverse self.now.number a }
    {
        self.power(0, self.neg_logarithm(a))
    }

    // a over b, and 0 where b is 0.
    pub fn quotient(&self, a: u8, b: u8) -> u8
        ensures { result ≡ product self.now.number a (inverse self.now.number b) }
    {
        self.power(self.logarithm(a), self.neg_logarithm(b))
    }
}

// The products of two lists, element by element.
pub fn fill_products(field: &Field, a: &[u8], b: &[u8], out: &mut [u8])
    requires a_len { (length a.now ≡ length out.old) × (length b.now ≡ length out.old) }
    ensures { out.new ≡ table (product_at field.now.number a.now b.now) (length out.old) }
{
    for i in 0..out.len() {
        out[i] = field.product(a[i], b[i]);
    }
}

// The products of two lists of symbols, element by element: what the field is tried and measured by from outside.
pub fn products(m: u8, a: &[u8], b: &[u8], out: &mut [u8]) -> Result<(), Refusal>
    ensures { Meets (products_outcome m a.now b.now (length out.old)) (answer_of result) out.old out.new }
{
    test_number(m)?;
    if a.len() != out.len() {
        return Err(Refusal::Length);
    }
    if b.len() != out.len() {
        return Err(Refusal::Length);
    }
    fill_products(&Field::of(m), a, b, out);
    Ok(())
}

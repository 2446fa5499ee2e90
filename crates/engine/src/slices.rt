// Functions on a curve as slices of coefficients in weight order: one loop each. A loop looks the logarithm of its constant factor up once.
#![tactic(auto, using(crate::proofs::Laws::logged))]

ghost use Rattle.std.specs.Prelude.{◌≡◌, ◌<◌, ◌≤◌, length, take, replicate};
ghost use Rattle.field.specs.Galois.{galois};
ghost use Rattle.elliptic.specs.Curve.{point};
ghost use Rattle.elliptic.specs.Pair.{evaluate, add_scaled, times_linear};

use field::Field;

// The value of f at (x, y).
pub fn value(field: &Field, x: u8, y: u8, f: &[u8]) -> u8
    ensures { result ≡ evaluate (galois field.now.number) f.now (point x y) }
{
    if f.is_empty() {
        return 0;
    }
    let by_x = field.logarithm(x);
    let mut r: u8 = 0;
    let mut s: u8 = 0;
    for i in (1..f.len()).rev() {
        let z = f[i] ^ field.product_by_log(by_x, s);
        s = r;
        r = z;
    }
    f[0] ^ field.product_by_log(by_x, r) ^ field.product(y, s)
}

// f gains t·h.
pub fn add_scaled(field: &Field, t: u8, h: &[u8], f: &mut [u8])
    requires h_in_bounds { length h.now ≤ length f.old }
    ensures { f.new ≡ add_scaled (galois field.now.number) t h.now f.old }
{
    let by_t = field.logarithm(t);
    for i in 0..h.len() {
        f[i] ^= field.product_by_log(by_t, h[i]);
    }
}

// f becomes (X + α)·f, up to its length. a and b are the coefficients that X moves to i and i + 1.
pub fn times_linear(field: &Field, alpha: u8, f: &mut [u8])
    requires f_nonzero { 0 < length f.old }
    ensures { f.new ≡ times_linear (galois field.now.number) alpha f.old }
{
    let by_alpha = field.logarithm(alpha);
    let first = f[0];
    f[0] = field.product_by_log(by_alpha, first);
    let mut a = first;
    let mut b: u8 = 0;
    for i in 1..f.len() {
        let c = f[i];
        f[i] = a ^ field.product_by_log(by_alpha, c);
        a = b;
        b = c;
    }
}

// All of f becomes zero.
pub fn clear(f: &mut [u8])
    ensures { f.new ≡ replicate (length f.old) 0 }
{
    f.fill(0);
}

// The first n elements of `from`, to the front of out. By a loop: `copy_from_slice` makes the archive need `memmove` from outside.
pub fn copy(from: &[u8], n: usize, out: &mut [u8])
    requires { (n ≤ length from.now) × (n ≤ length out.old) }
    ensures { take n out.new ≡ take n from.now }
{
    for i in 0..n {
        out[i] = from[i];
    }
}

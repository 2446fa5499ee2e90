// What one place makes of the defects at the places behind it: one loop over the four rows.
ghost use Rattle.std.specs.Prelude.{◌≡◌, length};
ghost use Rattle.values.specs.Values.{Swept, raised_at, gained_at};

use field::Field;

// a, b and c gain their multiples of p, and p becomes (X + α)·p.
pub fn pass(
    field: &Field,
    alpha: u8,
    ta: u8,
    tb: u8,
    tc: u8,
    xs: &[u8],
    p: &mut [u8],
    a: &mut [u8],
    b: &mut [u8],
    c: &mut [u8],
)
    requires p_len { (length p.old ≡ length xs.now) × (length a.old ≡ length xs.now) × (length b.old ≡ length xs.now) × (length c.old ≡ length xs.now) }
    ensures { Swept (raised_at field.now.number xs.now alpha p.old) 0 p.old p.new
        × Swept (gained_at field.now.number ta p.old a.old) 0 a.old a.new
        × Swept (gained_at field.now.number tb p.old b.old) 0 b.old b.new
        × Swept (gained_at field.now.number tc p.old c.old) 0 c.old c.new }
{
    let log_a = field.logarithm(ta);
    let log_b = field.logarithm(tb);
    let log_c = field.logarithm(tc);
    for i in 0..xs.len() {
        let d = p[i];
        let gain_a = field.product_by_log(log_a, d);
        let gain_b = field.product_by_log(log_b, d);
        let gain_c = field.product_by_log(log_c, d);
        p[i] = field.product(xs[i] ^ alpha, d);
        a[i] = a[i] ^ gain_a;
        b[i] = b[i] ^ gain_b;
        c[i] = c[i] ^ gain_c;
    }
}

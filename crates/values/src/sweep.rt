// Passes over the values of functions at points, from an index on: one loop each.
ghost use Rattle.std.specs.Prelude.{◌≡◌, length};
ghost use Rattle.values.specs.Values.{Swept, raised_at, gained_at};

use field::Field;

// h becomes (X + α)·h.
pub fn raise(field: &Field, alpha: u8, from: usize, xs: &[u8], h: &mut [u8])
    requires h_len { length h.old ≡ length xs.now }
    ensures { Swept (raised_at field.now.number xs.now alpha h.old) from h.old h.new }
{
    for i in from..xs.len() {
        h[i] = field.product(xs[i] ^ alpha, h[i]);
    }
}

// g gains t·h, and h becomes (X + α)·h.
pub fn gain_raise(
    field: &Field,
    alpha: u8,
    t: u8,
    from: usize,
    xs: &[u8],
    h: &mut [u8],
    g: &mut [u8],
)
    requires h_len { (length h.old ≡ length xs.now) × (length g.old ≡ length xs.now) }
    ensures { Swept (raised_at field.now.number xs.now alpha h.old) from h.old h.new
        × Swept (gained_at field.now.number t h.old g.old) from g.old g.new }
{
    let by_t = field.logarithm(t);
    for i in from..xs.len() {
        let c = h[i];
        let gain = field.product_by_log(by_t, c);
        h[i] = field.product(xs[i] ^ alpha, c);
        g[i] = g[i] ^ gain;
    }
}

// g gains t·h, f gains e·h, and h becomes (X + α)·h.
pub fn gain_both_raise(
    field: &Field,
    alpha: u8,
    t: u8,
    e: u8,
    from: usize,
    xs: &[u8],
    h: &mut [u8],
    g: &mut [u8],
    f: &mut [u8],
)
    requires h_len { (length h.old ≡ length xs.now) × (length g.old ≡ length xs.now) × (length f.old ≡ length xs.now) }
    ensures { Swept (raised_at field.now.number xs.now alpha h.old) from h.old h.new
        × Swept (gained_at field.now.number t h.old g.old) from g.old g.new
        × Swept (gained_at field.now.number e h.old f.old) from f.old f.new }
{
    let by_t = field.logarithm(t);
    let by_e = field.logarithm(e);
    for i in from..xs.len() {
        let c = h[i];
        let gain = field.product_by_log(by_t, c);
        let correction = field.product_by_log(by_e, c);
        h[i] = field.product(xs[i] ^ alpha, c);
        g[i] = g[i] ^ gain;
        f[i] = f[i] ^ correction;
    }
}

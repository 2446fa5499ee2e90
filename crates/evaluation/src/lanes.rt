// Horner's rule at four coordinates at once: a product waits for those before it at its own coordinate alone, and four take little longer than one.
ghost use Rattle.std.specs.Prelude.{ℕ, ◌+◌, ◌<◌, ◌≤◌, length, get_or};
ghost use Rattle.evaluation.specs.Parts.{Bytes, Right, Stored, StoredFour, At, AtFour, Taken};

use field::Field;

// A coordinate with its logarithm, and the pair of the coefficients passed so far.
#[derive(Clone, Copy)]
pub struct Lane {
    pub x: u8,
    pub log: u16,
    pub r: u8,
    pub s: u8,
}

#[derive(Clone, Copy)]
pub struct Four {
    pub a: Lane,
    pub b: Lane,
    pub c: Lane,
    pub d: Lane,
}

// No coefficient is passed.
fn begin(field: &Field, f: &[u8], x: u8) -> Lane
    ensures { At field.now.number f.now (length f.now) x result }
{
    Lane {
        x,
        log: field.logarithm(x),
        r: 0,
        s: 0,
    }
}

// The coefficient with index i is passed.
fn turn(field: &Field, f: &[u8], i: usize, l: Lane) -> Lane
    requires i_in_bounds { (i < length f.now) × At field.now.number f.now (i + 1) l.x l }
    ensures { At field.now.number f.now i l.x result }
{
    let z = f[i] ^ field.product_by_log(l.log, l.s);
    Lane {
        x: l.x,
        log: l.log,
        r: z,
        s: l.r,
    }
}

// All but the first coefficient are passed: the values over x are a + y·b.
fn store(field: &Field, f: &[u8], l: Lane, a: &mut [u8; 256], b: &mut [u8; 256])
    requires f_nonzero { (0 < length f.now) × At field.now.number f.now 1 l.x l × Bytes a.old b.old }
    ensures { Stored field.now.number f.now a.old b.old a.new b.new l.x }
{
    let at = usize::from(l.x);
    a[at] = f[0] ^ field.product_by_log(l.log, l.r);
    b[at] = l.s;
}

fn begin_four(field: &Field, f: &[u8], xs: &[u8; 292], j: usize) -> Four
    requires { j < 288 }
    ensures { AtFour field.now.number f.now (length f.now) result result × Taken xs.now j result }
{
    Four {
        a: begin(field, f, xs[j]),
        b: begin(field, f, xs[j + 1]),
        c: begin(field, f, xs[j + 2]),
        d: begin(field, f, xs[j + 3]),
    }
}

fn turn_four(field: &Field, f: &[u8], i: usize, g: Four) -> Four
    requires i_in_bounds { (i < length f.now) × AtFour field.now.number f.now (i + 1) g g }
    ensures { AtFour field.now.number f.now i g result }
{
    Four {
        a: turn(field, f, i, g.a),
        b: turn(field, f, i, g.b),
        c: turn(field, f, i, g.c),
        d: turn(field, f, i, g.d),
    }
}

// All but the first coefficient, at the four coordinates from j on.
fn run_four(field: &Field, f: &[u8], xs: &[u8; 292], j: usize) -> Four
    requires f_nonzero { (0 < length f.now) × (j < 288) }
    ensures { AtFour field.now.number f.now 1 result result × Taken xs.now j result }
{
    let mut g = begin_four(field, f, xs, j);
    for i in (1..f.len()).rev() {
        g = turn_four(field, f, i, g);
    }
    g
}

fn store_four(field: &Field, f: &[u8], g: Four, a: &mut [u8; 256], b: &mut [u8; 256])
    requires f_nonzero { (0 < length f.now) × AtFour field.now.number f.now 1 g g × Bytes a.old b.old }
    ensures { StoredFour field.now.number f.now a.old b.old a.new b.new g }
{
    store(field, f, g.a, a, b);
    store(field, f, g.b, a, b);
    store(field, f, g.c, a, b);
    store(field, f, g.d, a, b);
}

// The two parts of f over each of the first coordinates, and over what stands behind them where their number is no multiple of four.
pub fn split(
    field: &Field,
    f: &[u8],
    xs: &[u8; 292],
    count: usize,
    a: &mut [u8; 256],
    b: &mut [u8; 256],
)
    requires f_nonzero { (0 < length f.now) × (count ≤ 288) × Bytes a.old b.old }
    ensures { (j : ℕ) → j < count → Right field.now.number f.now a.new b.new (get_or xs.now j 0) }
{
    for j in (0..count).step_by(4) {
        let g = run_four(field, f, xs, j);
        store_four(field, f, g, a, b);
    }
}

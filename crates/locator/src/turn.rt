// One place more, for the four rows in their arrays: a pivot, and three others.
ghost use Rattle.std.specs.Prelude.{◌≡◌, ◌+◌, ◌<◌, ◌≤◌, suc, length, get_or};
ghost use Rattle.values.specs.Values.{gained_at};
ghost use Rattle.locator.specs.Arrays.{head, lifted_at, From, Cancels, SizesFit, DensTurn, TurnRoom, Turns};

use crate::choose::{Head, Heads};
use crate::den::{lift_den, mix_den};
use crate::pass::pass;
use field::Field;

// Where the defects begin in an array.
pub const HEAD: usize = 74;

// The dimension, the radius, and the largest key that there is room for.
#[derive(Clone, Copy)]
pub struct Layout {
    pub k: usize,
    pub t: usize,
    pub top: usize,
}

// The multiples of the pivot that the other rows gain.
#[derive(Clone, Copy)]
pub struct Multiples {
    pub a: u8,
    pub b: u8,
    pub c: u8,
}

// Those that cancel the defects at index o.
fn cancelling(field: &Field, o: usize, p: &[u8], a: &[u8], b: &[u8], c: &[u8]) -> Multiples
    requires o_in_bounds { (o < length p.now) × (o < length a.now) × (o < length b.now) × (o < length c.now) }
    ensures { Cancels field.now.number o p.now a.now b.now c.now result }
{
    let d = p[o];
    let ta = field.quotient(a[o], d);
    let tb = field.quotient(b[o], d);
    let tc = field.quotient(c[o], d);
    Multiples {
        a: ta,
        b: tb,
        c: tc,
    }
}

// The defects at the places behind index i.
fn turn_defects(
    field: &Field,
    i: usize,
    ts: Multiples,
    xs: &[u8],
    p: &mut [u8],
    a: &mut [u8],
    b: &mut [u8],
    c: &mut [u8],
)
    requires i_in_bounds { (i < length xs.now) × (length xs.now ≤ 288) }
    requires p_len { (length p.old ≡ head + length xs.now) × (length a.old ≡ head + length xs.now) × (length b.old ≡ head + length xs.now) × (length c.old ≡ head + length xs.now) }
    ensures { From (head + suc i) (lifted_at field.now.number xs.now (get_or xs.now i 0) p.old) p.old p.new
        × From (head + suc i) (gained_at field.now.number ts.a p.old a.old) a.old a.new
        × From (head + suc i) (gained_at field.now.number ts.b p.old b.old) b.old b.new
        × From (head + suc i) (gained_at field.now.number ts.c p.old c.old) c.old c.new }
{
    let alpha = xs[i];
    let next = i + 1;
    let from = HEAD + next;
    pass(
        field,
        alpha,
        ts.a,
        ts.b,
        ts.c,
        &xs[next..],
        &mut p[from..],
        &mut a[from..],
        &mut b[from..],
        &mut c[from..],
    );
}

// E of each row.
fn turn_dens(
    field: &Field,
    alpha: u8,
    room: usize,
    ts: Multiples,
    hs: Heads,
    p: &mut [u8],
    a: &mut [u8],
    b: &mut [u8],
    c: &mut [u8],
) -> Heads
    requires sizes_fit { SizesFit room hs p.old a.old b.old c.old }
    ensures { DensTurn field.now.number alpha room ts hs p.old a.old b.old c.old result p.new a.new b.new c.new }
{
    let hp = hs.a;
    let ha = hs.b;
    let hb = hs.c;
    let hc = hs.d;
    let sp = hp.size;
    let sa = mix_den(field, ts.a, sp, p, ha.size, a);
    let sb = mix_den(field, ts.b, sp, p, hb.size, b);
    let sc = mix_den(field, ts.c, sp, p, hc.size, c);
    let s = lift_den(field, alpha, room, sp, p);
    Heads {
        a: Head {
            key: hp.key + 4,
            size: s,
        },
        b: Head {
            key: ha.key,
            size: sa,
        },
        c: Head {
            key: hb.key,
            size: sb,
        },
        d: Head {
            key: hc.key,
            size: sc,
        },
    }
}

// One place more, with index i: p is the pivot.
pub fn turn(
    field: &Field,
    i: usize,
    shape: Layout,
    xs: &[u8],
    hs: Heads,
    p: &mut [u8],
    a: &mut [u8],
    b: &mut [u8],
    c: &mut [u8],
) -> Heads
    requires turn_room { TurnRoom shape i xs.now hs p.old a.old b.old c.old }
    ensures { Turns field.now.number shape xs.now i hs p.old a.old b.old c.old result p.new a.new b.new c.new }
{
    let ts = cancelling(field, HEAD + i, p, a, b, c);
    turn_defects(field, i, ts, xs, p, a, b, c);
    turn_dens(field, xs[i], shape.t + 1, ts, hs, p, a, b, c)
}

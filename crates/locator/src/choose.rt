// Which of the four rows is the pivot: the lightest whose defect is not zero.
ghost use Rattle.std.specs.Prelude.{◌≡◌, ◌≤◌};
ghost use Rattle.locator.specs.Arrays.{lighter_of, lightest_of, exchanged_at};

// A row's key, and how many coefficients of E its array has.
#[derive(Clone, Copy)]
pub struct Head {
    pub key: usize,
    pub size: usize,
}

// Those of all four rows.
#[derive(Clone, Copy)]
pub struct Heads {
    pub a: Head,
    pub b: Head,
    pub c: Head,
    pub d: Head,
}

// A row by its index and key, with its defect. The index is 4 where there is none.
#[derive(Clone, Copy)]
pub struct Pivot {
    pub at: usize,
    pub key: usize,
    pub defect: u8,
}

// The lighter of a pivot and the row with index `at`, if d is not 0.
pub fn lighter(best: Pivot, at: usize, key: usize, d: u8) -> Pivot
    ensures { result ≡ lighter_of best at key d }
{
    if d == 0 {
        return best;
    }
    if best.key <= key {
        return best;
    }
    Pivot { at, key, defect: d }
}

// The lightest of four rows whose number is not 0, if there is room for it.
pub fn lightest(limit: usize, hs: Heads, p: u8, q: u8, r: u8, s: u8) -> Pivot
    requires { limit ≤ 1000 }
    ensures { result ≡ lightest_of limit hs p q r s }
{
    let none = Pivot {
        at: 4,
        key: limit + 1,
        defect: 0,
    };
    let d = lighter(none, 3, hs.d.key, s);
    let c = lighter(d, 2, hs.c.key, r);
    let b = lighter(c, 1, hs.b.key, q);
    lighter(b, 0, hs.a.key, p)
}

// The row with an index from 1 to 3 and the first exchanged.
pub fn exchanged(at: usize, hs: Heads) -> Heads
    ensures { result ≡ exchanged_at at hs }
{
    let a = hs.a;
    let b = hs.b;
    let c = hs.c;
    let d = hs.d;
    if at == 1 {
        return Heads { a: b, b: a, c, d };
    }
    if at == 2 {
        return Heads { a: c, b, c: a, d };
    }
    Heads { a: d, b, c, d: a }
}

// All changes of one place, with or without a change of a later one: the multiples of its row.
ghost use Rattle.std.specs.Prelude.{◌≡◌, ◌-◌, ◌<◌, min};
ghost use Rattle.field.specs.Galois.{galois, size};
ghost use Rattle.elliptic.specs.Pair.{add_scaled};
ghost use Rattle.tries.specs.Multiples.{Rows, best_multiple};
ghost use Rattle.search.specs.Found.{improved, priced_of};

use field::Field;
use tries::choose::Multiple;
use tries::multiples::try_multiples;

// The best try so far: its cost, and the changes that it makes at a later and at an earlier picked place, by their indices. A change by 0 is none.
#[derive(Clone, Copy)]
pub struct Found {
    pub cost: u32,
    pub late: usize,
    pub d: u8,
    pub early: usize,
    pub e: u8,
}

// What has been found, or where a multiple is better the change that it makes.
fn improve(found: Found, best: Multiple, late: usize, d: u8, early: usize) -> Found
    ensures { result ≡ improved found (priced_of best) late d early }
{
    if best.e == 0 {
        return found;
    }
    Found {
        cost: best.cost,
        late,
        d,
        early,
        e: best.e,
    }
}

// The first `left` changes of the place `early`, whose row is `row`, where that of `late` is changed by d. None is tried where none is left.
pub fn try_block(
    field: &Field,
    trusts: &[u8],
    difference: &[u8],
    d: u8,
    late_row: &[u8],
    row: &[u8],
    late: usize,
    early: usize,
    found: Found,
    left: usize,
) -> Found
    requires rows { Rows field.now.number trusts.now difference.now late_row.now row.now × (d < size field.now.number) }
    ensures { result ≡ improved found (best_multiple (galois field.now.number) trusts.now row.now (add_scaled (galois field.now.number) d late_row.now difference.now) found.cost (min left (size field.now.number - 1))) late d early }
{
    if left == 0 {
        return found;
    }
    let best = try_multiples(
        field, trusts, difference, d, late_row, row, left, found.cost,
    );
    improve(found, best, late, d, early)
}

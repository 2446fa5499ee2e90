// The cheapest multiple of a row: all of them in one pass over the places, or in two where there are more than 127.
ghost use Rattle.std.specs.Prelude.{◌≡◌, ◌-◌, ◌<◌, min};
ghost use Rattle.field.specs.Galois.{galois, size};
ghost use Rattle.elliptic.specs.Pair.{add_scaled};
ghost use Rattle.patterns.specs.Cheapest.{cheapest};
ghost use Rattle.tries.specs.Multiples.{Rows, InHalf, price_of, half_tries, best_multiple};

use crate::choose::{Multiple, choose};
use crate::gather::gather;
use field::Field;

// The multiples of one half: those in slots from `from` to before `to`.
fn try_half(
    field: &Field,
    trusts: &[u8],
    difference: &[u8],
    d: u8,
    late: &[u8],
    row: &[u8],
    half: u8,
    from: usize,
    to: usize,
    best: Multiple,
) -> Multiple
    requires rows { Rows field.now.number trusts.now difference.now late.now row.now × (d < size field.now.number) × InHalf field.now.number half from to }
    ensures { (result.cost, result.e) ≡ cheapest price_of (best.cost, best.e)
        (half_tries (galois field.now.number) trusts.now row.now (add_scaled (galois field.now.number) d late.now difference.now)
        half from (to - from)) }
{
    let log = field.logarithm(d);
    let mut slots = [0u32; 128];
    let fixed = gather(field, trusts, difference, log, late, row, half, &mut slots);
    choose(fixed, &slots, half, from, to, best)
}

// The cheapest of the first `most` multiples of a row, added to the difference with d times the row `late`: its cost if that is below `cost`, or else 0.
pub fn try_multiples(
    field: &Field,
    trusts: &[u8],
    difference: &[u8],
    d: u8,
    late: &[u8],
    row: &[u8],
    most: usize,
    cost: u32,
) -> Multiple
    requires rows { Rows field.now.number trusts.now difference.now late.now row.now × (d < size field.now.number) }
    ensures { (result.cost, result.e) ≡ best_multiple (galois field.now.number) trusts.now row.now
        (add_scaled (galois field.now.number) d late.now difference.now) cost (min most (size field.now.number - 1)) }
{
    let all = field.size() - 1;
    let count = most.min(all);
    let none = Multiple { cost, e: 0 };
    if count < 128 {
        return try_half(
            field,
            trusts,
            difference,
            d,
            late,
            row,
            0,
            1,
            count + 1,
            none,
        );
    }
    let first = try_half(field, trusts, difference, d, late, row, 0, 1, 128, none);
    try_half(
        field,
        trusts,
        difference,
        d,
        late,
        row,
        1,
        0,
        count - 127,
        first,
    )
}

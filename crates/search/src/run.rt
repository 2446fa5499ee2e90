// The search: the try that changes nothing, then single places, then pairs.
ghost use Rattle.std.specs.Prelude.{◌≡◌, ◌*◌, ◌≤◌, length};
ghost use Rattle.code.specs.Shown.{shown};
ghost use Rattle.patterns.specs.Cheapest.{weigh};
ghost use Rattle.picked_rows.specs.Stored.{Prepared};
ghost use Rattle.matrix.specs.Given.{part};
ghost use Rattle.search.specs.Found.{start};
ghost use Rattle.search.specs.Search.{Finds};

use crate::block::Found;
use crate::pairs::try_pairs;
use crate::singles::try_singles;
use code::accepted::Code;

// The total trust of the places where a difference is not 0.
fn total(trusts: &[u8], difference: &[u8]) -> u32
    requires { (length difference.now ≡ length trusts.now) × (length trusts.now ≤ 288) }
    ensures { result ≡ weigh trusts.now difference.now }
{
    let mut sum: u32 = 0;
    for (trust, d) in trusts.iter().zip(difference) {
        if *d != 0 {
            sum += u32::from(*trust);
        }
    }
    sum
}

// The try that changes nothing.
fn first_try(n: usize, trusts: &[u8], work: &[u8]) -> Found
    requires { (length trusts.now ≡ n) × (n ≤ 288) × (7 * n ≤ length work.now) }
    ensures { result ≡ start (weigh trusts.now (part n 6 work.now)) }
{
    let from = 6 * n;
    let to = from + n;
    Found {
        cost: total(trusts, &work[from..to]),
        late: 0,
        d: 0,
        early: 0,
        e: 0,
    }
}

// The best of so many tries. Two arrays are lent for the rows of a later and of an earlier place.
pub fn search(
    code: &Code,
    received: &[u8],
    trusts: &[u8],
    places: &[u16],
    work: &[u8],
    late_row: &mut [u8],
    early_row: &mut [u8],
    budget: usize,
) -> Found
    requires prepared { Prepared (shown code.now) received.now trusts.now places.now work.now
        × (length late_row.old ≡ length code.now.xs.now) × (length early_row.old ≡ length code.now.xs.now) × (1 ≤ budget) }
    ensures { Finds (shown code.now) received.now trusts.now budget result }
{
    let first = first_try(code.xs.len(), trusts, work);
    let left = budget - 1;
    let single = try_singles(code, received, trusts, places, work, early_row, first, left);
    let some = code.k * (code.field.size() - 1);
    let rest = left.saturating_sub(some);
    try_pairs(
        code, received, trusts, places, work, late_row, early_row, single, rest,
    )
}

// Two picked places changed: by every amount at the later one, and within it by every amount at the earlier.
ghost use Rattle.std.specs.Prelude.{◌≡◌, ◌<◌};
ghost use Rattle.tries.specs.Multiples.{Rows};
ghost use Rattle.search.specs.Search.{RunsPair};

use crate::block::{Found, try_block};
use field::Field;

// The changes of a pair of places, whose rows are given.
pub fn try_amounts(
    field: &Field,
    trusts: &[u8],
    difference: &[u8],
    late_row: &[u8],
    row: &[u8],
    late: usize,
    early: usize,
    found: Found,
    left: usize,
) -> Found
    requires rows { Rows field.now.number trusts.now difference.now late_row.now row.now }
    ensures { RunsPair field.now.number trusts.now difference.now late_row.now row.now late early found left result }
{
    let all = field.size();
    let some = all - 1;
    let mut best = found;
    let mut rest = left;
    for d in 1..all {
        best = try_block(
            field, trusts, difference, d as u8, late_row, row, late, early, best, rest,
        );
        rest = rest.saturating_sub(some);
    }
    best
}

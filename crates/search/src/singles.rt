// One picked place changed: from the last to the first.
ghost use Rattle.std.specs.Prelude.{◌≡◌, ◌<◌, length};
ghost use Rattle.codewords.specs.Code.{q};
ghost use Rattle.code.specs.Shown.{shown};
ghost use Rattle.patterns.specs.Patterns.{none, singles};
ghost use Rattle.picked_rows.specs.Stored.{Prepared};
ghost use Rattle.search.specs.Search.{IsTry, Runs, values};

use crate::block::{Found, try_block};
use basics::MessageIndex;
use code::accepted::Code;
use gap::trusts::trust_of;
use picked_rows::row::picked_row;

// The changes of one place. They cost its trust or more, so none is tried where that is no less than the best so far.
fn try_single(
    code: &Code,
    received: &[u8],
    trusts: &[u8],
    places: &[u16],
    work: &[u8],
    row: &mut [u8],
    index: MessageIndex,
    found: Found,
    left: usize,
) -> Found
    requires prepared { Prepared (shown code.now) received.now trusts.now places.now work.now × IsTry (shown code.now) received.now trusts.now found
        × (length row.old ≡ length code.now.xs.now) × (index.0 < code.now.k) }
    ensures { Runs (shown code.now) received.now trusts.now found left
        (values (q (shown code.now)) (none code.now.k) index.0) result }
{
    if found.cost <= trust_of(trusts, places, index) {
        return found;
    }
    picked_row(code, places, work, index, row);
    let n = code.xs.len();
    let start = 6 * n;
    let end = start + n;
    let i = index.0;
    try_block(
        code.field,
        trusts,
        &work[start..end],
        0,
        row,
        row,
        i,
        i,
        found,
        left,
    )
}

// All places.
pub fn try_singles(
    code: &Code,
    received: &[u8],
    trusts: &[u8],
    places: &[u16],
    work: &[u8],
    row: &mut [u8],
    found: Found,
    left: usize,
) -> Found
    requires prepared { Prepared (shown code.now) received.now trusts.now places.now work.now × IsTry (shown code.now) received.now trusts.now found
        × (length row.old ≡ length code.now.xs.now) }
    ensures { Runs (shown code.now) received.now trusts.now found left
        (singles (q (shown code.now)) code.now.k) result }
{
    let some = code.field.size() - 1;
    let mut best = found;
    let mut rest = left;
    for i in (0..code.k).rev() {
        if 0 < rest {
            best = try_single(
                code,
                received,
                trusts,
                places,
                work,
                row,
                MessageIndex(i),
                best,
                rest,
            );
        }
        rest = rest.saturating_sub(some);
    }
    best
}

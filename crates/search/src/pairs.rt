// Two picked places changed: by the later, then the earlier, each from the last to the first.
ghost use Rattle.std.specs.Prelude.{◌≡◌, ◌<◌, length};
ghost use Rattle.codewords.specs.Code.{q};
ghost use Rattle.code.specs.Shown.{shown};
ghost use Rattle.codewords.specs.Codewords.{index, row};
ghost use Rattle.patterns.specs.Patterns.{each, down, pair, pairs};
ghost use Rattle.picked_rows.specs.Stored.{Prepared};
ghost use Rattle.search.specs.Search.{IsTry, Runs};

use crate::amounts::try_amounts;
use crate::block::Found;
use basics::MessageIndex;
use code::accepted::Code;
use gap::trusts::trust_of;
use picked_rows::row::picked_row;

// The changes of a pair. They cost the trust of both places or more.
fn try_pair(
    code: &Code,
    received: &[u8],
    trusts: &[u8],
    places: &[u16],
    work: &[u8],
    late_row: &[u8],
    early_row: &mut [u8],
    late: MessageIndex,
    early: MessageIndex,
    found: Found,
    left: usize,
) -> Found
    requires prepared { Prepared (shown code.now) received.now trusts.now places.now work.now × IsTry (shown code.now) received.now trusts.now found
        × (late_row.now ≡ row (shown code.now) places.now late) × (length early_row.old ≡ length code.now.xs.now) × (late.0 < code.now.k) × (early.0 < late.0) }
    ensures { Runs (shown code.now) received.now trusts.now found left
        (pair (q (shown code.now)) code.now.k late.0 early.0) result }
{
    if found.cost <= trust_of(trusts, places, late) + trust_of(trusts, places, early) {
        return found;
    }
    picked_row(code, places, work, early, early_row);
    let n = code.xs.len();
    let start = 6 * n;
    let end = start + n;
    try_amounts(
        code.field,
        trusts,
        &work[start..end],
        late_row,
        early_row,
        late.0,
        early.0,
        found,
        left,
    )
}

// The pairs of a later place with all before it.
fn try_earlier(
    code: &Code,
    received: &[u8],
    trusts: &[u8],
    places: &[u16],
    work: &[u8],
    late_row: &[u8],
    early_row: &mut [u8],
    late: MessageIndex,
    found: Found,
    left: usize,
) -> Found
    requires prepared { Prepared (shown code.now) received.now trusts.now places.now work.now × IsTry (shown code.now) received.now trusts.now found
        × (late_row.now ≡ row (shown code.now) places.now late) × (length early_row.old ≡ length code.now.xs.now) × (late.0 < code.now.k) }
    ensures { Runs (shown code.now) received.now trusts.now found left
        (each (down late.0) (pair (q (shown code.now)) code.now.k late.0)) result }
{
    let some = code.field.size() - 1;
    let mut best = found;
    let mut rest = left;
    for i in (0..late.0).rev() {
        if 0 < rest {
            best = try_pair(
                code,
                received,
                trusts,
                places,
                work,
                late_row,
                early_row,
                late,
                MessageIndex(i),
                best,
                rest,
            );
        }
        rest = rest.saturating_sub(some * some);
    }
    best
}

// The same, with the later place's row written first.
fn try_late(
    code: &Code,
    received: &[u8],
    trusts: &[u8],
    places: &[u16],
    work: &[u8],
    late_row: &mut [u8],
    early_row: &mut [u8],
    late: MessageIndex,
    found: Found,
    left: usize,
) -> Found
    requires prepared { Prepared (shown code.now) received.now trusts.now places.now work.now × IsTry (shown code.now) received.now trusts.now found
        × (length late_row.old ≡ length code.now.xs.now) × (length early_row.old ≡ length code.now.xs.now) × (late.0 < code.now.k) }
    ensures { Runs (shown code.now) received.now trusts.now found left
        (each (down late.0) (pair (q (shown code.now)) code.now.k late.0)) result }
{
    picked_row(code, places, work, late, late_row);
    try_earlier(
        code, received, trusts, places, work, late_row, early_row, late, found, left,
    )
}

// All pairs.
pub fn try_pairs(
    code: &Code,
    received: &[u8],
    trusts: &[u8],
    places: &[u16],
    work: &[u8],
    late_row: &mut [u8],
    early_row: &mut [u8],
    found: Found,
    left: usize,
) -> Found
    requires prepared { Prepared (shown code.now) received.now trusts.now places.now work.now × IsTry (shown code.now) received.now trusts.now found
        × (length late_row.old ≡ length code.now.xs.now) × (length early_row.old ≡ length code.now.xs.now) }
    ensures { Runs (shown code.now) received.now trusts.now found left
        (pairs (q (shown code.now)) code.now.k) result }
{
    let some = code.field.size() - 1;
    let mut best = found;
    let mut rest = left;
    for i in (0..code.k).rev() {
        if 0 < rest {
            best = try_late(
                code,
                received,
                trusts,
                places,
                work,
                late_row,
                early_row,
                MessageIndex(i),
                best,
                rest,
            );
        }
        rest = rest.saturating_sub(i * (some * some));
    }
    best
}

// The difference of the received word and the codeword that agrees with it at the picked places, and all that the tries need in the working space.
ghost use Rattle.std.specs.Prelude.{◌≡◌, ◌*◌, ◌≤◌, length};
ghost use Rattle.code.specs.Shown.{shown};
ghost use Rattle.patterns.specs.Patterns.{none};
ghost use Rattle.patterns.specs.Best.{changed, word_of};
ghost use Rattle.picked_rows.specs.Stored.{Given, Spared, Summed, Prepared};

use crate::begin::{begin, store};
use crate::row::picked_row;
use crate::sums::store_sums;
use basics::MessageIndex;
use code::accepted::Code;
use engine::places::{chosen_place, index_of};
use engine::slices::{add_scaled, copy};

// Of each row the multiple by the symbol received at its place, added to the received word.
fn add_rows(
    code: &Code,
    received: &[u8],
    trusts: &[u8],
    places: &[u16],
    work: &[u8],
    row: &mut [u8],
    difference: &mut [u8],
)
    requires given { Given (shown code.now) received.now trusts.now places.now × Summed (shown code.now) places.now work.now
        × (length row.old ≡ length code.now.xs.now) × (difference.old ≡ received.now) }
    ensures { difference.new ≡ changed received.now (word_of (shown code.now) received.now trusts.now (none code.now.k)) }
{
    for i in 0..code.k {
        let index = MessageIndex(i);
        let place = chosen_place(places, index);
        let t = received[index_of(place)];
        picked_row(code, places, work, index, row);
        add_scaled(code.field, t, row, difference);
    }
}

// The same with an array of its own for the rows.
fn find_difference(
    code: &Code,
    received: &[u8],
    trusts: &[u8],
    places: &[u16],
    work: &[u8],
    difference: &mut [u8],
)
    requires given { Given (shown code.now) received.now trusts.now places.now × Summed (shown code.now) places.now work.now
        × (length difference.old ≡ length code.now.xs.now) }
    ensures { difference.new ≡ changed received.now (word_of (shown code.now) received.now trusts.now (none code.now.k)) }
{
    let n = code.xs.len();
    let mut row = [0u8; 288];
    copy(received, n, difference);
    add_rows(
        code,
        received,
        trusts,
        places,
        work,
        &mut row[..n],
        difference,
    );
}

// All that the tries need, in the working space. An array is lent while it is computed.
pub fn prepare(
    code: &Code,
    received: &[u8],
    trusts: &[u8],
    places: &[u16],
    spare: &mut [u8],
    work: &mut [u8],
)
    requires given { Given (shown code.now) received.now trusts.now places.now × (length spare.old ≡ length code.now.xs.now) × (7 * length code.now.xs.now ≤ length work.old) }
    ensures { Prepared (shown code.now) received.now trusts.now places.now work.new
        × Spared (length code.now.xs.now) work.old work.new }
{
    begin(code, places, spare, work);
    store_sums(code, places, spare, work);
    find_difference(code, received, trusts, places, work, spare);
    store(spare, 6, work);
}

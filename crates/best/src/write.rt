// The codeword of what has been found.
ghost use Rattle.std.specs.Prelude.{◌≡◌, length};
ghost use Rattle.code.specs.Shown.{shown};
ghost use Rattle.patterns.specs.Best.{word_of, changed};
ghost use Rattle.picked_rows.specs.Stored.{Prepared};
ghost use Rattle.search.specs.Found.{change_of};
ghost use Rattle.search.specs.Search.{IsTry};

use basics::MessageIndex;
use code::accepted::Code;
use engine::slices::add_scaled;
use picked_rows::row::picked_row;
use search::block::Found;

// The received word with a difference.
fn apply(received: &[u8], difference: &[u8], out: &mut [u8])
    requires { (length difference.now ≡ length received.now) × (length out.old ≡ length received.now) }
    ensures { out.new ≡ changed received.now difference.now }
{
    for i in 0..received.len() {
        out[i] = received[i] ^ difference[i];
    }
}

// The word that agrees with the received one at the picked places, and of the rows of the changed ones the multiples.
pub fn write_word(
    code: &Code,
    received: &[u8],
    trusts: &[u8],
    places: &[u16],
    work: &[u8],
    found: Found,
    row: &mut [u8],
    out: &mut [u8],
)
    requires prepared { Prepared (shown code.now) received.now trusts.now places.now work.now × IsTry (shown code.now) received.now trusts.now found
        × (length row.old ≡ length code.now.xs.now) × (length out.old ≡ length code.now.xs.now) }
    ensures { out.new ≡ word_of (shown code.now) received.now trusts.now (change_of code.now.k found) }
{
    let n = code.xs.len();
    let start = 6 * n;
    let end = start + n;
    apply(received, &work[start..end], out);
    picked_row(code, places, work, MessageIndex(found.late), row);
    add_scaled(code.field, found.d, row, out);
    picked_row(code, places, work, MessageIndex(found.early), row);
    add_scaled(code.field, found.e, row, out);
}

// Of ranked places the k that Pick keeps, in the front of the list.
ghost use Rattle.std.specs.Prelude.{◌≡◌, ◌<◌, length, take};
ghost use Rattle.code.specs.Shown.{shown};
ghost use Rattle.codewords.specs.Codewords.{pick};
ghost use Rattle.solving.specs.Given.{Placed};

use basics::MessageIndex;
use code::accepted::Code;
use engine::places::chosen_place;
use solving::last_index::last_index;
use solving::last_zero::last_zero;

// The k-th place becomes the next one where the first k are dependent.
pub fn pick_ranked(code: &Code, ranked: &mut [u16])
    requires placed { Placed (shown code.now) ranked.old × (code.now.k < length ranked.old) }
    ensures { take code.now.k ranked.new ≡ pick (shown code.now) ranked.old }
{
    let k = code.k;
    let zero = last_zero(code, ranked);
    let last = last_index(k, zero);
    let place = chosen_place(ranked, last);
    ranked[k - 1] = place.0;
}

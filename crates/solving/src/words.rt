// Whether what was solved for has the symbols at the places: a function, and the word of its values.
ghost use Rattle.std.specs.Prelude.{◌≡◌, true, map, ◌≤◌, length, take};
ghost use Rattle.basics.specs.Lists.{all, same};
ghost use Rattle.elliptic.specs.Pair.{evaluate};
ghost use Rattle.codewords.specs.Code.{arithmetic};
ghost use Rattle.code.specs.Shown.{shown};
ghost use Rattle.codewords.specs.Codewords.{agrees};
ghost use Rattle.codewords.specs.Computed.{points_of};
ghost use Rattle.code.specs.Lists.{is_place};
ghost use Rattle.solving.specs.Given.{Placed};

use basics::MessageIndex;
use code::accepted::Code;
use engine::places::{chosen_place, index_of, message_symbol};
use interpolation::write::agrees;

// The values at the places are the symbols.
pub fn agrees_all(code: &Code, places: &[u16], symbols: &[u8], f: &[u8]) -> bool
    requires placed { Placed (shown code.now) places.now }
    requires k_in_bounds { (code.now.k ≤ length f.now) × (length symbols.now ≡ length places.now) }
    ensures { result ≡ same (map (evaluate (arithmetic (shown code.now)) (take code.now.k f.now)) (points_of (shown code.now) places.now)) symbols.now }
{
    agrees(code.field, code.xs, code.ys, places, symbols, &f[..code.k])
}

// The word has the symbols at the places.
pub fn agrees_at(f: &[u8], places: &[u16], symbols: &[u8]) -> bool
    requires { (all (is_place (length f.now)) places.now ≡ true) × (length symbols.now ≡ length places.now) }
    ensures { result ≡ agrees f.now places.now symbols.now }
{
    for i in 0..places.len() {
        let index = MessageIndex(i);
        let place = chosen_place(places, index);
        if f[index_of(place)] != message_symbol(symbols, index) {
            return false;
        }
    }
    true
}

// What the operations write of a function, its coefficients, and whether its values are the symbols.
ghost use Rattle.std.specs.Prelude.{◌≡◌, cond, map, ◌≤◌, length, take};
ghost use Rattle.basics.specs.Lists.{same};
ghost use Rattle.field.specs.Galois.{galois};
ghost use Rattle.elliptic.specs.Pair.{evaluate, padded};
ghost use Rattle.engine.specs.Arrays.{Room};
ghost use Rattle.engine.specs.Places.{points_of, Within};

use basics::MessageIndex;
use engine::pair::{Sizes, extend};
use engine::places::{chosen_place, message_symbol, point_at};
use engine::slices::{copy, value};
use field::Field;

// The function that is the first n coefficients of f, with zeros to the length of out.
pub fn write_function(f: &[u8], n: usize, out: &mut [u8])
    requires { (n ≤ length f.now) × (n ≤ length out.old) }
    ensures { out.new ≡ padded (length out.old) (take n f.now) }
{
    copy(f, n, out);
    let k = out.len();
    extend(out, n, k);
}

// L as such a function.
pub fn write_low(l: &[u8], u: &[u8], n: Sizes, out: &mut [u8])
    requires { Room l.now u.now n × (n.low ≤ length out.old) }
    ensures { out.new ≡ padded (length out.old) (take n.low (cond n.turned u.now l.now)) }
{
    let turned = n.turned;
    if turned {
        write_function(u, n.low, out);
    } else {
        write_function(l, n.low, out);
    }
}

// The value of f at every place is the symbol at the same index.
pub fn agrees(field: &Field, xs: &[u8], ys: &[u8], places: &[u16], symbols: &[u8], f: &[u8]) -> bool
    requires within { Within xs.now ys.now places.now (length places.now) × (length symbols.now ≡ length places.now) }
    ensures { result ≡ same (map (evaluate (galois field.now.number) f.now) (points_of xs.now ys.now places.now)) symbols.now }
{
    for i in 0..places.len() {
        let index = MessageIndex(i);
        let place = chosen_place(places, index);
        let p = point_at(xs, ys, place);
        if value(field, p.x, p.y, f) != message_symbol(symbols, index) {
            return false;
        }
    }
    true
}

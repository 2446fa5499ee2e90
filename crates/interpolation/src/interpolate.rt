// The pair and the interpolant of the first places of a list.
ghost use Rattle.std.specs.Prelude.{◌≡◌, [], cond, ◌≤◌, length, take};
ghost use Rattle.basics.specs.Lists.{Holds};
ghost use Rattle.field.specs.Galois.{galois};
ghost use Rattle.elliptic.specs.Pair.{evaluate, corrected, start, after};
ghost use Rattle.engine.specs.Arrays.{Pair, Filled, Long, Room, WordRoom};
ghost use Rattle.engine.specs.Places.{points_of, Runs};

use basics::MessageIndex;
use elliptic::Point;
use engine::pair::{Lengths, Sizes, complete, first_sizes, pair_turn, turn};
use engine::places::{chosen_place, message_symbol, point_at};
use engine::slices::value;
use field::Field;

// L = 1 in l, and U = Y in u.
fn begin(l: &mut [u8], u: &mut [u8])
    requires { Long l.old u.old }
    ensures { (take 1 l.new ≡ start.low) × (take 3 u.new ≡ start.high) }
{
    l[0] = 1;
    u[0] = 0;
    u[1] = 0;
    u[2] = 1;
}

// The pair of the first places.
pub fn run_pair(
    field: &Field,
    xs: &[u8],
    ys: &[u8],
    places: &[u16],
    count: usize,
    l: &mut [u8],
    u: &mut [u8],
) -> Sizes
    requires runs { Runs field.now.number xs.now ys.now places.now [] count × Long l.old u.old }
    ensures { Pair l.new u.new result
        (after (galois field.now.number) (points_of xs.now ys.now places.now) [] count) }
{
    begin(l, u);
    let mut n = first_sizes();
    for i in 0..count {
        let place = chosen_place(places, MessageIndex(i));
        let p = point_at(xs, ys, place);
        n = pair_turn(field, p, l, u, n);
    }
    n
}

// The pair and the interpolant of the first places, where it takes the symbols.
pub fn run(
    field: &Field,
    xs: &[u8],
    ys: &[u8],
    places: &[u16],
    symbols: &[u8],
    count: usize,
    l: &mut [u8],
    u: &mut [u8],
    f: &mut [u8],
) -> Lengths
    requires runs { Runs field.now.number xs.now ys.now places.now symbols.now count × Long l.old u.old × (count ≤ length symbols.now) × (292 ≤ length f.old) }
    ensures { Filled l.new u.new f.new result
        (after (galois field.now.number) (points_of xs.now ys.now places.now) symbols.now count) }
{
    begin(l, u);
    let mut n = Lengths {
        pair: first_sizes(),
        word: 0,
    };
    for i in 0..count {
        let index = MessageIndex(i);
        let place = chosen_place(places, index);
        let p = point_at(xs, ys, place);
        let v = message_symbol(symbols, index);
        n = turn(field, p, v, l, u, f, n);
    }
    n
}

// The value of L at p.
pub fn low_at(field: &Field, p: Point, l: &[u8], u: &[u8], n: Sizes) -> u8
    requires room { Room l.now u.now n }
    ensures { result ≡ evaluate (galois field.now.number) (take n.low (cond n.turned u.now l.now)) p }
{
    let low = n.low;
    let turned = n.turned;
    if turned {
        return value(field, p.x, p.y, &u[..low]);
    }
    value(field, p.x, p.y, &l[..low])
}

// F gains the multiple of L that makes its value at p v; how many coefficients it has then.
pub fn finish(field: &Field, p: Point, v: u8, l: &[u8], u: &[u8], f: &mut [u8], n: Lengths) -> usize
    requires room { Room l.now u.now n.pair × WordRoom f.old n }
    ensures { Holds f.new result
        (corrected (galois field.now.number) p v (take n.pair.low (cond n.pair.turned u.now l.now)) (take n.word f.old)) }
{
    let low = n.pair.low;
    let turned = n.pair.turned;
    if turned {
        return complete(field, p, v, &u[..low], f, n.word);
    }
    complete(field, p, v, &l[..low], f, n.word)
}

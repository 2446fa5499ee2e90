// The pair and the interpolant of the first places of a list.
ghost use Rattle.std.specs.Prelude.{◌≡◌, ◌≤◌, length};
ghost use Rattle.basics.specs.Lists.{table};
ghost use Rattle.field.specs.Galois.{galois};
ghost use Rattle.elliptic.specs.Pair.{after};
ghost use Rattle.values.specs.Values.{Shows, ShownIn, Coordinates, RunsWith, points_in, one};

use crate::word::word_turn;
use basics::MessageIndex;
use engine::pair::{Sizes, first_sizes};
use engine::places::message_symbol;
use engine::slices::clear;
use field::Field;

// The pair and the interpolant of the first points of a list, by their values at the later ones; it takes the symbols there.
// l holds the values of L = 1, and u the second coordinates, which are the values of U = Y.
pub fn run(
    field: &Field,
    xs: &[u8],
    symbols: &[u8],
    count: usize,
    l: &mut [u8],
    u: &mut [u8],
    f: &mut [u8],
) -> Sizes
    requires coordinates { Coordinates field.now.number xs.now u.old × (l.old ≡ table one (length u.old)) × (length f.old ≡ length xs.now) }
    requires runs_with { RunsWith field.now.number xs.now u.old symbols.now count × (count ≤ length symbols.now) }
    ensures { ShownIn field.now.number xs.now u.old count l.new u.new result
        (after (galois field.now.number) (points_in xs.now u.old) symbols.now count)
        × Shows field.now.number xs.now u.old count
        (after (galois field.now.number) (points_in xs.now u.old) symbols.now count).word f.new }
{
    clear(f);
    let mut n = first_sizes();
    for i in 0..count {
        let v = message_symbol(symbols, MessageIndex(i));
        n = word_turn(field, i, i + 1, v, xs, l, u, f, n);
    }
    n
}

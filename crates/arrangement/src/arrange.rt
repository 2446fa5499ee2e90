// The coordinates of all points with those at chosen places in front, so that a loop over the other points needs no test.
ghost use Rattle.std.specs.Prelude.{◌≡◌, ◌≤◌, length};
ghost use Rattle.basics.specs.Lists.{table};
ghost use Rattle.values.specs.Values.{one};
ghost use Rattle.arrangement.specs.Arranged.{free_at, Places, Gathered, Arrangeable, Arranged};

use basics::MessageIndex;
use engine::places::{chosen_place, gather, index_of};

// Ones: every index is free, and the values of L = 1.
pub fn fill_ones(out: &mut [u8])
    ensures { out.new ≡ table one (length out.old) }
{
    out.fill(1);
}

// 1 at the free indices, 0 at those of the places.
pub fn mark(places: &[u16], free: &mut [u8])
    requires { Places (length free.old) places.now × (length free.old ≤ 288) }
    ensures { free.new ≡ table (free_at places.now) (length free.old) }
{
    fill_ones(free);
    for j in 0..places.len() {
        let place = chosen_place(places, MessageIndex(j));
        let i = index_of(place);
        free[i] = 0;
    }
}

// The coordinates at the free indices, behind those at the places. A coordinate that is not at a free index is written over by the next, so no turn
// needs a test; there is a next one as long as there is room.
fn place_rest(places: &[u16], free: &[u8], from: &[u8], out: &mut [u8])
    requires arrangeable { Arrangeable places.now free.now from.now out.old }
    requires gathered { Gathered from.now places.now out.old }
    ensures { Arranged from.now places.now (length places.now) out.new }
{
    let mut s = places.len();
    let mut t = 0;
    while s < out.len() {
        out[s] = from[t];
        s += usize::from(free[t]);
        t += 1;
    }
}

// All coordinates, those at the places first.
pub fn arrange(places: &[u16], free: &[u8], from: &[u8], out: &mut [u8])
    requires { Arrangeable places.now free.now from.now out.old }
    ensures { Arranged from.now places.now (length places.now) out.new }
{
    let k = places.len();
    gather(places, from, &mut out[..k]);
    place_rest(places, free, from, out);
}

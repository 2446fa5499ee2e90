// Values at the points with those at chosen places first, put back in the order of the points.
ghost use Rattle.std.specs.Prelude.{length};
ghost use Rattle.arrangement.specs.Arranged.{Arranged};
ghost use Rattle.solving.specs.Restored.{Marked, Freed};

use basics::MessageIndex;
use engine::places::{chosen_place, index_of};

// Those of the free points. f marks these before, with 1. The count runs ahead of the value, so that it stays within w behind the last free point.
fn restore_free(places: &[u16], w: &[u8], f: &mut [u8])
    requires { Marked places.now w.now f.old }
    ensures { Freed places.now w.now f.new }
{
    let mut s = places.len() - 1;
    for t in 0..w.len() {
        s += usize::from(f[t]);
        f[t] = w[s];
    }
}

// All values.
pub fn restore(places: &[u16], w: &[u8], f: &mut [u8])
    requires { Marked places.now w.now f.old }
    ensures { Arranged f.new places.now (length places.now) w.now }
{
    restore_free(places, w, f);
    for j in 0..places.len() {
        let place = chosen_place(places, MessageIndex(j));
        let i = index_of(place);
        f[i] = w[j];
    }
}

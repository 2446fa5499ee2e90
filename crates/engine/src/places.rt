// Places and message indices: the place and the symbol at an index into a message, and the points of places.
ghost use Rattle.std.specs.Prelude.{◌≡◌, ◌-◌, ◌<◌, ◌≤◌, length, get_or};
ghost use Rattle.basics.specs.Lists.{table};
ghost use Rattle.engine.specs.Places.{point_of, coordinate_at, IsPlace, Chosen};

use basics::{MessageIndex, Place};
use elliptic::Point;

// The index of the coordinates of a place.
pub fn index_of(place: Place) -> usize
    requires { 1 ≤ place.0 }
    ensures { result ≡ place.0 - 1 }
{
    usize::from(place.0) - 1
}

// The point at a place.
pub fn point_at(xs: &[u8], ys: &[u8], place: Place) -> Point
    requires { IsPlace xs.now ys.now place.0 }
    ensures { result ≡ point_of xs.now ys.now place.0 }
{
    let i = index_of(place);
    Point { x: xs[i], y: ys[i] }
}

// The place that is chosen for a message index.
pub fn chosen_place(places: &[u16], index: MessageIndex) -> Place
    requires { index.0 < length places.now }
    ensures { result.0 ≡ get_or places.now index.0 0 }
{
    let i = index.0;
    let place = places[i];
    Place(place)
}

// The message symbol at it.
pub fn message_symbol(message: &[u8], index: MessageIndex) -> u8
    requires { index.0 < length message.now }
    ensures { result ≡ get_or message.now index.0 0 }
{
    let i = index.0;
    message[i]
}

// The coordinates of the first chosen places, as many as `out` holds.
pub fn gather(places: &[u16], from: &[u8], out: &mut [u8])
    requires { Chosen (length from.now) places.now (length out.old) }
    ensures { out.new ≡ table (coordinate_at from.now places.now) (length out.old) }
{
    for i in 0..out.len() {
        let place = chosen_place(places, MessageIndex(i));
        out[i] = from[index_of(place)];
    }
}

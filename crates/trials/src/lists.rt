// Lists of places and symbols.
ghost use Rattle.std.specs.Prelude.{◌<◌};

use crate::random::{below, symbol};
use elimination::coder::at;
use elimination::equations::Added;

// The symbol at a place becomes v, where there is such a place.
fn put(list: &mut [u8], place: u16, v: u8) {
    let index = usize::from(place).checked_sub(1);
    if let Some(x) = index.and_then(|i| list.get_mut(i)) {
        *x = v;
    }
}

// The symbols at the places, in their order, to the front of `to`.
pub fn gather(from: &[u8], places: &[u16], to: &mut [u8]) {
    for (x, place) in to.iter_mut().zip(places) {
        *x = at(from, *place);
    }
}

// The symbols to their places.
pub fn scatter(from: &[u8], places: &[u16], to: &mut [u8]) {
    for (place, v) in places.iter().zip(from) {
        put(to, *place, *v);
    }
}

// Random symbols below q.
pub fn draw(state: &mut u64, q: usize, list: &mut [u8])
    requires { 0 < q }
{
    for x in list.iter_mut() {
        *x = symbol(state, q);
    }
}

// The places 1, 2, 3 and so on.
pub fn ascending(list: &mut [u16]) {
    for (place, next) in list.iter_mut().zip(1..=u16::MAX) {
        *place = next;
    }
}

// A random order.
pub fn shuffle(state: &mut u64, list: &mut [u16]) {
    for i in (0..list.len()).rev() {
        list.swap(i, below(state, i + 1));
    }
}

// Whether the picked places are the first ones that are marked as new.
pub fn same_marked(places: &[u16], marks: &[Added], picked: &[u16]) -> bool {
    places
        .iter()
        .zip(marks)
        .filter(|(_, mark)| **mark == Added::New)
        .map(|(place, _)| *place)
        .take(picked.len())
        .eq(picked.iter().copied())
}

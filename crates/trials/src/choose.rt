// Which places a trial has.
ghost use Rattle.std.specs.Prelude.{◌≤◌, ◌<◌};

use crate::lists::{ascending, shuffle};
use crate::memory::MOST;

// The number of elements of field m.
pub fn elements(m: u8) -> usize
    ensures { 0 < result }
{
    match m {
        2..=7 => 1 << m,
        _ => 256,
    }
}

// How many places a mask has.
pub fn size(mask: u32) -> usize {
    mask.count_ones() as usize
}

// The places of a mask's bits, lowest first.
fn by_mask(mask: u32, list: &mut [u16]) {
    let mut rest = mask;
    for place in list.iter_mut() {
        *place = (rest.trailing_zeros() + 1) as u16;
        rest &= rest.wrapping_sub(1);
    }
}

// Some of the places 1 to n, in a random order.
pub fn at_random(state: &mut u64, n: usize, list: &mut [u16])
    requires { n ≤ 288 }
{
    let mut order = [0; MOST];
    let order = &mut order[..n];
    ascending(order);
    shuffle(state, order);
    for (place, next) in list.iter_mut().zip(order.iter()) {
        *place = *next;
    }
}

// The places of a mask, or random ones where there is none.
pub fn choose(state: &mut u64, n: usize, mask: Option<u32>, list: &mut [u16])
    requires { n ≤ 288 }
{
    match mask {
        Some(mask) => by_mask(mask, list),
        None => at_random(state, n, list),
    }
}

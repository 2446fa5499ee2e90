// Heard beside a plain listing of a mask's bits.
ghost use Rattle.std.specs.Prelude.{◌<◌, ◌≤◌, length};

use basics::number;
use code::heard::heard;
use codewords::Parameters;
use trials::memory::MOST;
use trials::random::below;
use trials::tally::Tally;

// The bits of a mask.
const BITS: usize = 320;

// What stands in a buffer before the call: no place.
const UNHEARD: u16 = 60000;

fn is_set(mask: &[u8; 40], i: usize) -> bool
    requires { i < 320 }
{
    mask[i / 8] >> (i % 8) & 1 == 1
}

fn set(mask: &mut [u8; 40], i: usize)
    requires { i < 320 }
{
    mask[i / 8] |= 1 << (i % 8);
}

// Whether a bit past the first n is set.
fn any_past(mask: &[u8; 40], n: usize) -> bool {
    for i in n..BITS {
        if is_set(mask, i) {
            return true;
        }
    }
    false
}

// What Heard answers, a refusal by its number, and where it accepts, the places of the set bits in front of the list.
fn list_bits(mask: &[u8; 40], n: usize, list: &mut [u16; MOST]) -> Result<usize, u8>
    requires { n ≤ 288 }
{
    if any_past(mask, n) {
        return Err(9);
    }
    let mut count = 0;
    for i in 0..n {
        if is_set(mask, i) {
            list[count] = i as u16 + 1;
            count += 1;
        }
    }
    Ok(count)
}

// The answer, and all that stands in the buffer: 9 for a bit past n, and entries past the count keep their values.
fn compare_heard(t: &mut Tally, code: Parameters, xs: &[u8], ys: &[u8], mask: &[u8; 40])
    requires { length xs.now ≤ 288 }
{
    let mut out = [UNHEARD; MOST];
    let mut list = [UNHEARD; MOST];
    let answer = heard(code, xs, ys, mask, &mut out);
    let expected = list_bits(mask, xs.len(), &mut list);
    t.compared(answer.map_err(number) == expected && out == list);
}

// The mask, and the same with a bit past n.
fn try_bits(
    t: &mut Tally,
    state: &mut u64,
    code: Parameters,
    xs: &[u8],
    ys: &[u8],
    mask: &mut [u8; 40],
)
    requires { length xs.now ≤ 288 }
{
    let n = xs.len();
    compare_heard(t, code, xs, ys, mask);
    t.chosen(false);
    set(mask, n + below(state, BITS - n));
    compare_heard(t, code, xs, ys, mask);
}

// A trial of a mask of the first eight places.
pub fn try_first(t: &mut Tally, state: &mut u64, code: Parameters, xs: &[u8], ys: &[u8], first: u8)
    requires { length xs.now ≤ 288 }
{
    let mut mask = [0; 40];
    mask[0] = first;
    try_bits(t, state, code, xs, ys, &mut mask);
}

// A trial of a random mask: some of the first n bits, none, a quarter, a half, three quarters or all of them.
pub fn try_random(t: &mut Tally, state: &mut u64, code: Parameters, xs: &[u8], ys: &[u8])
    requires { length xs.now ≤ 288 }
{
    let mut mask = [0; 40];
    let dense = below(state, 5);
    for i in 0..xs.len() {
        if below(state, 4) < dense {
            set(&mut mask, i);
        }
    }
    try_bits(t, state, code, xs, ys, &mut mask);
}

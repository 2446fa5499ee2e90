// The running state: what is kept of the hours so far.
ghost use Rattle.std.specs.Prelude.{◌≡◌, true, [], ◌∷◌, ◌<◌, take, drop};
ghost use Rattle.basics.specs.Lists.{all};
ghost use Rattle.hours.specs.Packing.{valid, is_code};
ghost use Rattle.rolling.specs.State.{absent_code, state_of, possible, continues, advanced};

use hours::packing::{encode, is_code};

// The code of an absent mean.
pub const ABSENT_CODE: u16 = 32767;

// The first hour of a run is at most this one.
const LATEST_FIRST: u32 = 71_000_000;

#[derive(Clone, Copy)]
pub struct RollingState {
    // The means of the last 24 hours in Pack's 15 bits, the newest first; absent ones stand for hours before the first.
    pub codes: [u16; 24],
    // The hour that comes next; 0 before the first hour, which has no other before it.
    pub next: u64,
    // 0: room for what a later version needs.
    pub spare: u64,
}

// The state before the first hour.
#[tactic(auto, unfolding(crate::specs::State::held))]
pub fn fresh() -> RollingState
    ensures { result ≡ state_of [] }
{
    let codes = [ABSENT_CODE; 24];
    RollingState {
        codes,
        next: 0,
        spare: 0,
    }
}

// Every code stands for a mean. No branch depends on one.
fn all_codes(codes: &[u16]) -> bool
    ensures { result ≡ all is_code codes.now }
{
    let mut good = true;
    for code in codes {
        good = good & is_code(u32::from(*code));
    }
    good
}

// From an index on there are absent means alone.
fn absent_from(codes: &[u16], from: usize) -> bool
    ensures { result ≡ all absent_code (drop from codes.now) }
{
    codes.iter().skip(from).all(|code| *code == ABSENT_CODE)
}

// Some run of hours gives this state.
#[tactic(auto, unfolding(crate::specs::State::possible))]
pub fn is_possible(state: RollingState) -> bool
    ensures { result ≡ possible state }
{
    state.next <= 4_294_967_296
        && state.spare == 0
        && all_codes(&state.codes)
        && absent_from(&state.codes, state.next as usize)
}

// The hour is the one that comes next.
pub fn is_next(next: u64, hour: u32) -> bool
    ensures { result ≡ continues next hour }
{
    if next == 0 {
        hour <= LATEST_FIRST
    } else {
        u64::from(hour) == next
    }
}

// The newest code comes in at the front, and the oldest falls out.
fn pushed(codes: &[u16; 24], code: u16) -> [u16; 24]
    ensures { result ≡ code ∷ take 23 codes.now }
{
    let mut new = [code; 24];
    new[1..].copy_from_slice(&codes[..23]);
    new
}

// The state one hour further.
#[tactic(auto, unfolding(crate::specs::State::advanced))]
pub fn advance(state: RollingState, hour: u32, mean: i16) -> RollingState
    requires { valid mean ≡ true }
    ensures { result ≡ advanced state hour mean }
{
    let codes = pushed(&state.codes, encode(mean) as u16);
    RollingState {
        codes,
        next: u64::from(hour) + 1,
        spare: 0,
    }
}

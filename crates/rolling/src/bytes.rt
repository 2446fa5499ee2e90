// The state in 64 bytes: 24 codes of two bytes, then the next hour and the spare number of eight bytes each, every number with its lowest byte first.
ghost use Rattle.std.specs.Prelude.{◌≡◌, ◌+◌, ◌≤◌, length, take, drop};
ghost use Rattle.basics.specs.SetBits.{little_endian};
ghost use Rattle.rolling.specs.Bytes.{numbers, bytes_of, in_bytes, state_from, state_bytes};

use crate::state::RollingState;

// The number in `width` bytes from an index on.
fn number_at(bytes: &[u8], at: usize, width: usize) -> u64
    requires { (at + width ≤ length bytes.now) × (width ≤ 8) }
    ensures { result ≡ little_endian (take width (drop at bytes.now)) }
{
    let mut x = 0u64;
    for j in (0..width).rev() {
        x = 256 * x + u64::from(bytes[at + j]);
    }
    x
}

fn load_codes(bytes: &[u8], codes: &mut [u16; 24])
    requires { (length bytes.now ≡ 64) × (length codes.old ≡ 24) }
    ensures { codes.new ≡ numbers 2 24 bytes.now }
{
    for i in 0..24 {
        codes[i] = number_at(bytes, 2 * i, 2) as u16;
    }
}

#[tactic(auto, unfolding(crate::specs::Bytes::state_from))]
pub fn load(bytes: &[u8]) -> RollingState
    requires { length bytes.now ≡ 64 }
    ensures { result ≡ state_from bytes.now }
{
    let mut codes = [0u16; 24];
    load_codes(bytes, &mut codes);
    let next = number_at(bytes, 48, 8);
    let spare = number_at(bytes, 56, 8);
    RollingState { codes, next, spare }
}

// The number in all bytes that are lent.
fn store_number(x: u64, out: &mut [u8])
    ensures { out.new ≡ bytes_of (length out.old) x }
{
    let mut rest = x;
    for byte in out {
        *byte = (rest % 256) as u8;
        rest /= 256;
    }
}

fn store_codes(codes: &[u16; 24], out: &mut [u8])
    requires { (length codes.now ≡ 24) × (length out.old ≡ 48) }
    ensures { out.new ≡ in_bytes 2 codes.now }
{
    for i in 0..24 {
        let from = 2 * i;
        let to = from + 2;
        store_number(u64::from(codes[i]), &mut out[from..to]);
    }
}

pub fn store(state: RollingState, out: &mut [u8])
    requires { length out.old ≡ 64 }
    ensures { out.new ≡ state_bytes state }
{
    let codes = state.codes;
    store_codes(&codes, &mut out[..48]);
    store_number(state.next, &mut out[48..56]);
    store_number(state.spare, &mut out[56..]);
}

// Bit sets, 64 bits at a time: eight bytes as one number, and the places of its set bits.
#![tactic(auto)]

ghost use Rattle.std.specs.Prelude.{◌≡◌, ◌+◌, ◌≤◌, length, take, drop};
ghost use Rattle.std.specs.Int.Count.{ones};
ghost use Rattle.std.proofs.lemmas.List.Edits.{sets};
ghost use Rattle.basics.specs.SetBits.{little_endian};
ghost use Rattle.bitset.specs.Places.{places_of};

// The eight bytes from an index on, as one number, the lowest byte first.
pub fn word(bytes: &[u8], at: usize) -> u64
    requires { at + 8 ≤ length bytes.now }
    ensures { result ≡ little_endian (take 8 (drop at bytes.now)) }
{
    let mut x = 0u64;
    for j in 0..8 {
        x |= u64::from(bytes[at + j]) << (8 * j);
    }
    x
}

// The places of the set bits, ascending, to the buffer from an index on; the index behind them. The lowest bit's place is the one after `before`.
pub fn list_set(x: u64, before: u16, out: &mut [u16], from: usize) -> usize
    requires { (from + ones x ≤ length out.old) × (before ≤ 256) }
    ensures { (result ≡ from + ones x) × (out.new ≡ sets out.old from (places_of before x)) }
{
    let mut rest = x;
    let mut at = from;
    while rest != 0 {
        out[at] = before + rest.trailing_zeros() as u16 + 1;
        rest &= rest - 1;
        at += 1;
    }
    from + x.count_ones() as usize
}

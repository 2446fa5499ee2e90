// How many tries there are, and the gap: the cost less the least total trust of what is untried. The trusts of picked places never rise, so the least is
// among four: that of the last place with an untried change, of two pairs, and of the last three places.
ghost use Rattle.std.specs.Prelude.{◌≡◌, ◌+◌, ◌*◌, ◌-◌, ◌/◌, ◌≤◌, length};
ghost use Rattle.arrangement.specs.Arranged.{Places};
ghost use Rattle.patterns.specs.Best.{entries};
ghost use Rattle.patterns.specs.Cheapest.{gap_to};
ghost use Rattle.patterns.specs.Computed.{least_left};

use crate::left::{pair_left, single_left, triple_left};

// The pairs of k places.
fn pairs_of(k: usize) -> usize
    requires { k ≤ 288 }
    ensures { (result ≡ k * (k - 1) / 2) × (result ≤ 41328) }
{
    k * k.saturating_sub(1) / 2
}

// All tries of k places by s amounts: none, k places, and k·(k − 1)/2 pairs.
pub fn all_tries(k: usize, s: usize) -> usize
    requires { (k ≤ 288) × (s ≤ 255) }
    ensures { result ≡ 1 + (k * s + k * (k - 1) / 2 * (s * s)) }
{
    1 + (k * s + pairs_of(k) * (s * s))
}

// The gap of a cost after so many tries but the first, of k picked places by s amounts.
pub fn gap(trusts: &[u8], places: &[u16], s: usize, tries: usize, cost: u32) -> u32
    requires { Places (length trusts.now) places.now × (length places.now ≤ 288) × (1 ≤ s) × (s ≤ 255) }
    ensures { result ≡ gap_to cost (least_left (entries trusts.now places.now) (length places.now) s tries) }
{
    let single = single_left(trusts, places, tries / s, cost);
    let left = tries.saturating_sub(places.len() * s);
    let pair = pair_left(trusts, places, left / (s * s), single);
    cost - triple_left(trusts, places, pair)
}

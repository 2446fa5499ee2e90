// The least total trust of what is untried, part by part: a place, two pairs and three places. Each part takes the least so far and gives the new one.
ghost use Rattle.std.specs.Prelude.{◌≡◌, ◌&&◌, ◌⊎◌, ◌+◌, ◌-◌, ◌<◌, ◌≤◌, leb, length, get_or};
ghost use Rattle.arrangement.specs.Arranged.{Places};
ghost use Rattle.patterns.specs.Best.{entries};
ghost use Rattle.patterns.specs.Cheapest.{least};
ghost use Rattle.patterns.specs.Computed.{single_left, pair_below, pair_left, triple_left};

use crate::trusts::trust_of;
use basics::MessageIndex;

// The total trust of two picked places.
fn pair_trust(trusts: &[u8], places: &[u16], late: usize, early: usize) -> u32
    requires { Places (length trusts.now) places.now × (late < length places.now) × (early < length places.now) }
    ensures { (let ts = entries trusts.now places.now in result ≡ get_or ts late 0 + get_or ts early 0) × (result ≤ 510) }
{
    trust_of(trusts, places, MessageIndex(late)) + trust_of(trusts, places, MessageIndex(early))
}

// The last place with an untried change.
pub fn single_left(trusts: &[u8], places: &[u16], done: usize, low: u32) -> u32
    requires { Places (length trusts.now) places.now }
    ensures { result ≡ least low (single_left (entries trusts.now places.now) (length places.now) done) }
{
    if done < places.len() {
        low.min(trust_of(trusts, places, MessageIndex(places.len() - 1 - done)))
    } else {
        low
    }
}

// The last two of the first k places.
fn pair_below(trusts: &[u8], places: &[u16], k: usize, low: u32) -> u32
    requires { Places (length trusts.now) places.now × (k ≤ length places.now) }
    ensures { result ≡ least low (pair_below (entries trusts.now places.now) k) }
{
    if 2 <= k {
        low.min(pair_trust(trusts, places, k - 1, k - 2))
    } else {
        low
    }
}

// Whether all pairs with the last of k places as the later are tried.
fn passed(k: usize, left: usize) -> bool
    ensures { result ≡ (leb 2 k && leb (k - 1) left) }
{
    2 <= k && k - 1 <= left
}

// The next pair with the last of k places as the later, and the first one of the place before it.
fn row_left(trusts: &[u8], places: &[u16], k: usize, left: usize, low: u32) -> u32
    requires { Places (length trusts.now) places.now × (k ≤ length places.now) × ((k < 2) ⊎ (left + 1 < k)) }
    ensures { result ≡ least low (pair_left (entries trusts.now places.now) k left) }
{
    if 2 <= k {
        let pair = pair_trust(trusts, places, k - 1, k - 2 - left);
        pair_below(trusts, places, k - 1, low.min(pair))
    } else {
        low
    }
}

// The two pairs.
pub fn pair_left(trusts: &[u8], places: &[u16], done: usize, low: u32) -> u32
    requires { Places (length trusts.now) places.now }
    ensures { result ≡ least low (pair_left (entries trusts.now places.now) (length places.now) done) }
{
    let mut k = places.len();
    let mut left = done;
    while passed(k, left) {
        k -= 1;
        left -= k;
    }
    row_left(trusts, places, k, left, low)
}

// The last three places.
pub fn triple_left(trusts: &[u8], places: &[u16], low: u32) -> u32
    requires { Places (length trusts.now) places.now }
    ensures { result ≡ least low (triple_left (entries trusts.now places.now) (length places.now)) }
{
    let k = places.len();
    if 3 <= k {
        let last = trust_of(trusts, places, MessageIndex(k - 1));
        low.min(last + pair_trust(trusts, places, k - 2, k - 3))
    } else {
        low
    }
}

// The figures: cost, tries made and gap.
ghost use Rattle.std.specs.Prelude.{◌≡◌, [], ◌∷◌, ◌+◌, ◌*◌, ◌-◌, ◌/◌, ◌≤◌, min, length};
ghost use Rattle.field.specs.Galois.{IsField, size};
ghost use Rattle.arrangement.specs.Arranged.{Places};
ghost use Rattle.patterns.specs.Best.{entries};
ghost use Rattle.patterns.specs.Cheapest.{gap_to};
ghost use Rattle.patterns.specs.Computed.{least_left};

use field::size;
use gap::gap::{all_tries, gap};

// How many tries are made: the budget, or all if they are fewer.
fn tries_made(k: usize, s: usize, budget: usize) -> u32
    requires { (k ≤ 288) × (s ≤ 255) × (budget ≤ 65535) }
    ensures { result ≡ min budget (1 + (k * s + k * (k - 1) / 2 * (s * s))) }
{
    budget.min(all_tries(k, s)) as u32
}

// The three figures of a cost, where so many of k picked places' tries are made.
pub fn write_figures(
    m: u8,
    trusts: &[u8],
    places: &[u16],
    budget: usize,
    cost: u32,
    figures: &mut [u32],
)
    requires { IsField m × Places (length trusts.now) places.now × (length places.now ≤ 288) × (1 ≤ budget) × (budget ≤ 65535) × (length figures.old ≡ 3) }
    ensures { figures.new ≡ cost ∷ min budget (1 + (length places.now * (size m - 1) + length places.now * (length places.now - 1) / 2 * ((size m - 1) * (size m - 1))))
        ∷ gap_to cost (least_left (entries trusts.now places.now) (length places.now) (size m - 1) (budget - 1)) ∷ [] }
{
    let s = size(m) - 1;
    figures[0] = cost;
    figures[1] = tries_made(places.len(), s, budget);
    figures[2] = gap(trusts, places, s, budget - 1, cost);
}

// The cheapest of the multiples that have been gathered.
ghost use Rattle.std.specs.Prelude.{◌≡◌, ◌-◌, ◌<◌, ◌≤◌};
ghost use Rattle.patterns.specs.Cheapest.{cheapest};
ghost use Rattle.tries.specs.Gathered.{multiple_of, Within};
ghost use Rattle.tries.specs.Multiples.{price_of, slot_tries};

// A cost, and the multiple that it is of, or 0.
#[derive(Clone, Copy)]
pub struct Multiple {
    pub cost: u32,
    pub e: u8,
}

// The multiple of a slot.
fn multiple_of(half: u8, j: usize) -> u8
    requires { (half ≤ 1) × (j < 128) }
    ensures { result ≡ multiple_of half j }
{
    half * 128 + j as u8
}

// The cheaper of the best so far and the multiples in slots from `from` to before `to`, of equals the first.
pub fn choose(
    fixed: u32,
    slots: &[u32; 128],
    half: u8,
    from: usize,
    to: usize,
    best: Multiple,
) -> Multiple
    requires { (from ≤ to) × (to ≤ 128) × (half ≤ 1) × Within fixed slots.now from to }
    ensures { (result.cost, result.e) ≡ cheapest price_of (best.cost, best.e) (slot_tries fixed slots.now half from (to - from)) }
{
    let mut cost = best.cost;
    let mut e = best.e;
    for j in from..to {
        let c = fixed - slots[j];
        if c < cost {
            cost = c;
            e = multiple_of(half, j);
        }
    }
    Multiple { cost, e }
}

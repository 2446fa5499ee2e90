// The rolling mean of 24 codes.
ghost use Rattle.std.specs.Prelude.{◌≡◌, true, ◌*◌, ◌≤◌, pos, ◌-ℤ◌, length};
ghost use Rattle.basics.specs.Lists.{all};
ghost use Rattle.hours.specs.Packing.{is_code};
ghost use Rattle.rolling.specs.State.{figure, present_codes, total};

use crate::state::ABSENT_CODE;
use hours::means::ABSENT;
use hours::rounding::nearest;

// The number of present hours from which a day has a mean.
const ENOUGH: u32 = 18;

// The number of present means, and the sum of their codes.
#[derive(Clone, Copy)]
struct Total {
    count: u32,
    sum: u32,
}

// Over the codes, with no branch that depends on one.
fn add_up(codes: &[u16]) -> Total
    requires { (length codes.now ≤ 24) × (all is_code codes.now ≡ true) }
    ensures { (result.count ≡ length (present_codes codes.now)) × (result.sum ≡ total (present_codes codes.now)) }
{
    let mut count: u32 = 0;
    let mut sum: u32 = 0;
    for code in codes {
        let present = u32::from(*code != ABSENT_CODE);
        count += present;
        sum += present * u32::from(*code);
    }
    Total { count, sum }
}

// The sum of the means from the sum of their codes.
fn sum_of_means(sum: u32, count: u32) -> i32
    requires { (count ≤ 24) × (sum ≤ 22000 * count) }
    ensures { result ≡ pos sum -ℤ pos (2000 * count) }
{
    sum as i32 - (2000 * count) as i32
}

// The mean of the present ones, where they are enough.
pub fn rolling_mean(codes: &[u16; 24]) -> i16
    requires { all is_code codes.now ≡ true }
    ensures { result ≡ figure codes.now }
{
    let t = add_up(codes);
    if t.count < ENOUGH {
        return ABSENT;
    }
    nearest(sum_of_means(t.sum, t.count), t.count)
}

// Which place is the last that is used.
ghost use Rattle.std.specs.Prelude.{◌≡◌, cond, ◌-◌, ◌≤◌};

use basics::MessageIndex;

// The message index of the last place that is used: the k-th or, where L is zero there, the next.
pub fn last_index(k: usize, zero: bool) -> MessageIndex
    requires { 1 ≤ k }
    ensures { result.0 ≡ cond zero k (k - 1) }
{
    if zero {
        return MessageIndex(k);
    }
    let last = k - 1;
    MessageIndex(last)
}

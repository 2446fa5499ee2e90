// The different coordinates of a list: a point and its opposite share one.
ghost use Rattle.std.specs.Prelude.{false, ◌≡◌, ◌≤◌, length, replicate};
ghost use Rattle.evaluation.specs.Parts.{Lists};

// The different bytes of xs, to the front of out; how many there are. Each is written behind those so far, and counts where it was not seen before.
pub fn distinct(xs: &[u8], seen: &mut [bool; 256], out: &mut [u8; 292]) -> usize
    requires { (length xs.now ≤ 288) × (seen.old ≡ replicate 256 false) × (length out.old ≡ 292) }
    ensures { Lists xs.now out.new result }
{
    let mut d = 0;
    for &x in xs {
        out[d] = x;
        d += usize::from(!seen[usize::from(x)]);
        seen[usize::from(x)] = true;
    }
    d
}

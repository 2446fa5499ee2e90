// The indices of the points that are not chosen, in ascending order, so that a row is written at these alone. An index has two bytes: the low ones
// stand behind the first factors of the rows, and the high ones behind the second.
ghost use Rattle.std.specs.Prelude.{◌≡◌, ◌+◌, ◌*◌, ◌/◌, ◌%◌, ◌<◌, length};
ghost use Rattle.generator.specs.Rows.{index_at, Marked, Behind};

fn low_byte(i: usize) -> u8
    ensures { result ≡ i % 256 }
{
    (i % 256) as u8
}

fn high_byte(i: usize) -> u8
    requires { i < 65536 }
    ensures { result ≡ i / 256 }
{
    (i / 256) as u8
}

fn joined_bytes(low: u8, high: u8) -> usize
    ensures { result ≡ low + 256 * high }
{
    usize::from(low) + 256 * usize::from(high)
}

// The index of the point in slot s.
pub fn index_in(a: &[u8], b: &[u8], s: usize) -> usize
    requires { (s < length a.now) × (s < length b.now) }
    ensures { result ≡ index_at a.now b.now s }
{
    joined_bytes(a[s], b[s])
}

// The indices of the points that are marked, one a slot behind the first count. What is not marked is written over by the next.
pub fn index_free(count: usize, free: &[u8], a: &mut [u8], b: &mut [u8])
    requires { Marked count free.now × (length a.old ≡ length free.now) × (length b.old ≡ length free.now) }
    ensures { Behind count free.now a.old b.old a.new b.new }
{
    let mut s = count;
    let mut t = 0;
    while s < a.len() {
        a[s] = low_byte(t);
        b[s] = high_byte(t);
        s += usize::from(free[t]);
        t += 1;
    }
}

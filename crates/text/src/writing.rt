// Writing: bytes, numbers and lines behind what was written, and the position behind them.
ghost use Rattle.std.specs.Prelude.{[], ◌∷◌, ◌+◌, ◌/◌, ◌%◌, ◌<◌, ◌≤◌, length};
ghost use Rattle.text.specs.Text.{decimal, following, joined, line_of};
ghost use Rattle.text.specs.Stages.{Appends};

// One byte.
fn put(out: &mut [u8], at: usize, b: u8) -> usize
    requires { at < length out.old }
    ensures { Appends (b ∷ []) out.old at out.new result }
{
    out[at] = b;
    at + 1
}

// Bytes as they are.
fn put_bytes(out: &mut [u8], start: usize, bytes: &[u8]) -> usize
    requires { start + length bytes.now ≤ length out.old }
    ensures { Appends bytes.now out.old start out.new result }
{
    let mut at = start;
    for i in 0..bytes.len() {
        at = put(out, at, bytes[i]);
    }
    at
}

// Two digits.
fn put_two(out: &mut [u8], at: usize, n: u8) -> usize
    requires { (n < 100) × (at + 2 ≤ length out.old) }
    ensures { Appends ((48 + n / 10) ∷ (48 + n % 10) ∷ []) out.old at out.new result }
{
    let next = put(out, at, 48 + n / 10);
    put(out, next, 48 + n % 10)
}

// A number without needless zeros.
fn put_number(out: &mut [u8], at: usize, n: u8) -> usize
    requires { at + length (decimal n) ≤ length out.old }
    ensures { Appends (decimal n) out.old at out.new result }
{
    if n < 10 {
        return put(out, at, 48 + n);
    }
    if n < 100 {
        return put_two(out, at, n);
    }
    let next = put(out, at, 48 + n / 100);
    put_two(out, next, n % 100)
}

// Numbers, each behind a comma.
fn put_following(out: &mut [u8], start: usize, l: &[u8]) -> usize
    requires { start + length (following l.now) ≤ length out.old }
    ensures { Appends (following l.now) out.old start out.new result }
{
    let mut at = start;
    for i in 0..l.len() {
        let next = put(out, at, b',');
        at = put_number(out, next, l[i]);
    }
    at
}

// Numbers joined by commas.
fn put_numbers(out: &mut [u8], start: usize, l: &[u8]) -> usize
    requires { start + length (joined l.now) ≤ length out.old }
    ensures { Appends (joined l.now) out.old start out.new result }
{
    if l.len() == 0 {
        return start;
    }
    let next = put_number(out, start, l[0]);
    put_following(out, next, &l[1..])
}

// A line of a key and numbers.
pub fn put_line(out: &mut [u8], start: usize, key: &[u8], l: &[u8]) -> usize
    requires { start + length (line_of key.now l.now) ≤ length out.old }
    ensures { Appends (line_of key.now l.now) out.old start out.new result }
{
    let first = put_bytes(out, start, key);
    let end = put_numbers(out, first, l);
    put(out, end, b'\n')
}

// Reading: what a text has at a position, and the position behind it.
ghost use Rattle.std.specs.Prelude.{◌≡◌, true, ◌<◌, ◌-◌, length, drop};
ghost use Rattle.text.specs.Reading.{is_next, is_digit, more, number, numbers, stripped, line, exactly};
ghost use Rattle.text.specs.Stages.{found_in, number_in, all_in, Lists};

// A number, and the position behind it.
#[derive(Clone, Copy)]
pub struct Number {
    pub value: u16,
    pub next: usize,
}

// How many numbers were read, and the position behind them.
#[derive(Clone, Copy)]
pub struct Listed {
    pub count: usize,
    pub next: usize,
}

// Whether byte b stands there.
fn is_next(s: &[u8], at: usize, b: u8) -> bool
    ensures { result ≡ is_next b (drop at s.now) }
{
    if s.len() <= at {
        return false;
    }
    s[at] == b
}

// The position behind a key, byte for byte.
fn after_key(s: &[u8], start: usize, key: &[u8]) -> Option<usize>
    ensures { found_in s.now result ≡ stripped key.now (drop start s.now) }
{
    let mut at = start;
    for i in 0..key.len() {
        if !is_next(s, at, key[i]) {
            return None;
        }
        at += 1;
    }
    Some(at)
}

fn is_digit(b: u8) -> bool
    ensures { result ≡ is_digit b }
{
    48 <= b && b <= 57
}

// The value of a digit.
fn digit(b: u8) -> u32
    requires { is_digit b ≡ true }
    ensures { (result ≡ b - 48) × (result < 10) }
{
    u32::from(b - 48)
}

// The digits behind the first, whose value is given.
fn more_digits(s: &[u8], start: usize, first: u32) -> Option<Number>
    requires { first < 65536 }
    ensures { number_in s.now result ≡ more first (drop start s.now) }
{
    let mut value = first;
    let mut at = start;
    while at < s.len() {
        let b = s[at];
        if !is_digit(b) {
            return Some(Number {
                value: value as u16,
                next: at,
            });
        }
        if value == 0 {
            return None;
        }
        value = value * 10 + digit(b);
        if 65536 <= value {
            return None;
        }
        at += 1;
    }
    Some(Number {
        value: value as u16,
        next: at,
    })
}

// A number below 65,536 without needless zeros.
fn read_number(s: &[u8], start: usize) -> Option<Number>
    ensures { number_in s.now result ≡ number (drop start s.now) }
{
    if s.len() <= start {
        return None;
    }
    let b = s[start];
    if !is_digit(b) {
        return None;
    }
    more_digits(s, start + 1, digit(b))
}

// Numbers joined by commas, as many as `out` holds at most.
fn read_numbers(s: &[u8], start: usize, out: &mut [u16]) -> Option<Listed>
    ensures { Lists s.now out.new result (numbers (length out.old) (drop start s.now)) }
{
    let mut at = start;
    for count in 0..out.len() {
        let read = read_number(s, at)?;
        out[count] = read.value;
        let next = read.next;
        if !is_next(s, next, b',') {
            return Some(Listed {
                count: count + 1,
                next,
            });
        }
        at = next + 1;
    }
    None
}

// A line of a key and numbers.
pub fn read_line(s: &[u8], start: usize, key: &[u8], out: &mut [u16]) -> Option<Listed>
    ensures { Lists s.now out.new result (line key.now (length out.old) (drop start s.now)) }
{
    let at = after_key(s, start, key)?;
    let listed = read_numbers(s, at, out)?;
    if !is_next(s, listed.next, b'\n') {
        return None;
    }
    Some(Listed {
        count: listed.count,
        next: listed.next + 1,
    })
}

// The position behind a line of as many numbers as `out` holds.
pub fn read_exactly(s: &[u8], start: usize, key: &[u8], out: &mut [u16]) -> Option<usize>
    ensures { all_in s.now out.new result ≡ exactly key.now (length out.old) (drop start s.now) }
{
    let listed = read_line(s, start, key, out)?;
    if listed.count != out.len() {
        return None;
    }
    Some(listed.next)
}

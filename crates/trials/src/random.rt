// A small generator of numbers that look random and are the same in every run: Marsaglia's xorshift of 64 bits.
ghost use Rattle.std.specs.Prelude.{◌<◌};

// The next state, which is the number drawn too.
pub fn next(state: &mut u64) -> u64 {
    let a = *state ^ (*state << 13);
    let b = a ^ (a >> 7);
    let c = b ^ (b << 17);
    *state = c;
    c
}

// A number below n.
pub fn below(state: &mut u64, n: usize) -> usize
    requires { 0 < n }
    ensures { result < n }
{
    (next(state) >> 11) as usize % n
}

// A symbol below q, which is at most 256.
pub fn symbol(state: &mut u64, q: usize) -> u8
    requires { 0 < q }
{
    (below(state, q) % 256) as u8
}

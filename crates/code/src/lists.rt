// Tests of the lists that operations are lent, each in one pass without an early exit.
ghost use Rattle.std.specs.Prelude.{◌≡◌, true, replicate, eqb};
ghost use Rattle.basics.specs.Lists.{all, different};
ghost use Rattle.code.specs.Lists.{is_place, is_below};

// Every place is 1 to n.
pub fn all_places(n: usize, places: &[u16]) -> bool
    ensures { result ≡ all (is_place n) places.now }
{
    let mut right = true;
    for place in places {
        let p = usize::from(*place);
        let inside = (1 <= p) & (p <= n);
        right = right & inside;
    }
    right
}

// Every symbol is below q.
pub fn all_below(q: usize, symbols: &[u8]) -> bool
    ensures { result ≡ all (is_below q) symbols.now }
{
    let mut right = true;
    for symbol in symbols {
        let u = usize::from(*symbol);
        right = right & (u < q);
    }
    right
}

// No number stands twice in the list: one that was met has a mark.
fn unmarked(list: &[u16], seen: &mut [u8]) -> bool
    requires list_value { all (is_below 512) list.now ≡ true }
    requires seen_value { seen.old ≡ replicate 512 0 }
    ensures { result ≡ different eqb list.now }
{
    let mut apart = true;
    for i in 0..list.len() {
        let s = usize::from(list[i]);
        apart = apart & (seen[s] != 1);
        seen[s] = 1;
    }
    apart
}

// No number stands twice in the list.
pub fn all_different(list: &[u16]) -> bool
    requires { all (is_below 512) list.now ≡ true }
    ensures { result ≡ different eqb list.now }
{
    let mut seen = [0u8; 512];
    unmarked(list, &mut seen)
}

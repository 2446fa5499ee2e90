// Plain search: all codewords by the second coder, and those of them within t.
ghost use Rattle.std.specs.Prelude.{IfSome, ◌≤◌};

use basics::Refusal;
use codewords::Parameters;
use elimination::coder::word;
use trials::choose::elements;
use trials::memory::MOST;

// How many codewords lie within t, and the distance of the last one found.
#[derive(Clone, Copy)]
pub struct Near {
    pub count: usize,
    pub distance: usize,
}

// t is (n − k − 2) div 2, and 0 where n − k is 1.
pub fn radius(n: usize, k: usize) -> usize
    requires { n ≤ 288 }
    ensures { result ≤ 288 }
{
    n.saturating_sub(k).saturating_sub(2) / 2
}

// At how many places two words differ.
pub fn differ(a: &[u8], b: &[u8]) -> usize {
    a.iter().zip(b).filter(|(x, y)| x != y).count()
}

// The symbol after v, and 0 after the last below q.
fn following(q: usize, v: u8) -> u8 {
    match v.checked_add(1) {
        Some(w) if usize::from(w) < q => w,
        _ => 0,
    }
}

// The next list of symbols below q, the first symbol fastest; all zeros after the last.
pub fn advance(q: usize, list: &mut [u8]) {
    for x in list.iter_mut() {
        *x = following(q, *x);
        if *x != 0 {
            return;
        }
    }
}

// How many codewords there are, q to the power k, where they are at most so many.
pub fn codewords(q: usize, k: usize, most: usize) -> Option<usize>
    ensures { IfSome result (λ words. words ≤ most) }
{
    let words = q.checked_pow(u32::try_from(k).ok()?)?;
    (words <= most).then_some(words)
}

// The codewords within t of a word: their number, and the last of them.
pub fn search(
    code: Parameters,
    xs: &[u8],
    ys: &[u8],
    received: &[u8],
    t: usize,
    words: usize,
    nearest: &mut [u8],
) -> Result<Near, Refusal> {
    let mut function = [0; MOST];
    let mut own = [0; MOST];
    let function = &mut function[..code.k.min(MOST)];
    let own = &mut own[..xs.len().min(MOST)];
    let mut found = Near {
        count: 0,
        distance: 0,
    };
    for _ in 0..words {
        word(code.field, xs, ys, function, own)?;
        let distance = differ(own, received);
        if distance <= t {
            for (to, from) in nearest.iter_mut().zip(&*own) {
                *to = *from;
            }
            found = Near {
                count: found.count.saturating_add(1),
                distance,
            };
        }
        advance(elements(code.field), function);
    }
    Ok(found)
}

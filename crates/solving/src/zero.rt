// Whether L is zero at a point: at the last of k places, these are dependent. L is given by its coefficients, or by its values at points.
ghost use Rattle.std.specs.Prelude.{◌≡◌, cond, ◌<◌, eqb, length, take, get_or};
ghost use Rattle.field.specs.Galois.{galois};
ghost use Rattle.elliptic.specs.Pair.{evaluate};
ghost use Rattle.engine.specs.Arrays.{Room};
ghost use Rattle.engine.specs.Places.{point_of, IsPlace};

use basics::{MessageIndex, Place};
use engine::pair::Sizes;
use engine::places::point_at;
use field::Field;
use interpolation::interpolate::low_at;

// L, by its coefficients, is zero at the place.
pub fn zero_at(
    field: &Field,
    xs: &[u8],
    ys: &[u8],
    place: Place,
    l: &[u8],
    u: &[u8],
    n: Sizes,
) -> bool
    requires place { IsPlace xs.now ys.now place.0 × Room l.now u.now n }
    ensures { result ≡ eqb (evaluate (galois field.now.number) (take n.low (cond n.turned u.now l.now)) (point_of xs.now ys.now place.0)) 0 }
{
    let p = point_at(xs, ys, place);
    low_at(field, p, l, u, n) == 0
}

// The value of L with index j is zero.
fn zero_value(j: usize, l: &[u8], u: &[u8], n: Sizes) -> bool
    requires { (j < length l.now) × (j < length u.now) }
    ensures { result ≡ eqb (get_or (cond n.turned u.now l.now) j 0) 0 }
{
    let turned = n.turned;
    if turned {
        return u[j] == 0;
    }
    l[j] == 0
}

// L, by its values at the chosen points, is zero at the one of the message index.
pub fn zero_chosen(index: MessageIndex, l: &[u8], u: &[u8], n: Sizes) -> bool
    requires { (index.0 < length l.now) × (index.0 < length u.now) }
    ensures { result ≡ eqb (get_or (cond n.turned u.now l.now) index.0 0) 0 }
{
    zero_value(index.0, l, u, n)
}

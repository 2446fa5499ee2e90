// E of a row, by its first coefficients in front of an array; those behind them are zero, whatever the array holds there.
ghost use Rattle.std.specs.Prelude.{◌≡◌, ◌+◌, ◌<◌, ◌≤◌, length};
ghost use Rattle.locator.specs.Arrays.{longer, shorter, Widened, MixesDen, LiftsDen};

use engine::slices::{add_scaled, clear, times_linear};
use field::Field;

// The lesser of two numbers.
fn shorter(a: usize, b: usize) -> usize
    ensures { result ≡ shorter a b }
{
    if a < b { a } else { b }
}

// Zeros behind the first s coefficients, so that there are as many as `wide` of them; how many there are now.
fn widen(s: usize, wide: usize, row: &mut [u8]) -> usize
    requires { wide ≤ length row.old }
    ensures { (result ≡ longer s wide) × Widened s result row.old row.new }
{
    if wide <= s {
        return s;
    }
    clear(&mut row[s..wide]);
    wide
}

// The row of s coefficients gains a multiple of the row p, which has sp; how many it has then.
pub fn mix_den(field: &Field, t: u8, sp: usize, p: &[u8], s: usize, row: &mut [u8]) -> usize
    requires sp_in_bounds { (sp ≤ length p.now) × (sp ≤ length row.old) × (s ≤ length row.old) }
    ensures { MixesDen field.now.number t sp p.now s result row.old row.new }
{
    let r = widen(s, sp, row);
    add_scaled(field, t, &p[..sp], row);
    r
}

// The row of s coefficients becomes (X + α) times it, as far as there is room; how many it has then.
pub fn lift_den(field: &Field, alpha: u8, room: usize, s: usize, row: &mut [u8]) -> usize
    requires room_nonzero { (0 < room) × (room ≤ 288) × (s ≤ room) × (shorter (s + 2) room ≤ length row.old) }
    ensures { LiftsDen field.now.number alpha room s result row.old row.new }
{
    if s == 0 {
        return 0;
    }
    let wide = shorter(s + 2, room);
    let r = widen(s, wide, row);
    times_linear(field, alpha, &mut row[..r]);
    r
}

// One pass over the places for 128 multiples of a row.
ghost use Rattle.std.specs.Prelude.{◌≡◌, ◌≤◌, cond, length, replicate};
ghost use Rattle.field.specs.Tables.{IsLog};
ghost use Rattle.tries.specs.Gathered.{Room, Saved, GatheredWith};

use field::Field;

// A trust where the test holds, or else 0, with no branch.
fn trust_if(holds: bool, t: u8) -> u32
    ensures { (result ≡ cond holds t 0) × (result ≤ 255) }
{
    u32::from(t) * u32::from(holds)
}

// The trust of a place is added at the multiple that puts it right, if that has a slot in this half. Where the row is 0 the quotient is 0, which is no try.
fn save(field: &Field, t: u8, r: u8, x: u8, half: u8, slots: &mut [u32; 128])
    requires slots_len { (length slots.old ≡ 128) × Room slots.old 73440 }
    ensures { Saved field.now.number t r x half slots.old slots.new }
{
    let e = field.quotient(x, r);
    let j = usize::from(e % 128);
    slots[j] += trust_if(e / 128 == half, t);
}

// What all places cost for every multiple of the row (a place its trust, unless the row and the difference are both 0 there), and in the slots, which are
// clear, what each multiple of this half saves. The difference is with the multiple of the row `late` whose factor has the logarithm log.
pub fn gather(
    field: &Field,
    trusts: &[u8],
    difference: &[u8],
    log: u16,
    late: &[u8],
    row: &[u8],
    half: u8,
    slots: &mut [u32; 128],
) -> u32
    requires is_log { IsLog field.now.number log }
    requires difference_len { (length difference.now ≡ length trusts.now) × (length late.now ≡ length trusts.now)
        × (length row.now ≡ length trusts.now) × (length trusts.now ≤ 288) × (slots.old ≡ replicate 128 0) }
    ensures { GatheredWith field.now.number half log trusts.now row.now late.now difference.now result slots.new }
{
    let mut cost: u32 = 0;
    for i in 0..trusts.len() {
        let t = trusts[i];
        let r = row[i];
        let x = difference[i] ^ field.product_by_log(log, late[i]);
        cost += trust_if((r | x) != 0, t);
        save(field, t, r, x, half, slots);
    }
    cost
}

// Known cases of hourly means and of their packing.
ghost use Rattle.std.specs.Prelude.{◌≤◌};

use basics::number;
use blocks::packing::{pack, unpack};
use hours::means::means;
use trials::eighty::{Eighty, code, eighty_points};
use trials::tally::Tally;

// The mean of an hour with N readings, of which one is the sum and the others are 0; the stamps name the ends of its first minutes.
fn mean_of<const N: usize>(t: &mut Tally, sum: i16, mean: i16)
    requires { N ≤ 60 }
{
    let mut stamps = [0; N];
    let mut readings = [0; N];
    for (stamp, minute) in stamps.iter_mut().zip(1..=60) {
        *stamp = minute;
    }
    if let Some(first) = readings.first_mut() {
        *first = sum;
    }
    let mut out = [9];
    let answer = means(&stamps, &readings, 0, &mut out);
    t.compared(answer.is_ok() && out == [mean]);
}

// Halves go away from zero; 45 readings are enough, 44 are not.
pub fn known_means() -> Tally {
    let mut t = Tally::default();
    mean_of::<60>(&mut t, 30, 1);
    mean_of::<60>(&mut t, 29, 0);
    mean_of::<60>(&mut t, -30, -1);
    mean_of::<44>(&mut t, 90, 32767);
    mean_of::<45>(&mut t, 90, 2);
    t
}

// One reading at a stamp, in N hours from a first one on.
fn one_stamp<const N: usize>(t: &mut Tally, stamp: u32, first: u32, expected: Result<(), u8>)
    requires { N ≤ 153 }
{
    let mut out = [9; N];
    t.compared(means(&[stamp], &[0], first, &mut out).map_err(number) == expected);
}

// Stamps at the ends of hours: 0 is in none, 60 in the first, 61 in the second; and in 153 hours from the greatest first hour on.
pub fn known_stamps() -> Tally {
    let mut t = Tally::default();
    let refused = Err(19);
    one_stamp::<1>(&mut t, 0, 0, refused);
    one_stamp::<1>(&mut t, 1, 0, Ok(()));
    one_stamp::<1>(&mut t, 60, 0, Ok(()));
    one_stamp::<1>(&mut t, 61, 0, refused);
    one_stamp::<1>(&mut t, 60, 1, refused);
    one_stamp::<1>(&mut t, 61, 1, Ok(()));
    one_stamp::<153>(&mut t, 4_260_009_180, 71_000_000, Ok(()));
    one_stamp::<153>(&mut t, 4_260_009_181, 71_000_000, refused);
    t
}

// Over 64 elements with k = 5: the means 0 and 32,767, an absent one, and back.
fn packing(t: &mut Tally, points: &Eighty) {
    let mut block = [0; 5];
    let packed = pack(code(5), &points.xs, &points.ys, &[0, 32767], &mut block);
    t.compared(packed.is_ok() && block == [3, 58, 7, 63, 63]);
    let mut back = [0; 2];
    let opened = unpack(code(5), &points.xs, &points.ys, &block, &mut back);
    t.compared(opened.is_ok() && back == [0, 32767]);
}

// At the 80 points of the curve.
pub fn known_packing() -> Tally {
    let mut t = Tally::default();
    let points = eighty_points();
    t.compared(points.is_ok_and(|p| p.count == 80));
    if let Ok(points) = points {
        packing(&mut t, &points);
    }
    t
}

// The calls that keep a state in 64 lent bytes.
ghost use Rattle.std.specs.Prelude.{◌≡◌, length};
ghost use Rattle.basics.specs.Outcome.{Meets, answer_of};
ghost use Rattle.rolling.specs.Bytes.{fresh_outcome, rolling_outcome};

use crate::bytes::{load, store};
use crate::state::fresh;
use crate::step::step;
use basics::Refusal;

// The fresh state.
pub fn rolling_fresh(out: &mut [u8]) -> Result<(), Refusal>
    ensures { Meets (fresh_outcome out.old) (answer_of result) out.old out.new }
{
    if out.len() != 64 {
        return Err(Refusal::Length);
    }
    store(fresh(), out);
    Ok(())
}

// The next hour: its rolling mean, and the state behind it in place of the one before.
pub fn rolling(state: &mut [u8], hour: u32, mean: i16, out: &mut [i16]) -> Result<(), Refusal>
    ensures { Meets (rolling_outcome state.old hour mean out.old) (answer_of result) (state.old, out.old) (state.new, out.new) }
{
    if state.len() != 64 {
        return Err(Refusal::Length);
    }
    if out.len() != 1 {
        return Err(Refusal::Length);
    }
    let stepped = step(load(state), hour, mean)?;
    store(stepped.state, state);
    out[0] = stepped.mean;
    Ok(())
}

// One hour: tests, the state one hour further, and the rolling mean.
ghost use Rattle.basics.specs.Outcome.{Done, Meets, answer_by};
ghost use Rattle.hours.specs.Means.{absent};
ghost use Rattle.rolling.specs.State.{step_outcome};
ghost use Rattle.rolling.specs.Steps.{left_by};

use crate::mean::rolling_mean;
use crate::state::{RollingState, advance, is_next, is_possible};
use basics::Refusal;
use hours::packing::is_valid;

// The state one hour further, and the rolling mean.
#[derive(Clone, Copy)]
pub struct Stepped {
    pub state: RollingState,
    pub mean: i16,
}

pub fn step(state: RollingState, hour: u32, mean: i16) -> Result<Stepped, Refusal>
    ensures { Meets (step_outcome state hour mean) (answer_by (λ _. Done) result) (state, absent) (left_by state result) }
{
    if !is_valid(mean) {
        return Err(Refusal::Reading);
    }
    if !is_possible(state) {
        return Err(Refusal::NoRun);
    }
    if !is_next(state.next, hour) {
        return Err(Refusal::NoRun);
    }
    let new = advance(state, hour, mean);
    Ok(Stepped {
        state: new,
        mean: rolling_mean(&new.codes),
    })
}

// What the second coder finds of places and their symbols.
ghost use Rattle.std.specs.Prelude.{◌≤◌, length};

use crate::memory::MOST;
use basics::Refusal;
use elimination::coder::{ROOM, eliminate, solution, word};
use elimination::equations::Added;

#[derive(Clone, Copy)]
pub struct Found {
    // How many of the equations are independent.
    pub rank: usize,
    // How many contradict those before them.
    pub contradictions: usize,
}

fn count(marks: &[Added], added: Added) -> usize {
    marks.iter().filter(|mark| **mark == added).count()
}

// The equations of the places and symbols, marks for each of them, the function that they give, and its word. A free coefficient is 1.
pub fn find(
    m: u8,
    xs: &[u8],
    ys: &[u8],
    places: &[u16],
    symbols: &[u8],
    marks: &mut [Added],
    rows: &mut [u8],
    function: &mut [u8],
    out: &mut [u8],
) -> Result<Found, Refusal> {
    eliminate(m, function.len(), xs, ys, places, symbols, rows, marks)?;
    solution(m, rows, true, function)?;
    word(m, xs, ys, function, out)?;
    Ok(Found {
        rank: count(marks, Added::New),
        contradictions: count(marks, Added::Contradiction),
    })
}

// The word alone, of k symbols at k places.
pub fn word_of(
    m: u8,
    xs: &[u8],
    ys: &[u8],
    places: &[u16],
    symbols: &[u8],
    out: &mut [u8],
) -> Result<Found, Refusal>
    requires { length places.now ≤ 288 }
{
    let k = places.len();
    let mut marks = [Added::Implied; MOST];
    let mut function = [0; MOST];
    find(
        m,
        xs,
        ys,
        places,
        symbols,
        &mut marks[..k],
        &mut [0; ROOM],
        &mut function[..k],
        out,
    )
}

// The answer to a sheet: read it, run its job, and write what comes of it.
ghost use Rattle.std.specs.Prelude.{◌≤◌, length};
ghost use Rattle.basics.specs.Outcome.{count_of};
ghost use Rattle.sheet.specs.Job.{answer_text, answer_to, job_outcome, room, Answers};
ghost use Rattle.sheet.specs.Running.{job_of};
ghost use Rattle.text.specs.Stages.{Appends};

use crate::job::run;
use crate::writing::{write_accepted, write_refusal};
use basics::Refusal;
use text::sheet::{Head, read_sheet};

// No answer is longer.
const ROOM: usize = 4096;

// Runs a job and writes the answer.
fn answer_job(head: Head, places: &[u16], message: &[u16], out: &mut [u8]) -> usize
    requires { room ≤ length out.old }
    ensures { Appends (answer_text (job_outcome (job_of head places.now message.now))) out.old 0 out.new result × (result ≤ room) }
{
    let mut function = [0u8; 288];
    let mut word = [0u8; 288];
    match run(head, places, message, &mut function, &mut word) {
        Ok(n) => write_accepted(out, &function[..usize::from(head.k)], &word[..n]),
        Err(refusal) => write_refusal(out, refusal),
    }
}

// Reads a sheet and answers it.
fn answer_read(s: &[u8], out: &mut [u8]) -> usize
    requires { room ≤ length out.old }
    ensures { Appends (answer_to s.now) out.old 0 out.new result × (result ≤ room) }
{
    let mut places = [0u16; 288];
    let mut message = [0u16; 288];
    let Some(parsed) = read_sheet(s, &mut places, &mut message) else {
        return write_refusal(out, Refusal::SheetShape);
    };
    answer_job(
        parsed.head,
        &places[..parsed.places],
        &message[..parsed.symbols],
        out,
    )
}

// The answer to any bytes, at the front of a buffer of at least 4,096 bytes, and its length.
pub fn answer_sheet(s: &[u8], out: &mut [u8]) -> Result<usize, Refusal>
    ensures { Answers s.now out.old (count_of result) out.new }
{
    if out.len() < ROOM {
        return Err(Refusal::Length);
    }
    Ok(answer_read(s, out))
}

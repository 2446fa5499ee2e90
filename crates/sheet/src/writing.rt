// Writing the answer.
#![tactic(auto, using(text::proofs::Appending::line_few))]

ghost use Rattle.std.specs.Prelude.{◌≤◌, length};
ghost use Rattle.basics.specs.Outcome.{refused};
ghost use Rattle.text.specs.Stages.{Appends};
ghost use Rattle.sheet.specs.Job.{accepting, answer_text, room};

use basics::{Refusal, number};
use text::writing::put_line;

// The answer of a refusal.
pub fn write_refusal(out: &mut [u8], refusal: Refusal) -> usize
    requires { room ≤ length out.old }
    ensures { Appends (answer_text (refused refusal)) out.old 0 out.new result }
{
    let answer = [number(refusal)];
    put_line(out, 0, b"answer=", &answer)
}

// The answer of acceptance.
pub fn write_accepted(out: &mut [u8], function: &[u8], word: &[u8]) -> usize
    requires { (room ≤ length out.old) × (length function.now ≤ 288) × (length word.now ≤ 288) }
    ensures { Appends (accepting function.now word.now) out.old 0 out.new result }
{
    let answer = [0u8];
    let first = put_line(out, 0, b"answer=", &answer);
    let second = put_line(out, first, b"function=", function);
    put_line(out, second, b"word=", word)
}

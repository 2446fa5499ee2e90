// The job sheet program: a sheet from standard input, its answer to standard output. All that matters is in the crate sheet.
#![tactic(auto)]

use sheet::answer::answer_sheet;

// The standard streams.
const STDIN: i32 = 0;

const STDOUT: i32 = 1;

fn main() {
    // One byte more than a sheet may have, so that a longer one is seen to be too long.
    let mut text = [0u8; 4097];
    let mut out = io::buffer();
    let count = io::read_full(STDIN, &mut text);
    let answer = answer_sheet(&text[..count], &mut out);
    if let Ok(n) = answer
        && let Some(written) = out.get(..n)
    {
        io::write_all(STDOUT, written);
    }
}

// What was compared in a group, and how much of it differs.

use basics::{Refusal, number};

// The standard output.
const STDOUT: i32 = 1;

#[derive(Clone, Copy, Default)]
pub struct Tally {
    pub codes: u64,
    pub choices: u64,
    pub dependent: u64,
    pub compared: u64,
    pub differences: u64,
}

// One more where the test holds; no group counts as far as the bound.
pub fn counted(n: u64, test: bool) -> u64 {
    n.saturating_add(u64::from(test))
}

impl Tally {
    // One more comparison.
    pub fn compared(&mut self, same: bool) {
        self.compared = counted(self.compared, true);
        self.differences = counted(self.differences, !same);
    }

    // One more choice of k places.
    pub fn chosen(&mut self, dependent: bool) {
        self.choices = counted(self.choices, true);
        self.dependent = counted(self.dependent, dependent);
    }

    // One more code.
    pub fn coded(&mut self) {
        self.codes = counted(self.codes, true);
    }
}

pub fn write(text: &[u8]) {
    io::write_all(STDOUT, text);
}

pub fn show(text: &[u8], n: u64) {
    write(text);
    io::print_decimal(STDOUT, n);
}

// The end of a program: nothing should have been refused, and a refusal shows.
pub fn finish(ran: Result<(), Refusal>) {
    if let Err(refusal) = ran {
        show(b"refused by number ", u64::from(number(refusal)));
        write(b"\n");
    }
}

// The end of a group's line.
pub fn close(t: Tally) {
    show(b", ", t.compared);
    show(b" comparisons, ", t.differences);
    write(b" differences\n");
}

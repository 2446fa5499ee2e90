// What every operation answers, and the two numberings that may not be taken for one another.
#![tactic(auto)]

ghost use Rattle.std.specs.Prelude.{◌≡◌, ◌≤◌, IfOk};
ghost use Rattle.basics.specs.Outcome.{number, status, answer_of, count_of};

// Why an operation refuses: one case for each number of documents 01 and 02.
#[derive(Clone, Copy, PartialEq, Eq, Debug)]
pub enum Refusal {
    FieldNumber = 1,
    CurveCoefficient = 2,
    Singular = 3,
    PointCount = 4,
    OffCurve = 5,
    RepeatedPoint = 6,
    Dimension = 7,
    Length = 8,
    Place = 9,
    RepeatedPlace = 10,
    Symbol = 11,
    Dependent = 12,
    TooFew = 13,
    NoCodeword = 14,
    Independent = 15,
    Reading = 16,
    NeverPacked = 17,
    StampOrder = 18,
    Hour = 19,
    SheetShape = 20,
    TooFar = 21,
    NoRun = 22,
    Budget = 23,
}

// A place of a codeword: 1 to n.
#[derive(Clone, Copy)]
pub struct Place(pub u16);

// An index into a message: the symbol at index i belongs to the i-th chosen place.
#[derive(Clone, Copy)]
pub struct MessageIndex(pub usize);

// The number that documents 01 and 02 give a refusal.
pub fn number(refusal: Refusal) -> u8
    ensures { result ≡ number refusal }
{
    refusal as u8
}

// A count or the refusal, as one signed number: a refusal is minus its number.
pub fn count_status(answer: Result<usize, Refusal>) -> i32
    requires { IfOk answer (λ n. n ≤ 65535) }
    ensures { result ≡ status (count_of answer) }
{
    match answer {
        Ok(count) => count as i32,
        Err(refusal) => -i32::from(number(refusal)),
    }
}

// The same of an operation that counts nothing: 0 where it accepts.
pub fn status(answer: Result<(), Refusal>) -> i32
    ensures { result ≡ status (answer_of answer) }
{
    count_status(answer.map(|()| 0))
}

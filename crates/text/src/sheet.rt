// The numbers of a sheet: the first three lines by value, the two lists in lent memory.
ghost use Rattle.std.specs.Prelude.{◌≡◌, length, drop};
ghost use Rattle.text.specs.Reading.{header, lists, sheet};
ghost use Rattle.text.specs.Stages.{header_in, Parses};

use crate::reading::{read_exactly, read_line};

// The longest sheet.
const MOST: usize = 4096;

// The first three lines, as they stand.
#[derive(Clone, Copy)]
pub struct Head {
    pub field: u16,
    pub g1: u16,
    pub g2: u16,
    pub g3: u16,
    pub g4: u16,
    pub g6: u16,
    pub k: u16,
}

// The first three lines, and the position behind them.
#[derive(Clone, Copy)]
pub struct Header {
    pub head: Head,
    pub next: usize,
}

// A sheet: the first three lines, and how many places and symbols there are.
#[derive(Clone, Copy)]
pub struct Parsed {
    pub head: Head,
    pub places: usize,
    pub symbols: usize,
}

// Field, curve and dimension.
fn read_header(s: &[u8]) -> Option<Header>
    ensures { header_in s.now result ≡ header s.now }
{
    let mut field = [0u16; 1];
    let mut curve = [0u16; 5];
    let mut dimension = [0u16; 1];
    let second = read_exactly(s, 0, b"field=", &mut field)?;
    let third = read_exactly(s, second, b"curve=", &mut curve)?;
    let next = read_exactly(s, third, b"dimension=", &mut dimension)?;
    let head = Head {
        field: field[0],
        g1: curve[0],
        g2: curve[1],
        g3: curve[2],
        g4: curve[3],
        g6: curve[4],
        k: dimension[0],
    };
    Some(Header { head, next })
}

// Places and message, and nothing behind them.
fn read_lists(
    s: &[u8],
    start: usize,
    head: Head,
    places: &mut [u16],
    message: &mut [u16],
) -> Option<Parsed>
    requires { (length places.old ≡ 288) × (length message.old ≡ 288) }
    ensures { Parses places.new message.new result (lists head (drop start s.now)) }
{
    let first = read_line(s, start, b"places=", places)?;
    let second = read_line(s, first.next, b"message=", message)?;
    if second.next < s.len() {
        return None;
    }
    Some(Parsed {
        head,
        places: first.count,
        symbols: second.count,
    })
}

// The five lines, where they are of at most 4,096 bytes.
pub fn read_sheet(s: &[u8], places: &mut [u16], message: &mut [u16]) -> Option<Parsed>
    requires { (length places.old ≡ 288) × (length message.old ≡ 288) }
    ensures { Parses places.new message.new result (sheet s.now) }
{
    if MOST < s.len() {
        return None;
    }
    let top = read_header(s)?;
    read_lists(s, top.next, top.head, places, message)
}

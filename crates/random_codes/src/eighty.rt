// The curve 0,0,1,0,0 over 64 elements, with 80 points and k = 60: a day in a block, and the share of dependent choices.
use basics::{Refusal, number};
use blocks::packing::{pack, unpack};
use coder::pick::pick;
use coder::rebuild::rebuild;
use coder::systematic_word::systematic_word;
use comparisons::trial::try_places;
use trials::choose::at_random;
use trials::eighty::{Eighty, code, eighty_points};
use trials::lists::{ascending, gather};
use trials::memory::{SEED, WORKING};
use trials::second::word_of;
use trials::tally::{Tally, close, show, write};

const K: usize = 60;

// Means of a day: the smallest, the largest, an absent one, and others.
const MEANS: [i16; 24] = [
    -2000, 20000, 32767, 0, 1, -1, 7350, 7351, 7349, 32767, 32767, 12, -13, 255, 256, 4095, 4096,
    9999, 10000, 19999, -1999, 8191, 8192, 16384,
];

// A day's block, the places that it is coded at, and its word.
#[derive(Clone, Copy)]
struct Day {
    chosen: [u16; 60],
    block: [u8; 60],
    word: [u8; 80],
}

// The means of the day are packed, and coded at the places that Pick takes of all.
fn code_day(p: &Eighty) -> Result<Day, Refusal> {
    let mut ranked = [0; 80];
    let mut chosen = [0; K];
    let mut block = [0; K];
    let mut word = [0; 80];
    let work = &mut [0; WORKING];
    ascending(&mut ranked);
    pack(code(K), &p.xs, &p.ys, &MEANS, &mut block)?;
    pick(code(K), &p.xs, &p.ys, &ranked, &mut chosen, work)?;
    systematic_word(code(K), &p.xs, &p.ys, &chosen, &block, &mut word, work)?;
    Ok(Day {
        chosen,
        block,
        word,
    })
}

// The place that is sent in a slot: steps of 3, so that an arc leaves no 30 whole pairs of opposite points.
fn sent(slot: usize) -> u16 {
    (slot % 80 * 3 % 80 + 1) as u16
}

// A word of which the 20 slots before `slot` are lost: rebuilt, and the day unpacked from the places that it was put at.
fn lose_arc(t: &mut Tally, p: &Eighty, slot: usize, day: &Day) {
    let mut heard = [0; 60];
    for (i, place) in heard.iter_mut().enumerate() {
        *place = sent(slot % 80 + i);
    }
    let mut received = [0; 60];
    gather(&day.word, &heard, &mut received);
    let mut word = [0; 80];
    let work = &mut [0; WORKING];
    let answer = rebuild(code(K), &p.xs, &p.ys, &heard, &received, &mut word, work);
    t.compared(answer.is_ok() && word == day.word);
    let mut block = [0; K];
    let mut means = [0; 24];
    gather(&word, &day.chosen, &mut block);
    let opened = unpack(code(K), &p.xs, &p.ys, &block, &mut means);
    t.compared(opened.is_ok() && means == MEANS);
}

// Neither 23 nor 25 hours fill a block.
fn other_hours(t: &mut Tally, p: &Eighty) {
    let few = pack(code(K), &p.xs, &p.ys, &[0; 23], &mut [0; K]);
    let many = pack(code(K), &p.xs, &p.ys, &[0; 25], &mut [0; K]);
    t.compared(few.map_err(number) == Err(8) && many.map_err(number) == Err(8));
}

// The day's word, beside the second coder's.
fn beside(t: &mut Tally, p: &Eighty, day: &Day) {
    let mut second = [0; 80];
    let found = word_of(6, &p.xs, &p.ys, &day.chosen, &day.block, &mut second);
    t.compared(found.is_ok_and(|f| f.rank == K));
    t.compared(day.word == second);
}

// Every arc of 20 slots.
fn lose_arcs(t: &mut Tally, p: &Eighty, day: &Day) {
    for slot in 0..80 {
        lose_arc(t, p, slot, day);
    }
}

fn day_word(p: &Eighty) -> Tally {
    let mut t = Tally::default();
    let day = code_day(p);
    t.compared(day.is_ok());
    if let Ok(day) = day {
        beside(&mut t, p, &day);
    }
    t
}

fn days(p: &Eighty) -> Tally {
    let mut t = Tally::default();
    let day = code_day(p);
    t.compared(day.is_ok());
    other_hours(&mut t, p);
    if let Ok(day) = day {
        lose_arcs(&mut t, p, &day);
    }
    t
}

// Whether a random choice is dependent, by Pick.
fn is_dependent(state: &mut u64, p: &Eighty) -> bool {
    let mut chosen = [0; K];
    at_random(state, 80, &mut chosen);
    let work = &mut [0; WORKING];
    pick(code(K), &p.xs, &p.ys, &chosen, &mut [0; K], work).map_err(number) == Err(12)
}

// How many of 100,000 random choices are dependent.
fn share(p: &Eighty) -> usize {
    let mut state = SEED;
    (0..100_000).filter(|_| is_dependent(&mut state, p)).count()
}

// 1,000 random choices beside the second coder.
fn choices(p: &Eighty) -> Tally {
    let mut state = SEED + 1;
    let mut t = Tally::default();
    for _ in 0..1000 {
        try_places(&mut t, &mut state, code(K), &p.xs, &p.ys, K, None);
    }
    t
}

fn choices_line(t: Tally) {
    show(b"80 points, k = 60: ", t.choices);
    show(b" choices, ", t.dependent);
    write(b" dependent");
    close(t);
}

fn share_line(n: usize) {
    show(b"80 points, k = 60: ", n as u64);
    write(b" of 100000 choices dependent, about one in 81: ");
    if 1_100 <= n && n <= 1_380 {
        write(b"yes\n")
    } else {
        write(b"no\n")
    }
}

pub fn eighty() -> Result<(), Refusal> {
    let p = eighty_points()?;
    show(b"m = 6, curve 0,0,1,0,0: points ", p.count as u64);
    write(b"\n");
    write(b"80 points, the word of a day of 24 hours");
    close(day_word(&p));
    write(b"80 points, a day of 24 hours, 80 arcs of 20 slots lost");
    close(days(&p));
    choices_line(choices(&p));
    share_line(share(&p));
    Ok(())
}

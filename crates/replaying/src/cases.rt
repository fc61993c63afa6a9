// A line as a case. Its numbers go into `numbers`, the arguments first. The bytes of a word that starts with x go into
// `store`; among the numbers stand the place where they begin there and the place where they end.
ghost use Rattle.std.specs.Prelude.{◌≡◌, ◌≤◌, length, replicate};

use crate::report::{COMMENT, UNREAD};
use crate::{parts, text};

// The place of the name among the names; how many numbers there are, and how many of them are arguments.
#[derive(Clone, Copy)]
pub struct Case {
    pub place: usize,
    pub count: usize,
    pub split: usize,
}

// What is being read: nothing between two words, a number of so many digits so far, a word that stands for no number (the name,
// or what starts with an equals sign), and bytes, before the first and before the second digit of one. What is bad stays so.
#[derive(Clone, Copy)]
enum State {
    Between,
    Number(usize),
    Silent,
    Bytes,
    Half,
    Bad,
}

// The most digits of a number.
const LONGEST: usize = 16;

// What a byte means: a digit by what it counts.
#[derive(Clone, Copy)]
enum Meaning {
    Digit(u8),
    Blank,
    Sign,
    X,
    Other,
}

fn meaning_of(b: u8) -> Meaning {
    match b {
        b'0'..=b'9' => Meaning::Digit(b - b'0'),
        b'a'..=b'f' => Meaning::Digit(b - 87),
        b' ' => Meaning::Blank,
        b'=' => Meaning::Sign,
        b'x' => Meaning::X,
        _ => Meaning::Other,
    }
}

// A line as far as it is read: the numbers that are whole, how many bytes are in the store, how many numbers stood before the
// equals sign (0 before it is read: every function has an argument), and what the next number is so far.
#[derive(Clone, Copy)]
struct Reading {
    state: State,
    count: usize,
    used: usize,
    split: usize,
    value: u64,
}

impl Reading {
    fn to(self, state: State) -> Reading {
        Reading { state, ..self }
    }

    // One number more is whole. The next is where the bytes so far end, until a digit of a number comes.
    fn counted(self, state: State) -> Reading {
        Reading {
            state,
            count: std::num::wrapping_add_usize(self.count, 1),
            value: self.used as u64,
            ..self
        }
    }

    fn equals(self) -> Reading {
        if self.split != 0 {
            return self.to(State::Bad);
        }
        Reading {
            split: self.count,
            state: State::Silent,
            ..self
        }
    }

    // A digit: the first byte of a number, or one more of what has begun.
    fn digit(self, d: u8) -> Reading {
        match self.state {
            State::Number(digits) if digits < LONGEST => Reading {
                value: (self.value << 4) | u64::from(d),
                state: State::Number(digits + 1),
                ..self
            },
            State::Between => Reading {
                value: u64::from(d),
                state: State::Number(1),
                ..self
            },
            State::Silent => self,
            State::Bytes => self.to(State::Half),
            State::Half => {
                let used = std::num::wrapping_add_usize(self.used, 1);
                Reading {
                    used,
                    value: used as u64,
                    state: State::Bytes,
                    ..self
                }
            }
            _ => self.to(State::Bad),
        }
    }

    // The end of a word, if one has begun.
    fn ended(self) -> Reading {
        match self.state {
            State::Between | State::Bad => self,
            State::Silent => self.to(State::Between),
            State::Half => self.to(State::Bad),
            State::Number(_) | State::Bytes => self.counted(State::Between),
        }
    }

    // A blank ends a word, which is not empty.
    fn blank(self) -> Reading {
        match self.state {
            State::Between => self.to(State::Bad),
            _ => self.ended(),
        }
    }

    // What is neither: it may begin a word, as the sign and an x do.
    fn mark(self, m: Meaning) -> Reading {
        match (self.state, m) {
            (State::Between, Meaning::Sign) => self.equals(),
            (State::Between, Meaning::X) => self.counted(State::Bytes),
            (State::Silent, _) => self,
            _ => self.to(State::Bad),
        }
    }

    // The next byte by what it means.
    fn next(self, m: Meaning) -> Reading {
        match m {
            Meaning::Digit(d) => self.digit(d),
            Meaning::Blank => self.blank(),
            _ => self.mark(m),
        }
    }

    // Where a digit goes, if it is one of bytes.
    fn byte_at(self) -> Option<usize> {
        match self.state {
            State::Bytes | State::Half => Some(self.used),
            _ => None,
        }
    }

    // The numbers before the equals sign, 0 where what was read is no case or had no room among so many bytes.
    fn arguments(self, room: usize) -> usize {
        match self.state {
            State::Between if self.used <= room => self.split,
            _ => 0,
        }
    }
}

// What has no room is left out: it is counted all the same, and then there is no case.
fn put_number(numbers: &mut [u64], at: usize, n: u64) {
    if at < numbers.len() {
        numbers[at] = n;
    }
}

// A digit into the byte at a place: two of them are all of it.
fn put_digit(store: &mut [u8], at: usize, d: u8) {
    if at < store.len() {
        store[at] = (store[at] << 4) | d;
    }
}

// One byte of the words. What a word stands for so far is among the numbers before it is counted.
fn step(r: Reading, m: Meaning, numbers: &mut [u64], store: &mut [u8]) -> Reading {
    if let Meaning::Digit(d) = m {
        if let Some(at) = r.byte_at() {
            put_digit(store, at, d);
        }
    }
    let s = r.next(m);
    put_number(numbers, s.count, s.value);
    s
}

// All words of a line, of which the first is the name.
fn words(line: &[u8], numbers: &mut [u64], store: &mut [u8]) -> Reading {
    let mut r = Reading {
        state: State::Silent,
        count: 0,
        used: 0,
        split: 0,
        value: 0,
    };
    for b in line {
        r = step(r, meaning_of(*b), numbers, store);
    }
    r.ended()
}

// The place of a word among names with one blank between; as many as there are names for another word.
fn place(names: &[u8], word: &[u8]) -> usize {
    names
        .split(|b| *b == b' ')
        .take_while(|name| *name != word)
        .count()
}

// A line that is no case has a place of its own and no numbers.
fn no_case(place: usize) -> Case
    ensures { (result.split ≡ 0) × (result.count ≡ 0) }
{
    Case {
        place,
        count: 0,
        split: 0,
    }
}

// Room for a whole input. The contract gives the length too, which lending the array needs.
pub fn room() -> [u8; 1048576]
    ensures { (1048576 ≡ length result) × (result ≡ replicate 1048576 0) }
{
    [0; 1048576]
}

// Whether a line is to be no case.
fn is_comment(line: &[u8]) -> bool {
    line.starts_with(b"#")
}

// A case of the name at a place, where there is room for so many numbers.
fn case_of(place: usize, count: usize, split: usize, room: usize) -> Case
    ensures { (result.split ≤ result.count) × (result.count ≤ room) }
{
    if split == 0 {
        return no_case(UNREAD);
    }
    if count < split {
        return no_case(UNREAD);
    }
    if room < count {
        return no_case(UNREAD);
    }
    Case {
        place,
        count,
        split,
    }
}

// The case of a line. Its numbers are in `numbers`, the arguments before the answers.
pub fn read(names: &[u8], line: &[u8], numbers: &mut [u64], store: &mut [u8]) -> Case
    ensures { (result.split ≤ result.count) × (result.count ≤ length numbers.old) }
{
    if is_comment(line) {
        return no_case(COMMENT);
    }
    let e = text::part_end(line, 0, b' ');
    let k = place(names, parts::bytes(line, 0, e as u64));
    let r = words(line, numbers, store);
    case_of(k, r.count, r.arguments(store.len()), numbers.len())
}

// Replays recorded answers about descriptors and names: reads cases on standard input, one a line, calls the functions
// named there, and prints for each how many cases agree, and of how many. The crate `replaying` says what a case looks
// like; the input's first lines say what each function's arguments and answers are.
#![tactic(auto)]

mod cutting;
mod reading;
mod writing;

use replaying::answers::Verdict;
use replaying::cases::Case;
use replaying::run::{Outcome, replay};
use replaying::{cases, parts};
use std::io;

const NAMES: [u8; 61] = *b"d_type d_strict d_method m_strict w_type w_method lookup utf8";

// The function at a place of the names, on its arguments and the answers recorded. Bytes among them are places in `store`.
fn call(place: usize, store: &[u8], a: &[u64], r: &[u64]) -> Verdict {
    match place {
        0 => reading::of_type(false, store, a, r),
        1 => reading::of_type(true, store, a, r),
        2 => reading::of_method(false, store, a, r),
        3 => reading::of_method(true, store, a, r),
        4 => writing::of_type(store, a, r),
        5 => writing::of_method(store, a, r),
        6 => writing::lookup(store, a, r),
        7 => reading::utf8(store, a, r),
        _ => Verdict::Unread,
    }
}

fn judge(c: Case, store: &[u8], numbers: &[u64]) -> Verdict {
    call(
        c.place,
        store,
        parts::numbers(numbers, 0, c.split),
        parts::numbers(numbers, c.split, c.count),
    )
}

fn one_line(line: &[u8]) -> Outcome {
    let mut numbers = [0u64; 512];
    let mut store = [0u8; 1024];
    let c = cases::read(&NAMES, line, &mut numbers, &mut store);
    Outcome {
        place: c.place,
        verdict: judge(c, &store, &numbers),
    }
}

fn main(rt: HostRuntime) -> io::Result<()> {
    replay(
        &mut rt.stdin(),
        &mut rt.stdout(),
        &mut cases::room(),
        &NAMES,
        one_line,
    )
}

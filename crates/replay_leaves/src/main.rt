// Replays recorded answers about types, sets and sorted entries: reads cases on standard input, one a line, calls the
// functions named there, and prints for each how many cases agree, and of how many. The crate `replaying` says what a case
// looks like; the input's first lines say what each function's arguments and answers are.
#![tactic(auto)]

mod on_entries;
mod on_sets;
mod on_types;

use replaying::answers::Verdict;
use replaying::cases::Case;
use replaying::run::{Outcome, replay};
use replaying::{cases, parts};
use std::io;

const NAMES: [u8; 50] = *b"pairs order legal edits word hint set sets put run";

// The function at a place of the names, on its arguments and the answers recorded.
fn call(place: usize, a: &[u64], r: &[u64]) -> Verdict {
    match place {
        0 => on_types::pairs(a, r),
        1 => on_types::order(a, r),
        2 => on_types::legal(a, r),
        3 => on_types::edits(a, r),
        4 => on_types::word(a, r),
        5 => on_types::hint(a, r),
        6 => on_sets::one(a, r),
        7 => on_sets::two(a, r),
        8 => on_entries::put(a, r),
        9 => on_entries::run(a, r),
        _ => Verdict::Unread,
    }
}

fn judge(c: Case, numbers: &[u64]) -> Verdict {
    call(
        c.place,
        parts::numbers(numbers, 0, c.split),
        parts::numbers(numbers, c.split, c.count),
    )
}

fn one_line(line: &[u8]) -> Outcome {
    let mut numbers = [0u64; 512];
    let mut bytes = [0u8; 16];
    let c = cases::read(&NAMES, line, &mut numbers, &mut bytes);
    Outcome {
        place: c.place,
        verdict: judge(c, &numbers),
    }
}

fn main(rt: HostRuntime) -> io::Result<()> {
    replay(
        &mut rt.stdin(),
        &mut rt.stdout(),
        &mut cases::room(),
        &NAMES,
        one_line,
    )
}

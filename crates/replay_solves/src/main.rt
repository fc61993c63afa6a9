// Replays recorded solves: reads cases on standard input, one a line, calls the solve of the boundary, and prints for each kind
// of line how many cases agree, and of how many. The crate `replaying` says what a case looks like; the input's first lines
// say what stands in a line. A line `table` holds the table that the problems after it are over. The slices that are lent are
// full of a pattern, and what a solve must leave alone is looked at too.
#![tactic(auto)]

mod calling;
mod cutting;
mod judging;

use replaying::answers::Verdict;
use replaying::cases::Case;
use replaying::run::{Outcome, replay};
use replaying::{cases, parts};
use std::io;

// The points o52 to o71 are those of docs/DECISIONS.md.
const NAMES: [u8; 99] =
    *b"table o52 o53 o54 o55 o56 o57 o58 o59 o60 o61 o62 o63 o64 o65 o67 o68 o69 o70 o71 solve fault limit";

// Slices just long enough, no component and twelve empty lists: what a new table is asked for.
const NO_PROBLEM: [u64; 18] = [
    0, 4096, 4096, 4096, 8192, 0, 0, 0, 0, 0, 0, 0, 0, 0, 0, 0, 0, 0,
];

fn is_table(line: &[u8]) -> bool {
    line.starts_with(b"t")
}

// The verdict on a case whose numbers are in `numbers`, about the table of the first `held` numbers of `table`.
fn judge(c: Case, numbers: &[u64], held: usize, table: &[u64], store: &[u8]) -> Verdict {
    judging::over(
        parts::numbers(table, 0, held),
        store,
        parts::numbers(numbers, 0, c.split),
        parts::numbers(numbers, c.split, c.count),
    )
}

// The verdict on a table, the arguments of a case.
fn judge_table(c: Case, numbers: &[u64], store: &[u8]) -> Verdict {
    judging::over(
        parts::numbers(numbers, 0, c.split),
        store,
        &NO_PROBLEM,
        parts::numbers(numbers, c.split, c.count),
    )
}

// A new table, of which `held` tells how many numbers it has.
fn new_table(line: &[u8], held: &mut usize, table: &mut [u64], store: &mut [u8]) -> Outcome {
    let c = cases::read(&NAMES, line, table, store);
    *held = c.split;
    Outcome {
        place: c.place,
        verdict: judge_table(c, table, store),
    }
}

// A problem over the table.
fn problem(line: &[u8], held: usize, table: &[u64], store: &[u8]) -> Outcome {
    let mut numbers = [0u64; 1600];
    let mut bytes = [0u8; 16];
    let c = cases::read(&NAMES, line, &mut numbers, &mut bytes);
    Outcome {
        place: c.place,
        verdict: judge(c, &numbers, held, table, store),
    }
}

fn one_line(line: &[u8], held: &mut usize, table: &mut [u64], store: &mut [u8]) -> Outcome {
    if is_table(line) {
        return new_table(line, held, table, store);
    }
    problem(line, *held, table, store)
}

fn main(rt: HostRuntime) -> io::Result<()> {
    let mut held: usize = 0;
    let mut table = [0u64; 1600];
    let mut store = [0u8; 2048];
    replay(
        &mut rt.stdin(),
        &mut rt.stdout(),
        &mut cases::room(),
        &NAMES,
        |line| one_line(line, &mut held, &mut table, &mut store),
    )
}

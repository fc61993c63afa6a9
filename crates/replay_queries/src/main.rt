// Replays recorded answers about class tables and about types over them: reads cases on standard input, one a line, calls
// the functions of the boundary, and prints for each kind of line how many cases agree, and of how many. The crate
// `replaying` says what a case looks like; the input's first lines say what each function's arguments and answers are. A
// line `table` holds the table that the lines after it ask about, and the types that `join` and `assign` ask about; a line
// `t_check` holds the table that it asks about itself.
#![tactic(auto)]

mod calling;
mod cutting;
mod judging;

use replaying::answers::Verdict;
use replaying::cases::Case;
use replaying::run::{Outcome, replay};
use replaying::{cases, parts};
use std::io;

const NAMES: [u8; 40] = *b"table pair ancestors join assign t_check";

fn is_table(line: &[u8]) -> bool {
    line.starts_with(b"t")
}

// The verdict on a case whose numbers are in `numbers`, about the table of the first `held` numbers of `table`.
fn judge(c: Case, numbers: &[u64], held: usize, table: &[u64], store: &[u8]) -> Verdict {
    judging::over(
        c.place,
        parts::numbers(table, 0, held),
        store,
        parts::numbers(numbers, 0, c.split),
        parts::numbers(numbers, c.split, c.count),
    )
}

// A new table, of which `held` tells how many numbers it has.
fn new_table(line: &[u8], held: &mut usize, table: &mut [u64], store: &mut [u8]) -> Outcome {
    let c = cases::read(&NAMES, line, table, store);
    *held = c.split;
    Outcome {
        place: c.place,
        verdict: judge(c, table, c.split, table, store),
    }
}

// A question about the table.
fn query(line: &[u8], held: usize, table: &[u64], store: &[u8]) -> Outcome {
    let mut numbers = [0u64; 256];
    let mut bytes = [0u8; 16];
    let c = cases::read(&NAMES, line, &mut numbers, &mut bytes);
    Outcome {
        place: c.place,
        verdict: judge(c, &numbers, held, table, store),
    }
}

fn one_line(line: &[u8], held: &mut usize, table: &mut [u64], store: &mut [u8]) -> Outcome {
    if is_table(line) {
        return new_table(line, held, table, store);
    }
    query(line, *held, table, store)
}

fn main(rt: HostRuntime) -> io::Result<()> {
    let mut held: usize = 0;
    let mut table = [0u64; 2048];
    let mut store = [0u8; 2048];
    replay(
        &mut rt.stdin(),
        &mut rt.stdout(),
        &mut cases::room(),
        &NAMES,
        |line| one_line(line, &mut held, &mut table, &mut store),
    )
}

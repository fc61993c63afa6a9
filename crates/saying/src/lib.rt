// One line read and answered: its frame against the state, and what it says at the end of a lent buffer.
#![tactic(auto)]

ghost use Rattle.std.specs.Prelude.{◌≡◌, ◌+◌, ◌≤◌, length};
ghost use Rattle.lineout.specs.Printed.{Puts};
ghost use Rattle.framestate.specs.FrameState.{store_of};
ghost use Rattle.solveframe.specs.Parts.{slices_by, slices_left};
ghost use Rattle.stepping.specs.Stepping.{Stands};
ghost use Rattle.saying.specs.Saying.{said_text, Speaks};

use framestate::{Numbers, Said};
use lineout::{put_number, put_refusal, put_variables};
use stepping::frame;

// The most bytes that a line prints: 40 for each of 2,048 variables.
pub const MOST: usize = 81920;

// The numbers of the state after a line, and how many bytes of the buffer wait to be written.
#[derive(Clone, Copy)]
pub struct Spoken {
    pub numbers: Numbers,
    pub filled: usize,
}

// What a frame says, as text.
fn put_said(out: &mut [u8], filled: usize, line: u64, said: Said, answers: &[u64]) -> usize
    requires { (filled + 81920 ≤ length out.old) × (length answers.now ≤ 2048) }
    ensures { Puts (said_text line said answers.now) filled out.old out.new result }
{
    match said {
        Said::Accepted => filled,
        Said::Solved => put_variables(out, filled, answers),
        Said::Related(k) => put_number(out, filled, b'R', k),
        Said::Supertyped(c) => put_number(out, filled, b'L', c),
        Said::Castable(b) => put_number(out, filled, b'C', b),
        Said::Refused(k) => put_refusal(out, filled, line, k),
    }
}

// The line with this number, from 1.
pub fn say_line(
    line: &[u8],
    number: u64,
    last: &mut [u8],
    pairs: &mut [u64],
    marks: &mut [u64],
    rows: &mut [u64],
    answers: &mut [u64],
    out: &mut [u8],
    filled: usize,
    n: Numbers,
) -> Spoken
    requires { Stands last.old pairs.old marks.old rows.old n × (length answers.old ≡ 2048) × (filled + 81920 ≤ length out.old) }
    ensures speaks { Speaks line.now number (store_of (slices_by last pairs marks rows) n) (slices_by last pairs marks rows) (slices_left last pairs marks rows) answers.old answers.new filled out.old out.new result }
    ensures stands { Stands last.new pairs.new marks.new rows.new result.numbers × (result.filled ≤ length out.new) }
{
    let f = frame(line, last, pairs, marks, rows, answers, n);
    let filled = put_said(out, filled, number, f.said, &answers[0..n.variables]);
    Spoken {
        numbers: f.numbers,
        filled,
    }
}

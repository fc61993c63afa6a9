// typeline: reads hex frames on standard input, one a line, and prints what they say. Lines may have any bytes and any length; a state of fixed
// size and one buffer of output are all that it keeps.
#![tactic(auto)]

mod input;
mod output;

ghost use Rattle.std.specs.Prelude.{◌≡◌, ◌≤◌, IfOk, length, OnErr};
ghost use Rattle.typeline.specs.Held.{Holds, StillHolds, empty_layers, empty_numbers, Empty};

use framestate::Numbers;
use layers::{Layer, StackTables};
use saying::say_line;
use sets::Set;
use std::io;
use std::io::{ErrorKind, Read, Write};
use tables::Tables;

// What goes from line to line: the numbers of the state, how many lines are past, how many bytes there are of the line so far, how much of the
// output waits, and whether the input ended.
#[derive(Clone, Copy)]
struct State {
    numbers: Numbers,
    lines: u64,
    used: usize,
    filled: usize,
    ended: bool,
}

impl State {
    fn with_used(self, used: usize) -> State
        requires { used ≤ 1025 }
        ensures { (result.numbers ≡ self.numbers) × (result.used ≡ used) × (result.filled ≡ self.filled) }
    {
        State { used, ..self }
    }

    fn at_end(self) -> State
        ensures { (result.numbers ≡ self.numbers) × (result.used ≡ self.used) × (result.filled ≡ self.filled) }
    {
        State {
            ended: true,
            ..self
        }
    }
}

// One layer without a name or a record.
fn no_layers() -> StackTables
    ensures { result ≡ empty_layers }
{
    let tables = Tables {
        names: 0,
        bytes: 0,
        object: u64::MAX,
        cloneable: u64::MAX,
        serializable: u64::MAX,
        pairs: 0,
    };
    let layer = Layer {
        own: Set::empty(),
        keys: 0,
    };
    StackTables {
        tables,
        layer,
        under: 0,
    }
}

// No name, no row, nothing accepted.
fn no_numbers() -> Numbers
    ensures { Empty result }
{
    Numbers {
        stack: no_layers(),
        last: 0,
        components: 0,
        variables: 0,
        bounds: 0,
        flows: 0,
        uppers: 0,
        reads: 0,
        writes: 0,
        rank: 0,
    }
}

// A whole line: it is answered, and the output goes out where little room is left.
fn whole(
    output: &mut impl Write,
    s: State,
    line: &[u8],
    last: &mut [u8],
    pairs: &mut [u64],
    marks: &mut [u64],
    rows: &mut [u64],
    answers: &mut [u64],
    out: &mut [u8],
) -> io::Result<State>
    requires { Holds last.old pairs.old marks.old rows.old answers.old out.old s.numbers s.filled }
    ensures ok { IfOk result (λ t. Holds last.new pairs.new marks.new rows.new answers.new out.new t.numbers t.filled × (t.used ≡ 0)) }
    ensures err { OnErr result (StillHolds last.new pairs.new marks.new rows.new answers.new out.new) }
{
    let number = std::num::wrapping_add_u64(s.lines, 1);
    let spoken = say_line(
        line, number, last, pairs, marks, rows, answers, out, s.filled, s.numbers,
    );
    let filled = output::room(output, out, spoken.filled)?;
    Ok(State {
        numbers: spoken.numbers,
        lines: number,
        used: 0,
        filled,
        ended: s.ended,
    })
}

// A piece of a line, the last one if the line is whole with it. A line past 1,025 bytes is cut there: it is refused whatever follows.
fn piece(
    output: &mut impl Write,
    s: State,
    part: &[u8],
    is_whole: bool,
    line: &mut [u8],
    last: &mut [u8],
    pairs: &mut [u64],
    marks: &mut [u64],
    rows: &mut [u64],
    answers: &mut [u64],
    out: &mut [u8],
) -> io::Result<State>
    requires { Holds last.old pairs.old marks.old rows.old answers.old out.old s.numbers s.filled × (length line.old ≡ 1025) × (s.used ≤ 1025) }
    ensures ok { IfOk result (λ t. Holds last.new pairs.new marks.new rows.new answers.new out.new t.numbers t.filled × (t.used ≤ 1025)) }
    ensures err { OnErr result (StillHolds last.new pairs.new marks.new rows.new answers.new out.new) }
{
    let used = input::append(line, s.used, part);
    if is_whole {
        return whole(
            output,
            s,
            &line[0..used],
            last,
            pairs,
            marks,
            rows,
            answers,
            out,
        );
    }
    Ok(s.with_used(used))
}

// All that one read brought.
fn feed(
    output: &mut impl Write,
    s: State,
    chunk: &[u8],
    line: &mut [u8],
    last: &mut [u8],
    pairs: &mut [u64],
    marks: &mut [u64],
    rows: &mut [u64],
    answers: &mut [u64],
    out: &mut [u8],
) -> io::Result<State>
    requires { Holds last.old pairs.old marks.old rows.old answers.old out.old s.numbers s.filled × (length line.old ≡ 1025) × (s.used ≤ 1025) }
    ensures ok { IfOk result (λ t. Holds last.new pairs.new marks.new rows.new answers.new out.new t.numbers t.filled × (t.used ≤ 1025)) }
    ensures err { OnErr result (StillHolds last.new pairs.new marks.new rows.new answers.new out.new) }
{
    let mut t = s;
    let mut i: usize = 0;
    while i < chunk.len() {
        let e = input::line_end(chunk, i);
        let is_whole = e < chunk.len();
        t = piece(
            output,
            t,
            &chunk[i..e],
            is_whole,
            line,
            last,
            pairs,
            marks,
            rows,
            answers,
            out,
        )?;
        i = e + 1;
    }
    Ok(t)
}

// One read.
fn some(
    input: &mut impl Read,
    output: &mut impl Write,
    s: State,
    chunk: &mut [u8],
    line: &mut [u8],
    last: &mut [u8],
    pairs: &mut [u64],
    marks: &mut [u64],
    rows: &mut [u64],
    answers: &mut [u64],
    out: &mut [u8],
) -> io::Result<State>
    requires { Holds last.old pairs.old marks.old rows.old answers.old out.old s.numbers s.filled × (length line.old ≡ 1025) × (s.used ≤ 1025) }
    ensures ok { IfOk result (λ t. Holds last.new pairs.new marks.new rows.new answers.new out.new t.numbers t.filled × (t.used ≤ 1025)) }
    ensures err { OnErr result (StillHolds last.new pairs.new marks.new rows.new answers.new out.new) }
{
    let n = match input.read(chunk) {
        Ok(n) => n,
        Err(e) if e.kind() == ErrorKind::Interrupted => return Ok(s),
        Err(e) => {
            // What was answered is not lost.
            output::flush(output, out, s.filled)?;
            return Err(e);
        }
    };
    if n == 0 {
        return Ok(s.at_end());
    }
    feed(
        output,
        s,
        &chunk[..n],
        line,
        last,
        pairs,
        marks,
        rows,
        answers,
        out,
    )
}

// A last line may lack its LF; then what waits goes out.
fn finish(
    output: &mut impl Write,
    s: State,
    line: &[u8],
    last: &mut [u8],
    pairs: &mut [u64],
    marks: &mut [u64],
    rows: &mut [u64],
    answers: &mut [u64],
    out: &mut [u8],
) -> io::Result<()>
    requires { Holds last.old pairs.old marks.old rows.old answers.old out.old s.numbers s.filled × (length line.now ≡ 1025) × (s.used ≤ 1025) }
{
    if s.used == 0 {
        return output::flush(output, out, s.filled);
    }
    let t = whole(
        output,
        s,
        &line[0..s.used],
        last,
        pairs,
        marks,
        rows,
        answers,
        out,
    )?;
    output::flush(output, out, t.filled)
}

// Reads to the end of the input.
fn run(
    input: &mut impl Read,
    output: &mut impl Write,
    chunk: &mut [u8],
    line: &mut [u8],
    last: &mut [u8],
    pairs: &mut [u64],
    marks: &mut [u64],
    rows: &mut [u64],
    answers: &mut [u64],
    out: &mut [u8],
) -> io::Result<()>
    requires { Holds last.old pairs.old marks.old rows.old answers.old out.old empty_numbers 0 × (length line.old ≡ 1025) }
{
    let numbers = no_numbers();
    let mut s = State {
        numbers,
        lines: 0,
        used: 0,
        filled: 0,
        ended: false,
    };
    'reads: for _ in 0..u64::MAX {
        if s.ended {
            break;
        }
        s = some(
            input, output, s, chunk, line, last, pairs, marks, rows, answers, out,
        )?;
    }
    finish(output, s, line, last, pairs, marks, rows, answers, out)
}

fn main(rt: HostRuntime) -> io::Result<()> {
    let mut chunk = [0u8; 65536];
    let mut line = [0u8; 1025];
    let mut last = [0u8; 255];
    let mut pairs = [0u64; 16384];
    let mut marks = [0u64; 64];
    let mut rows = [0u64; 11264];
    let mut answers = [0u64; 2048];
    let mut out = [0u8; 131072];
    run(
        &mut rt.stdin(),
        &mut rt.stdout(),
        &mut chunk,
        &mut line,
        &mut last,
        &mut pairs,
        &mut marks,
        &mut rows,
        &mut answers,
        &mut out,
    )
}

// What a replaying program does: it reads all of its input, has each line judged, and prints the report.
ghost use Rattle.std.specs.Prelude.{◌≤◌, ℕ, IfOk, length, take};
ghost use Rattle.std.specs.Io.KnownBytes.{Consumes};

use crate::answers::Verdict;
use crate::{input, parts, report, text};
use std::io;
use std::io::{Read, Write};

// What a line came to: the place of its name, and the verdict.
#[derive(Clone, Copy)]
pub struct Outcome {
    pub place: usize,
    pub verdict: Verdict,
}

// Counts what each line comes to. A last line may lack its LF.
fn each_line<F: FnMut(&[u8]) -> Outcome>(input: &[u8], counts: &mut [u64], mut judge: F)
    requires { F.IsAlwaysCallable judge }
{
    let mut i: usize = 0;
    while i < input.len() {
        let e = text::part_end(input, i, b'\n');
        let o = judge(&input[i..e]);
        report::record(counts, o.place, o.verdict);
        i = e + 1;
    }
}

fn print<W: Write>(output: &mut W, names: &[u8], counts: &[u64]) -> io::Result<()> {
    let mut out = [0u8; report::ROOM];
    let n = report::put(names, counts, &mut out);
    output.write_all(parts::bytes(&out, 0, n as u64))
}

// The whole run of a program with these names, over a buffer for its input. `judge` is asked once for each line, in order.
pub fn replay<R: Read, W: Write, F: FnMut(&[u8]) -> Outcome>(
    input: &mut R,
    output: &mut W,
    buffer: &mut [u8],
    names: &[u8],
    judge: F,
) -> io::Result<()>
    requires { F.IsAlwaysCallable judge }
    ensures { IfOk result (λ u. (n : ℕ) × (n ≤ length buffer.new) × Consumes (R.remaining input.old) (R.remaining input.new) (take n buffer.new)) }
{
    let mut counts = [0u64; 128];
    let n = input::fill(input, buffer)?;
    report::note_full(&mut counts, n == buffer.len());
    each_line(parts::bytes(buffer, 0, n as u64), &mut counts, judge);
    print(output, names, &counts)
}

// One line against the state of frames: HEX, the head, the frame of its kind. The state stands in four slices; a refused line changes none of them.
#![tactic(auto)]

ghost use Rattle.std.specs.Prelude.{◌≡◌, true, false, ◌≤◌, length, drop, get_or};
ghost use Rattle.frames.specs.Frames.{frame};
ghost use Rattle.framelaws.specs.Reached.{BytesIn};
ghost use Rattle.framestate.specs.FrameState.{store_of, Leaves};
ghost use Rattle.solveframe.specs.Parts.{slices_of, slices_by, slices_left};
ghost use Rattle.stepping.specs.Stepping.{Stands, step_of, class_kind, Headed, Rests};
ghost use Rattle.stepping.specs.Lines.{bytes_step};

use askframes::{cast_frame, relation_frame, supertype_frame};
use frameheads::check_head;
use framestate::{Framed, Numbers, refuse};
use hexline::read_line;
use rowframes::{
    bound_frame, count_frame, flow_frame, name_frame, open_frame, read_frame, record_frame,
    upper_frame, variable_frame, write_frame,
};
use solveframe::solve_frame;

// Whether a kind changes the class table: 01, 02 and 0e.
fn is_class_kind(kind: u64) -> bool
    ensures { result ≡ class_kind kind }
{
    if kind <= 2 {
        return true;
    }
    kind == 14
}

// 01, 02 and 0e: the class table grows.
fn class_message(
    kind: u64,
    body: &[u8],
    last: &mut [u8],
    pairs: &mut [u64],
    marks: &mut [u64],
    rows: &[u64],
    n: Numbers,
) -> Framed
    requires { Stands last.old pairs.old marks.old rows.now n × Headed kind body.now n × (class_kind kind ≡ true) }
    ensures { Rests (step_of kind body.now (store_of (slices_of last.old pairs.old marks.old rows.now) n)) (slices_of last.old pairs.old marks.old rows.now) (slices_of last.new pairs.new marks.new rows.now) result }
{
    if kind == 1 {
        return name_frame(body, last, n);
    }
    if kind == 2 {
        return record_frame(body, pairs, marks, n);
    }
    open_frame(n)
}

// 03 to 05: components, variables, bounds.
fn value_message(
    kind: u64,
    body: &[u8],
    last: &[u8],
    pairs: &[u64],
    marks: &[u64],
    rows: &mut [u64],
    n: Numbers,
) -> Framed
    requires { Stands last.now pairs.now marks.now rows.old n × Headed kind body.now n × BytesIn body.now × (3 ≤ kind) × (kind ≤ 5) }
    ensures { Rests (step_of kind body.now (store_of (slices_of last.now pairs.now marks.now rows.old) n)) (slices_of last.now pairs.now marks.now rows.old) (slices_of last.now pairs.now marks.now rows.new) result }
{
    if kind == 3 {
        return count_frame(body, n);
    }
    if kind == 4 {
        return variable_frame(body, &mut rows[0..2048], n);
    }
    bound_frame(body, &mut rows[2048..6144], n)
}

// 06 to 09: the links.
fn link_message(
    kind: u64,
    body: &[u8],
    last: &[u8],
    pairs: &[u64],
    marks: &[u64],
    rows: &mut [u64],
    n: Numbers,
) -> Framed
    requires { Stands last.now pairs.now marks.now rows.old n × Headed kind body.now n × (6 ≤ kind) × (kind ≤ 9) }
    ensures { Rests (step_of kind body.now (store_of (slices_of last.now pairs.now marks.now rows.old) n)) (slices_of last.now pairs.now marks.now rows.old) (slices_of last.now pairs.now marks.now rows.new) result }
{
    if kind == 6 {
        return flow_frame(body, &mut rows[6144..8192], n);
    }
    if kind == 7 {
        return upper_frame(body, &mut rows[8192..9216], n);
    }
    if kind == 8 {
        return read_frame(body, &mut rows[9216..10240], n);
    }
    write_frame(body, &mut rows[10240..11264], n)
}

// 0b to 0d: questions.
fn question_message(
    kind: u64,
    body: &[u8],
    last: &[u8],
    pairs: &[u64],
    marks: &[u64],
    rows: &[u64],
    n: Numbers,
) -> Framed
    requires { Stands last.now pairs.now marks.now rows.now n × Headed kind body.now n × (11 ≤ kind) × (class_kind kind ≡ false) }
    ensures { Rests (step_of kind body.now (store_of (slices_of last.now pairs.now marks.now rows.now) n)) (slices_of last.now pairs.now marks.now rows.now) (slices_of last.now pairs.now marks.now rows.now) result }
{
    if kind == 11 {
        return relation_frame(body, pairs, marks, n);
    }
    if kind == 12 {
        return supertype_frame(body, pairs, marks, n);
    }
    cast_frame(body, pairs, marks, n)
}

// 03 to 0d: nothing of these changes the class table.
fn later_message(
    kind: u64,
    body: &[u8],
    last: &[u8],
    pairs: &[u64],
    marks: &[u64],
    rows: &mut [u64],
    answers: &mut [u64],
    n: Numbers,
) -> Framed
    requires { Stands last.now pairs.now marks.now rows.old n × (length answers.old ≡ 2048) × Headed kind body.now n × BytesIn body.now × (class_kind kind ≡ false) }
    ensures { Leaves (step_of kind body.now (store_of (slices_of last.now pairs.now marks.now rows.old) n)) (slices_of last.now pairs.now marks.now rows.old) (slices_of last.now pairs.now marks.now rows.new) answers.old answers.new result }
{
    if kind <= 5 {
        return value_message(kind, body, last, pairs, marks, rows, n);
    }
    if kind <= 9 {
        return link_message(kind, body, last, pairs, marks, rows, n);
    }
    if kind == 10 {
        return solve_frame(pairs, marks, rows, answers, n);
    }
    question_message(kind, body, last, pairs, marks, rows, n)
}

// A frame of at least one byte: its head, its message.
fn frame_bytes(
    bytes: &[u8],
    last: &mut [u8],
    pairs: &mut [u64],
    marks: &mut [u64],
    rows: &mut [u64],
    answers: &mut [u64],
    n: Numbers,
) -> Framed
    requires { Stands last.old pairs.old marks.old rows.old n × (length answers.old ≡ 2048) × BytesIn bytes.now × (1 ≤ length bytes.now) }
    ensures { Leaves (bytes_step (get_or bytes.now 0 0) (drop 1 bytes.now) (store_of (slices_by last pairs marks rows) n)) (slices_by last pairs marks rows) (slices_left last pairs marks rows) answers.old answers.new result }
{
    let kind = bytes[0] as u64;
    let refusal = check_head(kind, bytes.len() - 1, n.rank);
    if refusal != 0 {
        return refuse(n, refusal);
    }
    let body = &bytes[1..];
    if is_class_kind(kind) {
        return class_message(kind, body, last, pairs, marks, rows, n);
    }
    later_message(kind, body, last, pairs, marks, rows, answers, n)
}

// ONE LINE.
pub fn frame(
    line: &[u8],
    last: &mut [u8],
    pairs: &mut [u64],
    marks: &mut [u64],
    rows: &mut [u64],
    answers: &mut [u64],
    n: Numbers,
) -> Framed
    requires { Stands last.old pairs.old marks.old rows.old n × (length answers.old ≡ 2048) }
    ensures leaves { Leaves (frame line.now (store_of (slices_by last pairs marks rows) n)) (slices_by last pairs marks rows) (slices_left last pairs marks rows) answers.old answers.new result }
    ensures stands { Stands last.new pairs.new marks.new rows.new result.numbers }
{
    let mut bytes = [0u8; 512];
    let k = read_line(line, &mut bytes);
    if k == 0 {
        return refuse(n, 1);
    }
    frame_bytes(&bytes[0..k], last, pairs, marks, rows, answers, n)
}

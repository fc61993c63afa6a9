// What a solve left in lent slices, beside what was recorded. They were full of a pattern.
use crate::cutting::{ANSWERS, BOUNDS, WORK};
use crate::{calling, cutting};
use bracepuffin::BpSolved;
use replaying::answers::Verdict;
use replaying::{answers, parts};

const PATTERN: u64 = 0xa5a5a5a5a5a5a5a5;

// Whether a slice begins with a list, and holds one number after it.
fn is_list_then(slice: &[u64], list: &[u64], after: u64) -> bool {
    match slice.strip_prefix(list) {
        Some(rest) => rest.iter().all(|n| *n == after),
        None => false,
    }
}

// What all of the work is after a solve with that refusal: the pattern where nothing was touched.
fn work_after(refusal: u64) -> u64 {
    if refusal == 22 {
        return PATTERN;
    }
    0
}

// Whether the columns of final bounds hold the last three lists of r.
fn are_columns(r: &[u64], out_comp: &[u64], out_kind: &[u64], out_type: &[u64]) -> bool {
    is_list_then(out_comp, parts::list(r, 2, 1), PATTERN)
        && is_list_then(out_kind, parts::list(r, 2, 2), PATTERN)
        && is_list_then(out_type, parts::list(r, 2, 3), PATTERN)
}

// Whether a result is that of r: refusal, turns, and how many final bounds there are.
fn is_result(s: BpSolved, r: &[u64]) -> bool {
    let bounds = parts::list(r, 2, 1).len() as u64;
    parts::number_at(r, 0) == s.refusal && parts::number_at(r, 1) == s.turns && bounds == s.bounds
}

// Whether the working slice, of which the first `room` words were lent, is as a solve with that refusal leaves it.
fn is_work(work: &[u64], room: usize, refusal: u64) -> bool {
    if work.len() < room {
        return false;
    }
    let none = parts::numbers(work, 0, 0);
    is_list_then(parts::numbers(work, 0, room), none, work_after(refusal))
        && is_list_then(parts::numbers(work, room, work.len()), none, PATTERN)
}

// The verdict on a result and what the slices hold: refusal, turns, the answers, the final bounds.
fn judge(
    s: BpSolved,
    r: &[u64],
    answers: &[u64],
    out_comp: &[u64],
    out_kind: &[u64],
    out_type: &[u64],
) -> Verdict {
    if parts::is_last(r, 2, 3) {
        let are_answers = is_list_then(answers, parts::list(r, 2, 0), PATTERN);
        return answers::judged(
            is_result(s, r) && are_answers && are_columns(r, out_comp, out_kind, out_type),
        );
    }
    Verdict::Unread
}

// The verdict on a problem over a table: five lengths of lent slices, the problem, and what was recorded.
pub(crate) fn over(t: &[u64], store: &[u8], q: &[u64], r: &[u64]) -> Verdict {
    if !cutting::is_case(t, store.len(), q) {
        return Verdict::Unread;
    }
    let mut answers = [PATTERN; ANSWERS];
    let mut out_comp = [PATTERN; BOUNDS];
    let mut out_kind = [PATTERN; BOUNDS];
    let mut out_type = [PATTERN; BOUNDS];
    let mut work = [PATTERN; WORK];
    let s = calling::solve(
        t,
        store,
        q,
        &mut answers,
        &mut out_comp,
        &mut out_kind,
        &mut out_type,
        &mut work,
    );
    let room = cutting::room(q, 4, WORK);
    if is_work(&work, room, s.refusal) {
        return judge(s, r, &answers, &out_comp, &out_kind, &out_type);
    }
    Verdict::Differs
}

// What is said over a table of eight columns, beside the answers recorded.
use crate::calling::Question;
use crate::{calling, cutting};
use bracepuffin::{BpAnswer, BpSet, BpTable};
use replaying::answers::Verdict;
use replaying::{answers, parts};

// The question whose answer stands at index i of a line's answers: a pair has four, one after the other, a table is asked for
// a join.
fn question(place: usize, i: usize) -> Question {
    match (place, i) {
        (0, _) | (3, _) => Question::Join,
        (1, 0) => Question::Relation,
        (1, 1) => Question::Distance,
        (1, 2) => Question::Supertype,
        (1, _) => Question::Cast,
        _ => Question::Assignable,
    }
}

// The number that x is put beside there.
fn other(place: usize, t: &[u64], y: u64, i: usize) -> u64 {
    if place < 2 {
        return y;
    }
    parts::number_at(parts::list(t, 3, 2), i)
}

// How many answers there are.
fn count(place: usize, t: &[u64]) -> usize {
    match place {
        0 => 1,
        1 => 4,
        _ => parts::list(t, 3, 2).len(),
    }
}

// Whether a refusal and so many answers are recorded.
fn are_recorded(r: &[u64], n: usize) -> bool {
    r.len() != 0 && r.len() - 1 == n
}

// Whether what was said is the refusal of all and the answer at a place of r.
fn is_said(said: BpAnswer, r: &[u64], at: usize) -> bool {
    said.refusal == parts::number_at(r, 0) && said.value == parts::number_at(r, at)
}

// Whether the answers to a line are those recorded: the refusal of all, then an answer for each.
fn are_said(
    place: usize,
    t: &[u64],
    store: &[u8],
    x: u64,
    y: u64,
    r: &[u64],
    work: &mut [u64],
) -> bool {
    let n = count(place, t);
    for i in 0..n {
        let said = calling::ask(question(place, i), t, store, x, other(place, t, y, i), work);
        if !is_said(said, r, i + 1) {
            return false;
        }
    }
    are_recorded(r, n)
}

// Whether the words of a set are those of a list and then zeros.
fn are_words(words: &[u64], list: &[u64]) -> bool {
    match words.strip_prefix(list) {
        Some(rest) => rest.iter().all(|w| *w == 0),
        None => false,
    }
}

// Refusal, count, lowest, and the words.
fn is_set(s: BpSet, r: &[u64]) -> Verdict {
    if parts::is_last(r, 3, 0) {
        let is_said = answers::is_same(&[s.refusal, s.count, s.lowest], parts::numbers(r, 0, 3));
        return answers::judged(is_said && are_words(&s.words, parts::list(r, 3, 0)));
    }
    Verdict::Unread
}

// Refusal, part and row.
fn is_check(c: BpTable, r: &[u64]) -> Verdict {
    answers::all(&[c.refusal, c.part, c.row], r)
}

// The verdict on the line at a place of the names, with so much work lent: its first and last argument, and the answers recorded.
fn judge(
    place: usize,
    t: &[u64],
    store: &[u8],
    x: u64,
    y: u64,
    r: &[u64],
    work: &mut [u64],
) -> Verdict {
    if place == 2 {
        return is_set(calling::ancestors(t, store, x, work), r);
    }
    if place == 5 {
        return is_check(calling::check(t, store), r);
    }
    answers::judged(are_said(place, t, store, x, y, r, work))
}

// The same with the first entries of these lent.
fn judge_in(
    place: usize,
    t: &[u64],
    store: &[u8],
    x: u64,
    y: u64,
    r: &[u64],
    work: &mut [u64],
) -> Verdict {
    let room = parts::number_at(t, 0) as usize;
    if work.len() < room {
        return Verdict::Unread;
    }
    judge(place, t, store, x, y, r, &mut work[0..room])
}

// How many arguments the line at a place of the names has: a table and its check `n`, a pair two, each other one; none past
// the names.
fn arguments(place: usize, n: usize) -> usize {
    match place {
        0 => n,
        1 => 2,
        2..=4 => 1,
        5 => n,
        _ => 0,
    }
}

// An argument; for a table the word of Int, of which it is asked.
fn argument(place: usize, n: u64) -> u64 {
    if place == 0 {
        return 5;
    }
    n
}

// The verdict on the line at a place of the names about a table: its arguments, and the answers recorded.
pub(crate) fn over(place: usize, t: &[u64], store: &[u8], q: &[u64], r: &[u64]) -> Verdict {
    let n = q.len();
    if n == 0 || n != arguments(place, n) {
        return Verdict::Unread;
    }
    if cutting::is_table(t, store.len()) {
        let x = argument(place, q[0]);
        let y = argument(place, q[n - 1]);
        let mut work = [0u64; 8200];
        return judge_in(place, t, store, x, y, r, &mut work);
    }
    Verdict::Unread
}

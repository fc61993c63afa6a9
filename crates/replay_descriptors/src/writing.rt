// The functions over names. Names among the arguments are the bytes that they are cut from, the list of their places and
// the list of their lengths.
use crate::cutting;
use bracepuffin::BpWritten;
use replaying::answers::Verdict;
use replaying::{answers, parts, text};

// The most bytes that a case may have room for.
const ROOM: usize = 1000;

// Whether the arguments are the bytes of names, the lists up to list k, and two numbers.
fn are_arguments(a: &[u64], k: usize, store: usize) -> bool {
    let start = parts::number_at(a, 0);
    let end = parts::number_at(a, 1);
    cutting::are_bytes(start, end, store) && cutting::has_two_after(a, 2, k)
}

// The bytes that the names are cut from.
fn names<'a>(store: &'a [u8], a: &[u64]) -> &'a [u8] {
    parts::bytes(store, parts::number_at(a, 0), parts::number_at(a, 1))
}

// Whether an answer has a refusal and bytes.
fn are_answers(r: &[u64], store: usize) -> bool {
    r.len() == 3 && cutting::are_bytes(parts::number_at(r, 1), parts::number_at(r, 2), store)
}

// The refusal, and the bytes written.
fn is_written(w: BpWritten, out: &[u8], store: &[u8], r: &[u64]) -> Verdict {
    if !are_answers(r, store.len()) || !cutting::are_bytes(0, w.length, out.len()) {
        return Verdict::Unread;
    }
    let written = parts::bytes(out, 0, w.length);
    let recorded = parts::bytes(store, parts::number_at(r, 1), parts::number_at(r, 2));
    let is_refusal = parts::number_at(r, 0) == w.refusal;
    answers::judged(is_refusal && text::is_same(recorded, written))
}

// What `write` makes of as many bytes as the last argument says, where the lists up to list k are whole; behind them stand a word and that number.
fn written<F: FnOnce(&mut [u8]) -> BpWritten>(
    k: usize,
    store: &[u8],
    a: &[u64],
    r: &[u64],
    write: F,
) -> Verdict
    requires { F.IsAlwaysCallable write }
{
    if !are_arguments(a, k, store.len()) {
        return Verdict::Unread;
    }
    let mut out = [0u8; ROOM];
    let room = cutting::last(a, 1) as usize;
    let w = if room <= ROOM {
        write(&mut out[0..room])
    } else {
        BpWritten {
            refusal: 1,
            length: 0,
        }
    };
    is_written(w, &out, store, r)
}

// Writes a type, whose word stands behind the lists.
pub(crate) fn of_type(store: &[u8], a: &[u64], r: &[u64]) -> Verdict {
    written(1, store, a, r, |out| {
        bracepuffin::bp_write_type(
            names(store, a),
            parts::list(a, 2, 0),
            parts::list(a, 2, 1),
            cutting::last(a, 2),
            out,
        )
    })
}

// Writes a method; its parameters are a list, and its result stands behind it.
pub(crate) fn of_method(store: &[u8], a: &[u64], r: &[u64]) -> Verdict {
    written(2, store, a, r, |out| {
        bracepuffin::bp_write_method(
            names(store, a),
            parts::list(a, 2, 0),
            parts::list(a, 2, 1),
            parts::list(a, 2, 2),
            cutting::last(a, 2),
            out,
        )
    })
}

// The class of the name at the end of the arguments.
pub(crate) fn lookup(store: &[u8], a: &[u64], r: &[u64]) -> Verdict {
    let start = cutting::last(a, 2);
    let end = cutting::last(a, 1);
    if !are_arguments(a, 1, store.len()) || !cutting::are_bytes(start, end, store.len()) {
        return Verdict::Unread;
    }
    let found = bracepuffin::bp_lookup(
        names(store, a),
        parts::list(a, 2, 0),
        parts::list(a, 2, 1),
        parts::bytes(store, start, end),
    );
    answers::all(&[found.refusal, found.class_no], r)
}

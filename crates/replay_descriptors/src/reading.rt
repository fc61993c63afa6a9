// The functions that read bytes: descriptors of types and methods, and UTF-8. Bytes are two numbers, the place where they
// begin in the store and the place where they end.
use crate::cutting;
use bracepuffin::{BpMethod, BpType};
use replaying::answers::Verdict;
use replaying::{answers, parts};

// The most parameters that a case may have room for.
const ROOM: usize = 320;

fn is_type(t: BpType, r: &[u64]) -> Verdict {
    let said = [
        t.refusal, t.offset, t.byte, t.dims, t.tag, t.category, t.name_at, t.name_len,
    ];
    answers::all(&said, r)
}

fn read_type(is_strict: bool, d: &[u8]) -> BpType {
    if is_strict {
        return bracepuffin::bp_read_type_strict(d);
    }
    bracepuffin::bp_read_type(d)
}

pub(crate) fn of_type(is_strict: bool, store: &[u8], a: &[u64], r: &[u64]) -> Verdict {
    let start = parts::number_at(a, 0);
    let end = parts::number_at(a, 1);
    if a.len() != 2 || !cutting::are_bytes(start, end, store.len()) {
        return Verdict::Unread;
    }
    is_type(read_type(is_strict, parts::bytes(store, start, end)), r)
}

// The ten numbers, and then the place of each parameter.
fn is_method(m: BpMethod, params: &[u64], r: &[u64]) -> Verdict {
    let n = m.count as usize;
    if r.len() < 10 || params.len() < n {
        return Verdict::Unread;
    }
    let said = [
        m.refusal,
        m.offset,
        m.byte,
        m.count,
        m.return_at,
        m.dims,
        m.tag,
        m.category,
        m.name_at,
        m.name_len,
    ];
    if answers::is_same(&said, parts::numbers(r, 0, 10)) {
        return answers::all(parts::numbers(params, 0, n), parts::numbers(r, 10, r.len()));
    }
    Verdict::Differs
}

fn read_method(is_strict: bool, d: &[u8], params: &mut [u64]) -> BpMethod {
    if is_strict {
        return bracepuffin::bp_read_method_strict(d, params);
    }
    bracepuffin::bp_read_method(d, params)
}

// Reads a method into the first `room` entries.
fn method_in(is_strict: bool, d: &[u8], room: usize, params: &mut [u64], r: &[u64]) -> Verdict {
    if params.len() < room {
        return Verdict::Unread;
    }
    let m = read_method(is_strict, d, &mut params[0..room]);
    is_method(m, params, r)
}

pub(crate) fn of_method(is_strict: bool, store: &[u8], a: &[u64], r: &[u64]) -> Verdict {
    let start = parts::number_at(a, 0);
    let end = parts::number_at(a, 1);
    if a.len() != 3 || !cutting::are_bytes(start, end, store.len()) {
        return Verdict::Unread;
    }
    let room = parts::number_at(a, 2) as usize;
    let mut params = [0u64; ROOM];
    method_in(
        is_strict,
        parts::bytes(store, start, end),
        room,
        &mut params,
        r,
    )
}

pub(crate) fn utf8(store: &[u8], a: &[u64], r: &[u64]) -> Verdict {
    if a.len() != 2 {
        return Verdict::Unread;
    }
    let s = a[0] as usize;
    let e = a[1] as usize;
    if e < s || store.len() < e {
        return Verdict::Unread;
    }
    answers::one((utf8::valid_up_to(store, s, e) - s) as u64, r)
}

// The functions on types. A word among the arguments is one over 1,024 names unless their number is given.
ghost use Rattle.ty.specs.Words.{Legal};

use replaying::answers::{MISSING, Verdict};
use replaying::{answers, lists, parts};
use std::cmp::Ordering;
use ty::TypeWord;

// Whether a type comes back from its rank.
fn returns(t: TypeWord) -> bool
    requires { Legal t.word }
{
    let back = keys::type_of_rank(keys::rank_of(t));
    back.word == t.word
}

fn order_number(o: Ordering) -> u64 {
    match o {
        Ordering::Less => 0,
        Ordering::Equal => 1,
        Ordering::Greater => 2,
    }
}

// The order of two types as a number; 3 where one of them does not come back from its rank.
fn order_of(x: TypeWord, y: TypeWord) -> u64
    requires { Legal x.word × Legal y.word }
{
    if returns(x) && returns(y) {
        return order_number(keys::compare_types(x, y));
    }
    3
}

// The same of a type and a word; 3 also where that is no type.
fn order_to(s: TypeWord, y: u64) -> u64
    requires { Legal s.word }
{
    let Ok(t) = ty::decode(y, 1024) else {
        return 3;
    };
    order_of(s, t)
}

// The same of two words.
fn order_of_words(x: u64, y: u64) -> u64 {
    let Ok(s) = ty::decode(x, 1024) else {
        return 3;
    };
    order_to(s, y)
}

pub(crate) fn order(a: &[u64], r: &[u64]) -> Verdict {
    if a.len() != 2 {
        return Verdict::Unread;
    }
    answers::one(
        order_of_words(parts::number_at(a, 0), parts::number_at(a, 1)),
        r,
    )
}

// The order of two places of a list.
fn order_of_places(i: usize, j: usize) -> u64 {
    order_number(i.cmp(&j))
}

// How many members have the order to x that their places have to place i; a word that is no type has none. (x is decoded once, not at each member.)
fn as_placed(list: &[u64], i: usize, x: u64) -> u64 {
    let Ok(s) = ty::decode(x, 1024) else {
        return 0;
    };
    let mut n: u64 = 0;
    for (j, y) in list.iter().enumerate() {
        let is_so = order_to(s, *y) == order_of_places(i, j);
        n = std::num::wrapping_add_u64(n, answers::flag(is_so));
    }
    n
}

// How many pairs of members have the order that their places have.
fn all_as_placed(list: &[u64]) -> u64 {
    let mut n: u64 = 0;
    for (i, x) in list.iter().enumerate() {
        n = std::num::wrapping_add_u64(n, as_placed(list, i, *x));
    }
    n
}

pub(crate) fn pairs(a: &[u64], r: &[u64]) -> Verdict {
    let e = lists::end_before(a, 0, 0);
    if e == 0 {
        return Verdict::Unread;
    }
    answers::one(all_as_placed(parts::numbers(a, 1, e)), r)
}

fn is_legal(names: u64, w: u64) -> u64 {
    let d = ty::decode(w, names);
    match d {
        Ok(_) => 1,
        Err(_) => 0,
    }
}

pub(crate) fn legal(a: &[u64], r: &[u64]) -> Verdict {
    if a.len() != 2 {
        return Verdict::Unread;
    }
    answers::one(is_legal(parts::number_at(a, 0), parts::number_at(a, 1)), r)
}

// Bit 16 p + d says whether the word is legal after its digit p, counted from digit `from` at the low end, was combined by
// exclusive or with d; p is below 4.
fn edits_from(names: u64, w: u64, from: u64) -> u64 {
    let mut bits: u64 = 0;
    for i in 0..64u64 {
        let at = 4 * (from % 13 + i / 16);
        bits = bits | (is_legal(names, w ^ ((i % 16) << at)) << i);
    }
    bits
}

pub(crate) fn edits(a: &[u64], r: &[u64]) -> Verdict {
    if a.len() != 2 {
        return Verdict::Unread;
    }
    let names = parts::number_at(a, 0);
    let w = parts::number_at(a, 1);
    let said = [
        edits_from(names, w, 0),
        edits_from(names, w, 4),
        edits_from(names, w, 8),
        edits_from(names, w, 12),
    ];
    answers::all(&said, r)
}

fn maybe(t: Option<TypeWord>) -> u64 {
    match t {
        Some(x) => x.word,
        None => MISSING,
    }
}

fn arrayed(t: Option<TypeWord>) -> u64 {
    match t {
        Some(x) => x.word,
        None => MISSING,
    }
}

fn said_of(t: TypeWord) -> [u64; 7]
    requires { Legal t.word }
{
    [
        answers::flag(t.is_wide()),
        answers::flag(t.is_reference()),
        answers::flag(t.is_known()),
        answers::flag(t.is_concrete()),
        t.categories(),
        arrayed(t.array()),
        maybe(t.element()),
    ]
}

pub(crate) fn word(a: &[u64], r: &[u64]) -> Verdict {
    if a.len() != 1 {
        return Verdict::Unread;
    }
    let Ok(t) = ty::decode(parts::number_at(a, 0), 1024) else {
        return Verdict::Unread;
    };
    answers::all(&said_of(t), r)
}

pub(crate) fn hint(a: &[u64], r: &[u64]) -> Verdict {
    let x = parts::number_at(a, 0);
    if a.len() != 2 || 1024 <= x {
        return Verdict::Unread;
    }
    let Ok(t) = ty::decode(parts::number_at(a, 1), 1024) else {
        return Verdict::Unread;
    };
    answers::one(maybe(t.concrete_hint(x)), r)
}

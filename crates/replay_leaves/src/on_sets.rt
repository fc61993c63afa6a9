// The functions on sets. A set among the arguments or the answers is the list of its members.
use replaying::answers::Verdict;
use replaying::{answers, lists, parts};
use sets::Set;

fn set_of(list: &[u64]) -> Set {
    let mut s = Set::empty();
    for x in list {
        s = s.with(*x);
    }
    s
}

// Whether a list has exactly the members of a set, ascending.
fn is_list_of(s: Set, list: &[u64]) -> bool {
    let mut rest = s;
    for x in list {
        let low = rest.lowest();
        if low != *x {
            return false;
        }
        rest = rest.without(low);
    }
    1024 <= rest.lowest()
}

// The end of the list at `at` if it is that of a set, else 0.
fn past(r: &[u64], at: usize, s: Set) -> usize {
    let e = lists::end(r, at);
    if e <= at {
        return 0;
    }
    if is_list_of(s, parts::numbers(r, at + 1, e)) {
        return e;
    }
    0
}

// Has, count, lowest, with, without.
pub(crate) fn one(a: &[u64], r: &[u64]) -> Verdict {
    let e = lists::end_before(a, 0, 1);
    if e == 0 || r.len() < 3 {
        return Verdict::Unread;
    }
    let s = set_of(parts::numbers(a, 1, e));
    let x = parts::number_at(a, e);
    let said = [answers::flag(s.has(x)), s.count(), s.lowest()];
    if answers::is_same(&said, parts::numbers(r, 0, 3)) {
        return changed(s, x, r);
    }
    Verdict::Differs
}

fn changed(s: Set, x: u64, r: &[u64]) -> Verdict {
    let f = past(r, 3, s.with(x));
    if f == 0 {
        return Verdict::Differs;
    }
    let g = past(r, f, s.without(x));
    answers::judged(g != 0 && g == r.len())
}

// Union, intersection, difference, same.
pub(crate) fn two(a: &[u64], r: &[u64]) -> Verdict {
    let e = lists::end(a, 0);
    if e == 0 {
        return Verdict::Unread;
    }
    let f = lists::end_before(a, e, 0);
    if f <= e {
        return Verdict::Unread;
    }
    let x = set_of(parts::numbers(a, 1, e));
    let y = set_of(parts::numbers(a, e + 1, f));
    both(x, y, r)
}

fn both(x: Set, y: Set, r: &[u64]) -> Verdict {
    let e = past(r, 0, x.union(y));
    if e == 0 {
        return Verdict::Differs;
    }
    let f = past(r, e, x.intersection(y));
    if f == 0 {
        return Verdict::Differs;
    }
    let g = past(r, f, x.difference(y));
    if g == 0 {
        return Verdict::Differs;
    }
    answers::one(answers::flag(x.same(y)), parts::numbers(r, g, r.len()))
}

// A table and a problem among numbers, and the lists in them. A table: where the bytes that names are cut from begin and end in the store, and
// seven lists: name_at, name_len; rec_flags, rec_class, rec_at, rec_len; parents. A problem: five lengths of lent slices, how many components there
// are, and twelve lists: variables; components, kinds and words of bounds; two each of flows, upper flows, reads and writes.
ghost use Rattle.std.specs.Prelude.{◌≤◌};

use replaying::parts;

// How many entries of each kind can be lent.
pub(crate) const ANSWERS: usize = 64;

pub(crate) const BOUNDS: usize = 4100;

pub(crate) const WORK: usize = 8200;

// The bytes that the names of a table are cut from.
pub(crate) fn names<'a>(t: &[u64], store: &'a [u8]) -> &'a [u8] {
    parts::bytes(store, parts::number_at(t, 0), parts::number_at(t, 1))
}

// A length that can be lent; another is no length of a case, and none is lent.
pub(crate) fn room(q: &[u64], i: usize, most: usize) -> usize
    ensures { result ≤ most }
{
    let n = parts::number_at(q, i) as usize;
    if most < n {
        return 0;
    }
    n
}

// Whether it can be lent.
fn fits(q: &[u64], i: usize, most: usize) -> bool {
    parts::number_at(q, i) as usize <= most
}

// Whether the lists and the bytes of a table are those that its numbers say, up to the last number.
fn is_table(t: &[u64], store: usize) -> bool {
    let start = parts::number_at(t, 0) as usize;
    let end = parts::number_at(t, 1) as usize;
    start <= end && end <= store && parts::is_last(t, 2, 6)
}

// The same of a problem and what is lent.
fn is_problem(q: &[u64]) -> bool {
    fits(q, 0, ANSWERS)
        && fits(q, 1, BOUNDS)
        && fits(q, 2, BOUNDS)
        && fits(q, 3, BOUNDS)
        && fits(q, 4, WORK)
        && parts::is_last(q, 6, 11)
}

pub(crate) fn is_case(t: &[u64], store: usize, q: &[u64]) -> bool {
    is_table(t, store) && is_problem(q)
}

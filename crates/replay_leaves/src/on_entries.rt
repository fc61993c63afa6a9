// The functions on sorted entries. Entries among the arguments or the answers are a list.
ghost use Rattle.std.specs.Prelude.{◌^◌, ◌<◌};

use replaying::answers::Verdict;
use replaying::{answers, lists, parts};
use sorted::Put;

// The most entries that a case may have room for.
const ROOM: usize = 64;

// What `find` says: whether x is there, and its position.
fn is_found(entries: &[u64], x: u64, r: &[u64]) -> bool {
    let f = sorted::find(entries, entries.len(), x);
    match f {
        Ok(p) => answers::is_same(&[1, p as u64], r),
        Err(p) => answers::is_same(&[0, p as u64], r),
    }
}

// Whether an outcome, how many entries there are then, and the entries are those recorded.
fn is_left(outcome: u64, n: usize, table: &[u64], r: &[u64]) -> Verdict {
    if r.len() < 2 || table.len() < n {
        return Verdict::Unread;
    }
    let is_said = answers::is_same(&[outcome, n as u64], parts::numbers(r, 0, 2));
    let entries = parts::numbers(table, 0, n);
    answers::judged(is_said && answers::is_same(entries, parts::numbers(r, 2, r.len())))
}

// What an insertion into a table of n entries came to.
fn is_put(p: Put, n: usize, table: &[u64], r: &[u64]) -> Verdict
    requires { n < 2 ^ 63 }
{
    match p {
        Put::Old => is_left(0, n, table, r),
        Put::New => is_left(1, n + 1, table, r),
        Put::Full => is_left(2, n, table, r),
    }
}

// Inserts x into the first `room` entries of a table.
fn insert_in(entries: &[u64], room: usize, x: u64, table: &mut [u64], r: &[u64]) -> Verdict {
    let n = entries.len();
    if table.len() < room || room < n {
        return Verdict::Unread;
    }
    table[..n].copy_from_slice(entries);
    let p = sorted::insert(&mut table[0..room], n, x);
    is_put(p, n, table, r)
}

pub(crate) fn put(a: &[u64], r: &[u64]) -> Verdict {
    let e = lists::end_before(a, 1, 1);
    if e < 2 || r.len() < 2 {
        return Verdict::Unread;
    }
    let entries = parts::numbers(a, 2, e);
    let x = parts::number_at(a, e);
    if is_found(entries, x, parts::numbers(r, 0, 2)) {
        let room = parts::number_at(a, 0) as usize;
        let mut table = [0u64; ROOM];
        return insert_in(entries, room, x, &mut table, parts::numbers(r, 2, r.len()));
    }
    Verdict::Differs
}

pub(crate) fn run(a: &[u64], r: &[u64]) -> Verdict {
    let e = lists::end_before(a, 0, 2);
    if e == 0 {
        return Verdict::Unread;
    }
    let entries = parts::numbers(a, 1, e);
    let s = sorted::run(
        entries,
        entries.len(),
        parts::number_at(a, e),
        parts::number_at(a, e + 1),
    );
    answers::all(&[s.first as u64, s.past as u64], r)
}

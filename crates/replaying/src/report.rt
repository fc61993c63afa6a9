// Counts, two for each function: the cases that agree, and all. The last is that of lines that are no case. And the report of them, into a
// lent buffer.
ghost use Rattle.std.specs.Prelude.{◌≡◌, ◌+◌, ◌*◌, ◌≤◌, cond, length};
ghost use Rattle.lineout.specs.Printed.{Puts};
ghost use Rattle.replaying.specs.Replaying.{more, counted};
ghost use Rattle.replaying.specs.Report.{field, counts_of, next_text, next_name, names_text, names_in, total, sums_of, unread_all, report_in};

use crate::answers::Verdict;
use crate::parts::number_at;
use lineout::{put_byte, put_decimal};

// The most functions of a program, and the place that stands for lines that are no case. A place is a number, as the contract of `record` has it (`counted`).
pub(crate) const UNREAD: usize = 63;

// The place that stands for lines that are to be none.
pub(crate) const COMMENT: usize = 64;

// Room for the report of names of at most 128 bytes.
pub const ROOM: usize = 8192;

// One more at an index of the counts.
fn one_more(counts: &mut [u64], at: usize)
    ensures { counts.new ≡ more at counts.old }
{
    if at < counts.len() {
        counts[at] = std::num::wrapping_add_u64(counts[at], 1);
    }
}

// The verdict on a line.
pub fn record(counts: &mut [u64], place: usize, v: Verdict)
    ensures { counts.new ≡ counted place v counts.old }
{
    if place == COMMENT {
        return;
    }
    if UNREAD <= place {
        return one_more(counts, 127);
    }
    match v {
        Verdict::Agrees => {
            one_more(counts, 2 * place);
            one_more(counts, 2 * place + 1)
        }
        Verdict::Differs => one_more(counts, 2 * place + 1),
        Verdict::Unread => one_more(counts, 127),
    }
}

// An input that fills the buffer may be longer: that counts as a line that is no case.
pub fn note_full(counts: &mut [u64], is_full: bool)
    ensures { counts.new ≡ cond is_full (more 127 counts.old) counts.old }
{
    if is_full {
        return one_more(counts, 127);
    }
}

// A blank and a number.
fn put_field(out: &mut [u8], at: usize, n: u64) -> usize
    requires { at + 21 ≤ length out.old }
    ensures { Puts (field n) at out.old out.new result × (result ≤ at + 21) }
{
    let m = put_byte(out, at, b' ');
    put_decimal(out, m, n)
}

// The counts behind name k, and the end of its line.
fn put_counts(out: &mut [u8], at: usize, counts: &[u64], k: usize) -> usize
    requires { (at + 43 ≤ length out.old) × (k ≤ 128) }
    ensures { Puts (counts_of counts.now k) at out.old out.new result × (result ≤ at + 43) }
{
    let m = put_field(out, at, number_at(counts, 2 * k));
    let n = put_field(out, m, number_at(counts, 2 * k + 1));
    put_byte(out, n, b'\n')
}

// One byte of the names: a blank ends name k.
fn put_next(out: &mut [u8], at: usize, b: u8, counts: &[u64], k: usize) -> usize
    requires { (at + 43 ≤ length out.old) × (k ≤ 128) }
    ensures { Puts (next_text counts.now k b) at out.old out.new result × (result ≤ at + 43) }
{
    if b == b' ' {
        return put_counts(out, at, counts, k);
    }
    put_byte(out, at, b)
}

// The name that the byte after b belongs to.
fn next_name(k: usize, b: u8) -> usize
    requires { k ≤ 128 }
    ensures { result ≡ next_name k b }
{
    if b == b' ' {
        return k + 1;
    }
    k
}

// A line for each name, with its counts.
fn put_names(out: &mut [u8], at: usize, names: &[u8], counts: &[u64]) -> usize
    requires { (length names.now ≤ 128) × (at + 43 * (length names.now + 1) ≤ length out.old) }
    ensures { Puts (names_text counts.now 0 names.now) at out.old out.new result × (result ≤ at + 43 * (length names.now + 1)) }
{
    let mut k: usize = 0;
    let mut m = at;
    for b in names {
        m = put_next(out, m, *b, counts, k);
        k = next_name(k, *b);
    }
    put_counts(out, m, counts, k)
}

// How many names these are.
fn names_in(names: &[u8]) -> usize
    requires { length names.now ≤ 128 }
    ensures { (result ≡ names_in names.now) × (result ≤ 129) }
{
    1 + names.iter().filter(|b| **b == b' ').count()
}

// The first count of n functions, or the second, added up.
fn sum(counts: &[u64], first: usize, n: usize) -> u64
    requires { (first ≤ 1) × (n ≤ 129) }
    ensures { result ≡ total counts.now first n }
{
    let mut s: u64 = 0;
    for k in 0..n {
        s = std::num::wrapping_add_u64(s, number_at(counts, 2 * k + first));
    }
    s
}

// A line for lines that are no case, and one for all.
fn put_sums(out: &mut [u8], at: usize, counts: &[u64], n: usize) -> usize
    requires { (at + 473 ≤ length out.old) × (n ≤ 129) }
    ensures { Puts (names_text (sums_of counts.now n) 0 unread_all) at out.old out.new result × (result ≤ at + 473) }
{
    let unread = number_at(counts, 127);
    let agree = sum(counts, 0, n);
    let all = std::num::wrapping_add_u64(sum(counts, 1, n), unread);
    put_names(out, at, b"unread all", &[0, unread, agree, all])
}

// The report of names with a blank between, to the front of a buffer; tells how long it is. Nothing and 0 for more than 128 bytes
// of names, or a buffer of less than `ROOM`.
pub fn put(names: &[u8], counts: &[u64], out: &mut [u8]) -> usize
    ensures { Puts (report_in names.now counts.now (length out.old)) 0 out.old out.new result × (result ≤ length out.new) }
{
    if 128 < names.len() {
        return 0;
    }
    if out.len() < ROOM {
        return 0;
    }
    let m = put_names(out, 0, names, counts);
    put_sums(out, m, counts, names_in(names))
}

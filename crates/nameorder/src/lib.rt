// How names stand to each other, byte by byte.
#![tactic(auto)]

ghost use Rattle.std.specs.Prelude.{◌≡◌, not, ◌&&◌, ◌+◌, ◌≤◌, ltb, length, drop};
ghost use Rattle.std.proofs.Math.Seq.{slice};
ghost use Rattle.order.specs.Compare.{compare_numbers, compare_lists, is_less, is_equal};

use std::cmp::Ordering;

fn compare_numbers(a: u64, b: u64) -> Ordering
    ensures { result ≡ compare_numbers a b }
{
    if a < b {
        return Ordering::Less;
    }
    if b < a {
        return Ordering::Greater;
    }
    Ordering::Equal
}

// How two names stand to each other: byte by byte, a prefix first.
pub fn compare_names(a: &[u8], b: &[u8]) -> Ordering
    ensures { result ≡ compare_lists a.now b.now }
{
    for i in 0..a.len().min(b.len()) {
        if a[i] != b[i] {
            return compare_numbers(u64::from(a[i]), u64::from(b[i]));
        }
    }
    compare_numbers(a.len() as u64, b.len() as u64)
}

// Whether the names differ in the eight bytes from i on. None ends the loop early, so that the machine compares them at once.
fn differ_in_block(a: &[u8], b: &[u8], i: usize) -> bool
    requires { (i + 8 ≤ length a.now) × (i + 8 ≤ length b.now) }
    ensures { result ≡ not (is_equal (compare_lists (slice i (i + 8) a.now) (slice i (i + 8) b.now))) }
{
    let mut differ = false;
    for k in 0..8 {
        if a[i + k] != b[i + k] {
            differ = true;
        }
    }
    differ
}

// Passes blocks of eight bytes in which the names are the same: they stand to each other as what is left of them does.
fn skip_same(a: &[u8], b: &[u8], n: usize) -> usize
    requires { (n ≤ length a.now) × (n ≤ length b.now) }
    ensures { (result ≤ n)
        × (compare_lists a.now b.now ≡ compare_lists (drop result a.now) (drop result b.now)) }
{
    let mut i: usize = 0;
    while 8 <= n - i {
        if differ_in_block(a, b, i) {
            return i;
        }
        i += 8;
    }
    i
}

// The same, of what is left after that.
fn rest_is_not_above(last: &[u8], name: &[u8], count: u64) -> bool
    ensures { result ≡ (ltb 0 count && not (is_less (compare_lists last.now name.now))) }
{
    if count == 0 {
        return false;
    }
    let o = compare_names(last, name);
    match o {
        Ordering::Less => false,
        Ordering::Equal => true,
        Ordering::Greater => true,
    }
}

// Whether the name is not above the last of `count`: past what the two have in common: names of a table often begin alike.
pub fn is_not_above(last: &[u8], name: &[u8], count: u64) -> bool
    ensures { result ≡ (ltb 0 count && not (is_less (compare_lists last.now name.now))) }
{
    let i = skip_same(last, name, last.len().min(name.len()));
    rest_is_not_above(&last[i..], &name[i..], count)
}

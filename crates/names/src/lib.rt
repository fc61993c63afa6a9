// Names of classes as places in a byte slice: their checks, and the number of a name.
#![tactic(auto)]

ghost use Rattle.std.specs.Prelude.{◌≡◌, ◌||◌, ◌+◌, ◌-◌, ◌≤◌, leb, ltb, length};
ghost use Rattle.order.specs.Compare.{compare_lists};
ghost use Rattle.refusals.specs.Numbers.{code};
ghost use Rattle.names.specs.Names.{place_good, name_of, check_name, check_row, check_names, found, lookup, look_up, looked};

use nameorder::{compare_names, is_not_above};
use refusals::Refusal;
use std::cmp::Ordering;
use utf8::is_well_formed;

// How many bytes a name has at most, how many names a table, and how many bytes they have together.
const NAME_BYTES: u64 = 255;

const NAMES: u64 = 1024;

const ALL_BYTES: u64 = 24576;

// Whether there is no room for one more name of that length.
fn is_full(length: u64, count: u64, total: u64) -> bool
    ensures { result ≡ (leb 1024 count || ltb 24576 (total + length)) }
{
    if NAMES <= count {
        return true;
    }
    if ALL_BYTES < total {
        return true;
    }
    ALL_BYTES - total < length
}

// Whether a name is refused, after `count` others that have `total` bytes, the last of them `last`.
pub fn check_name(last: &[u8], name: &[u8], count: u64, total: u64) -> Result<(), Refusal>
    ensures { code result ≡ check_name last.now name.now count total }
{
    let n = name.len();
    if n == 0 {
        return Err(Refusal::Length);
    }
    if NAME_BYTES < n as u64 {
        return Err(Refusal::Length);
    }
    if !is_well_formed(name, 0, n) {
        return Err(Refusal::Utf8);
    }
    if is_not_above(last, name, count) {
        return Err(Refusal::NameOrder);
    }
    if is_full(n as u64, count, total) {
        return Err(Refusal::Room);
    }
    Ok(())
}

// Whether len bytes from at on are 1 to 255 bytes inside a slice of that size.
fn is_place(size: u64, at: u64, len: u64) -> bool
    ensures { result ≡ place_good size at len }
{
    if len == 0 {
        return false;
    }
    if NAME_BYTES < len {
        return false;
    }
    if size < at {
        return false;
    }
    len <= size - at
}

// Whether one row is refused, after `count` others that have `total` bytes; the last of them has `span` bytes at `last`.
fn check_row(
    names: &[u8],
    last: u64,
    span: u64,
    at: u64,
    len: u64,
    count: u64,
    total: u64,
) -> Result<(), Refusal>
    requires { (last ≤ length names.now) × (span ≤ length names.now - last) }
    ensures { code result ≡ check_row names.now at len (name_of names.now last span) count total }
{
    if !is_place(names.len() as u64, at, len) {
        return Err(Refusal::Length);
    }
    let from = last as usize;
    let to = from + span as usize;
    let start = at as usize;
    let end = start + len as usize;
    check_name(&names[from..to], &names[start..end], count, total)
}

// Whether a table of names is refused.
pub fn check_names(names: &[u8], name_at: &[u64], name_len: &[u64]) -> Result<(), Refusal>
    ensures { code result ≡ check_names names.now name_at.now name_len.now }
{
    if name_at.len() != name_len.len() {
        return Err(Refusal::Length);
    }
    let mut last: u64 = 0;
    let mut span: u64 = 0;
    let mut total: u64 = 0;
    for i in 0..name_at.len() {
        let at = name_at[i];
        let len = name_len[i];
        check_row(names, last, span, at, len, i as u64, total)?;
        last = at;
        span = len;
        total += len;
    }
    Ok(())
}

// How the name at a place stands to the key.
fn compare_at(names: &[u8], at: u64, len: u64, key: &[u8]) -> Ordering
    requires { (at ≤ length names.now) × (len ≤ length names.now - at) }
    ensures { result ≡ compare_lists (name_of names.now at len) key.now }
{
    let start = at as usize;
    let end = start + len as usize;
    compare_names(&names[start..end], key)
}

// The number of the key among checked names, by halving.
fn search(names: &[u8], name_at: &[u64], name_len: &[u64], key: &[u8]) -> Result<u64, Refusal>
    requires { check_names names.now name_at.now name_len.now ≡ 0 }
    ensures { looked result ≡ found (lookup names.now name_at.now name_len.now key.now) }
{
    let mut low: usize = 0;
    let mut high = name_at.len();
    while low < high {
        let middle = low + (high - low) / 2;
        let order = compare_at(names, name_at[middle], name_len[middle], key);
        match order {
            Ordering::Less => {
                low = middle + 1;
            }
            Ordering::Equal => {
                return Ok(middle as u64);
            }
            Ordering::Greater => {
                high = middle;
            }
        }
    }
    Err(Refusal::Absent)
}

// The number of the key among names that are checked first.
pub fn look_up(names: &[u8], name_at: &[u64], name_len: &[u64], key: &[u8]) -> Result<u64, Refusal>
    ensures { looked result ≡ look_up names.now name_at.now name_len.now key.now }
{
    check_names(names, name_at, name_len)?;
    search(names, name_at, name_len, key)
}

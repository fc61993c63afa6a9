// Parts of a case, handed out as the parts of the slices that they are: a list, numbers or bytes between two places.
ghost use Rattle.std.specs.Prelude.{◌≡◌, length, slice_index};
ghost use Rattle.replaying.specs.Replaying.{Inside, clipped, part_of, place_of, list_of, is_last};

use crate::lists;
use crate::lists::Span;

// The number at a place, 0 past the end.
pub fn number_at(a: &[u64], i: usize) -> u64
    ensures { result ≡ slice_index a.now i }
{
    a.get(i).copied().unwrap_or(0)
}

// Two places inside so many members; both 0 where they do not stand so.
fn inside(start: usize, end: usize, room: usize) -> Span
    ensures { (result ≡ clipped start end room) × Inside result room }
{
    if end < start {
        return Span { start: 0, end: 0 };
    }
    if room < end {
        return Span { start: 0, end: 0 };
    }
    Span { start, end }
}

// The numbers between two places; none where they do not stand so.
pub fn numbers<'a>(a: &'a [u64], start: usize, end: usize) -> &'a [u64]
    ensures { result.now ≡ part_of a.now start end }
{
    let s = inside(start, end, a.len());
    let first = s.start;
    let past = s.end;
    &a[first..past]
}

// The bytes between two places, which are numbers of a case; none where they do not stand so.
// It stays beside `numbers`: their places have different types, and with one function for both each caller would have to turn its own.
pub fn bytes<'a>(a: &'a [u8], start: u64, end: u64) -> &'a [u8]
    ensures { result.now ≡ part_of a.now start end }
{
    let s = inside(start as usize, end as usize, a.len());
    let first = s.start;
    let past = s.end;
    &a[first..past]
}

// Where the members of list k of those that begin at `from` stand; both 0 where it is not whole, or one before it.
pub fn place(a: &[u64], from: usize, k: usize) -> Span
    ensures { (result ≡ place_of a.now from k) × Inside result (length a.now) }
{
    let mut s = lists::after(
        a,
        Span {
            start: from,
            end: from,
        },
    );
    for i in 0..k {
        s = lists::after(a, s);
    }
    s
}

// The list itself; no member where it is not whole.
pub fn list<'a>(a: &'a [u64], from: usize, k: usize) -> &'a [u64]
    ensures { result.now ≡ list_of a.now from k }
{
    let s = place(a, from, k);
    numbers(a, s.start, s.end)
}

// Whether list k is whole and ends with the last number.
pub fn is_last(a: &[u64], from: usize, k: usize) -> bool
    ensures { result ≡ is_last a.now from k }
{
    let s = place(a, from, k);
    s.start != 0 && s.end == a.len()
}

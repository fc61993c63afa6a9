// What a case of a descriptor is: bytes are two numbers, the place where they begin in the store and the place where they end; behind a list stand two
// more numbers.
use replaying::parts;

// Whether list k of those that begin at `from` is whole, and exactly two numbers follow it.
pub(crate) fn has_two_after(a: &[u64], from: usize, k: usize) -> bool {
    let s = parts::place(a, from, k);
    s.start != 0 && a.len() - s.end == 2
}

// The number so many places before the end, of which the last is 1 before it; 0 where there are fewer.
pub(crate) fn last(a: &[u64], count: usize) -> u64 {
    if a.len() < count {
        return 0;
    }
    parts::number_at(a, a.len() - count)
}

// Whether bytes can stand between these places of a store of so many.
pub(crate) fn are_bytes(start: u64, end: u64, room: usize) -> bool {
    start <= end && end as usize <= room
}

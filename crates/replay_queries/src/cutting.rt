// A table among numbers, and the lists in it: how many working words are lent, the bytes that names are cut from (where they begin and end in the
// store), and eight lists: name_at, name_len; types; rec_flags, rec_class, rec_at, rec_len; parents.
use replaying::parts;

// The bytes that the names of a table are cut from.
pub(crate) fn names<'a>(t: &[u64], store: &'a [u8]) -> &'a [u8] {
    parts::bytes(store, parts::number_at(t, 1), parts::number_at(t, 2))
}

// Whether the lists and the bytes of a table are those that its numbers say, up to the last number.
pub(crate) fn is_table(t: &[u64], store: usize) -> bool {
    let start = parts::number_at(t, 1) as usize;
    let end = parts::number_at(t, 2) as usize;
    start <= end && end <= store && parts::is_last(t, 3, 7)
}

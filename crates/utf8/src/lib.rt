// Well-formed UTF-8 by Unicode's table 3-7: how far the bytes of a part of a slice are whole sequences.
#![tactic(auto)]

ghost use Rattle.std.specs.Prelude.{◌≡◌, true, cond, [], ◌∷◌, ◌+◌, ◌-◌, ◌≤◌, ◌<◌, eqb, length, take, drop};
ghost use Rattle.std.proofs.Math.Seq.{slice};
ghost use Rattle.utf8.specs.Utf8.{◌‥◌, matches, sequence, ascii, valid_prefix, well_formed};
ghost use Rattle.utf8.specs.Seams.{continues, due, unlike, misfit, stray, fault, faults, Clean, CleanEnds};

// Whether the byte at i stands before `to` and lies in lo..=hi.
fn one(s: &[u8], i: usize, to: usize, lo: u8, hi: u8) -> bool
    requires { to ≤ length s.now }
    ensures { result ≡ matches (lo ‥ hi ∷ []) (slice i to s.now) }
{
    if i < to {
        let b = s[i];
        return lo <= b && b <= hi;
    }
    false
}

// The same, and the byte after it continues the sequence. (One function of how many bytes follow would be no plainer: a loop in the place of a call.)
fn two(s: &[u8], i: usize, to: usize, lo: u8, hi: u8) -> bool
    requires { to ≤ length s.now }
    ensures { result ≡ matches (lo ‥ hi ∷ 0x80 ‥ 0xBF ∷ []) (slice i to s.now) }
{
    if one(s, i, to, lo, hi) {
        return one(s, i + 1, to, 0x80, 0xBF);
    }
    false
}

// The same, and the two bytes after it continue the sequence.
fn three(s: &[u8], i: usize, to: usize, lo: u8, hi: u8) -> bool
    requires { to ≤ length s.now }
    ensures { result ≡ matches (lo ‥ hi ∷ 0x80 ‥ 0xBF ∷ 0x80 ‥ 0xBF ∷ []) (slice i to s.now) }
{
    if one(s, i, to, lo, hi) {
        return two(s, i + 1, to, 0x80, 0xBF);
    }
    false
}

// n where a sequence was found, 0 where not.
fn length_if(found: bool, n: usize) -> usize
    ensures { result ≡ cond found n 0 }
{
    if found {
        return n;
    }
    0
}

// The length of the sequence that `first` begins and that goes on at j, 0 where there is none: the rows of the table after the first.
fn longer(first: u8, s: &[u8], j: usize, to: usize) -> usize
    requires { (0x80 ≤ first) × (to ≤ length s.now) }
    ensures { result ≡ sequence (first ∷ slice j to s.now) }
{
    match first {
        0xC2..=0xDF => length_if(one(s, j, to, 0x80, 0xBF), 2),
        0xE0 => length_if(two(s, j, to, 0xA0, 0xBF), 3),
        0xE1..=0xEC => length_if(two(s, j, to, 0x80, 0xBF), 3),
        0xED => length_if(two(s, j, to, 0x80, 0x9F), 3),
        0xEE..=0xEF => length_if(two(s, j, to, 0x80, 0xBF), 3),
        0xF0 => length_if(three(s, j, to, 0x90, 0xBF), 4),
        0xF1..=0xF3 => length_if(three(s, j, to, 0x80, 0xBF), 4),
        0xF4 => length_if(three(s, j, to, 0x80, 0x8F), 4),
        _ => 0,
    }
}

// The length of the sequence at i, 0 where none stands there. Nearly every byte is below 0x80.
fn sequence_at(s: &[u8], i: usize, to: usize) -> usize
    requires { (i < to) × (to ≤ length s.now) }
    ensures { result ≡ sequence (slice i to s.now) }
{
    let first = s[i];
    if first < 0x80 {
        return 1;
    }
    longer(first, s, i + 1, to)
}

// Whether the bytes of s[from..to] are all below 0x80. None ends the loop early, so that the machine tests many at a time: std's `is_ascii`,
// which may end early, took some forty times as long over 256 bytes.
fn is_ascii(s: &[u8], from: usize, to: usize) -> bool
    requires { (from ≤ to) × (to ≤ length s.now) }
    ensures { result ≡ ascii (slice from to s.now) }
{
    let mut plain = true;
    for byte in &s[from..to] {
        plain &= *byte < 0x80;
    }
    plain
}

// 1 where c continues a sequence, 0 where not. The tests from here on are numbers that are added up, so that the machine makes them of
// sixteen bytes at once. They know sequences of at most three bytes; of a text with longer ones `by_sequences` tells.
fn continuing(c: u8) -> u8
    ensures { result ≡ continues c }
{
    if c < 0x80 {
        0
    } else if c < 0xC0 {
        1
    } else {
        0
    }
}

// 1 where the byte after a and b has to continue their sequence, 0 where not.
fn has_to(a: u8, b: u8) -> u8
    ensures { result ≡ due a b }
{
    if 0xC0 <= b {
        1
    } else if 0xE0 <= a {
        1
    } else {
        0
    }
}

// 0 where the numbers are the same, 1 where not.
fn differ(m: u8, n: u8) -> u8
    ensures { result ≡ unlike m n }
{
    if m == n { 0 } else { 1 }
}

// 1 where c is too small after 0xE0 or too large after 0xED, 0 where not.
fn bad_second(b: u8, c: u8) -> u8
    ensures { result ≡ misfit b c }
{
    if b == 0xE0 {
        if c < 0xA0 { 1 } else { 0 }
    } else if b == 0xED {
        if c < 0xA0 { 0 } else { 1 }
    } else {
        0
    }
}

// 1 where c stands in no sequence of at most three bytes, 0 where it does.
fn bad_byte(c: u8) -> u8
    ensures { result ≡ stray c }
{
    if c < 0xC0 {
        0
    } else if c < 0xC2 {
        1
    } else if c < 0xF0 {
        0
    } else {
        1
    }
}

// How many faults c has after a and b.
fn faults_of(a: u8, b: u8, c: u8) -> u8
    ensures { result ≡ fault a b c }
{
    differ(continuing(c), has_to(a, b)) + bad_second(b, c) + bad_byte(c)
}

// Whether none of sixteen bytes in a row has a fault, the first of them at i + 2.
fn clean_block(s: &[u8], i: usize) -> bool
    requires { i + 18 ≤ length s.now }
    ensures { result ≡ eqb (faults s.now i 16) 0 }
{
    let mut bad = 0;
    for k in 0..16 {
        let j = i + k;
        bad += faults_of(s[j], s[j + 1], s[j + 2]);
    }
    bad == 0
}

// Whether none of the bytes after the first two of s[from..to] has a fault. The last block laps over the one before it.
fn clean_blocks(s: &[u8], from: usize, to: usize) -> bool
    requires { (from + 18 ≤ to) × (to ≤ length s.now) }
    ensures { result ≡ true → Clean s.now from (to - 2) }
{
    let mut i = from;
    while 18 <= to - i {
        if clean_block(s, i) {
            i += 16;
        } else {
            return false;
        }
    }
    clean_block(s, to - 18)
}

// Whether the first two bytes of s[from..to] have no fault and the last two begin nothing that goes on after them.
fn clean_ends(s: &[u8], from: usize, to: usize) -> bool
    requires { (from + 18 ≤ to) × (to ≤ length s.now) }
    ensures { result ≡ true → CleanEnds s.now from to }
{
    let first = s[from];
    if faults_of(0, 0, first) + faults_of(0, first, s[from + 1]) == 0 {
        s[to - 2] < 0xE0 && s[to - 1] < 0xC0
    } else {
        false
    }
}

// Whether s[from..to] is seen to be well-formed by whole blocks: long enough, and without a sequence of four bytes.
fn is_clean(s: &[u8], from: usize, to: usize) -> bool
    requires { (from ≤ to) × (to ≤ length s.now) }
    ensures { result ≡ true → from + valid_prefix (slice from to s.now) ≡ to }
{
    if 18 <= to - from {
        if clean_ends(s, from, to) {
            clean_blocks(s, from, to)
        } else {
            false
        }
    } else {
        false
    }
}

// The same as `valid_up_to`, sequence by sequence.
fn by_sequences(s: &[u8], from: usize, to: usize) -> usize
    requires { (from ≤ to) × (to ≤ length s.now) }
    ensures { result ≡ from + valid_prefix (slice from to s.now) }
{
    let mut i = from;
    while i < to {
        let n = sequence_at(s, i, to);
        if n == 0 {
            return i;
        }
        i += n;
    }
    i
}

// Where the first byte of s[from..to] stands that no whole valid prefix holds; `to` where all of it is well-formed.
pub fn valid_up_to(s: &[u8], from: usize, to: usize) -> usize
    requires { (from ≤ to) × (to ≤ length s.now) }
    ensures { result ≡ from + valid_prefix (take (to - from) (drop from s.now)) }
{
    if is_ascii(s, from, to) {
        to
    } else if is_clean(s, from, to) {
        to
    } else {
        by_sequences(s, from, to)
    }
}

// Whether s[from..to] is well-formed.
pub fn is_well_formed(s: &[u8], from: usize, to: usize) -> bool
    requires { (from ≤ to) × (to ≤ length s.now) }
    ensures { result ≡ well_formed (take (to - from) (drop from s.now)) }
{
    valid_up_to(s, from, to) == to
}

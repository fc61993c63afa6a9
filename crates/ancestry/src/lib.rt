// What is reached from many classes, over the class tables as `hierarchy` reads them: in one walk from all of them, or as rows, one
// set a class. Rows stand in one slice of ROWS words, that of class c from word 16 * c on.
#![tactic(auto)]

ghost use Rattle.std.specs.Prelude.{◌≡◌, true, ℕ, ◌≤◌, ◌<◌, length, replicate};
ghost use Rattle.sets.specs.Sets.{MembersBelow, member};
ghost use Rattle.view.specs.View.{reach};
ghost use Rattle.tables.specs.Table.{names_room, view_of};
ghost use Rattle.ancestry.specs.Spread.{Spread};
ghost use Rattle.ancestry.specs.Rows.{rows_room, row, Joined, JoinedIf, Through};
ghost use Rattle.ancestry.specs.Closure.{Rows, Bases};

use hierarchy::{expand, set_at, with_parents};
use sets::Set;
use tables::{NAMES, Tables};

// How many words the rows have.
pub const ROWS: usize = 16384;

// What is reached from the classes of s, in one walk.
pub fn spread(pairs: &[u64], marks: &[u64], t: Tables, s: Set) -> Set
    requires { (t.names ≤ names_room) × (t.object < t.names) × MembersBelow t.names s.words }
    ensures { Spread (view_of pairs.now marks.now t) s.words result.words }
{
    let mut seen = s;
    let mut front = s;
    let mut c = front.lowest();
    while c < NAMES {
        let next = expand(pairs, marks, t, seen, front);
        front = next.difference(seen);
        seen = next;
        c = front.lowest();
    }
    seen
}

// Row c.
pub fn row_of(rows: &[u64], c: u64) -> Set
    requires { (length rows.now ≡ rows_room) × (c < names_room) }
    ensures { result.words ≡ row rows.now c }
{
    set_at(rows, c)
}

// Whether d is in row c.
pub fn is_in(rows: &[u64], c: u64, d: u64) -> bool
    requires { (length rows.now ≡ rows_room) × (c < names_room) × (d < names_room) }
    ensures { result ≡ member (row rows.now c) d }
{
    hierarchy::is_in(rows, c, d)
}

// Puts s into row c.
fn join(rows: &mut [u64], c: u64, s: Set)
    requires { (length rows.old ≡ rows_room) × (c < names_room) }
    ensures { Joined rows.old c s.words rows.new }
{
    let first = (16 * c) as usize;
    for k in 0..16 {
        rows[first + k] |= s.words[k];
    }
}

// The same where `taken`.
fn join_if(rows: &mut [u64], c: u64, taken: bool, s: Set)
    requires { (length rows.old ≡ rows_room) × (c < names_room) }
    ensures { JoinedIf rows.old c taken s.words rows.new }
{
    if taken {
        join(rows, c, s);
    }
}

// Puts row k into each of the first `names` rows that has k.
fn through(rows: &mut [u64], names: u64, k: u64)
    requires { (length rows.old ≡ rows_room) × (names ≤ names_room) × (k < names_room) }
    ensures { Through rows.old names k rows.new }
{
    let via = row_of(rows, k);
    for i in 0..names {
        let taken = is_in(rows, i, k);
        join_if(rows, i, taken, via);
    }
}

// Into empty rows, for each class of s: itself and its parents.
fn begin(pairs: &[u64], marks: &[u64], t: Tables, s: Set, rows: &mut [u64])
    requires { (rows.old ≡ replicate rows_room 0) × ((c : ℕ) → member s.words c ≡ true → c < names_room) }
    ensures { Bases (view_of pairs.now marks.now t) s.words rows.new }
{
    let none = Set::empty();
    let mut left = s;
    let mut c = left.lowest();
    while c < NAMES {
        let own = with_parents(pairs, marks, t, c, none.with(c));
        join(rows, c, own);
        left = left.without(c);
        c = left.lowest();
    }
}

// Into empty rows, for each class of a set that has all above its classes: what is reached from it.
pub fn fill(pairs: &[u64], marks: &[u64], t: Tables, s: Set, rows: &mut [u64])
    requires { (t.names ≤ names_room) × (t.object < t.names) × MembersBelow t.names s.words × ((d e : ℕ) → member s.words d ≡ true → reach (view_of pairs.now marks.now t) d e ≡ true → member s.words e ≡ true) × (rows.old ≡ replicate rows_room 0) }
    ensures { Rows (view_of pairs.now marks.now t) s.words rows.new }
{
    begin(pairs, marks, t, s, rows);
    let mut left = s;
    let mut k = left.lowest();
    while k < NAMES {
        through(rows, t.names, k);
        left = left.without(k);
        k = left.lowest();
    }
}

// What classes reach, prepared once and handed down with the keys: a slice of TABLE words has the keys of a class table in its first PAIRS
// words and behind them rows, one set of sixteen words a class. A slice of another length has keys alone, and what is asked is walked for.
#![tactic(auto)]

ghost use Rattle.std.specs.Prelude.{◌≡◌, true, ◌≤◌, ◌<◌, length, replicate};
ghost use Rattle.sets.specs.Sets.{MembersBelow};
ghost use Rattle.view.specs.View.{reached, reach, relation};
ghost use Rattle.tables.specs.Table.{names_room, pairs_room, view_of};
ghost use Rattle.prepared.specs.Prepared.{table_room, has_row, Prepared, Laid};

use ancestry::{fill, is_in, row_of, spread};
use hierarchy::recorded;
use sets::Set;
use tables::{NAMES, PAIRS, Tables};
use view::Relation;

// The length of a slice with keys and rows.
pub const TABLE: usize = 20480;

// Whether the row of a class is there: every row that was made has its own class.
fn has_row(pairs: &[u64], t: Tables, c: u64) -> bool
    ensures { result ≡ has_row pairs.now t c }
{
    if pairs.len() == TABLE {
        if t.pairs <= PAIRS {
            if c < NAMES {
                return is_in(&pairs[4096..20480], c, c);
            }
            return false;
        }
        return false;
    }
    false
}

// What is reached from x, x included.
pub fn reached_from(pairs: &[u64], marks: &[u64], t: Tables, x: u64) -> Set
    requires { Prepared pairs.now marks.now t }
    ensures { result.words ≡ reached (view_of pairs.now marks.now t) x }
{
    if has_row(pairs, t, x) {
        return row_of(&pairs[4096..20480], x);
    }
    hierarchy::reached(pairs, marks, t, x)
}

// Whether y is reached from x.
pub fn reaches(pairs: &[u64], marks: &[u64], t: Tables, x: u64, y: u64) -> bool
    requires { Prepared pairs.now marks.now t × (y < names_room) }
    ensures { result ≡ reach (view_of pairs.now marks.now t) x y }
{
    if has_row(pairs, t, x) {
        return is_in(&pairs[4096..20480], x, y);
    }
    hierarchy::reaches(pairs, marks, t, x, y)
}

// How a class with a row stands to another.
fn relation_by_row(pairs: &[u64], marks: &[u64], t: Tables, value: u64, expected: u64) -> Relation
    requires { Prepared pairs.now marks.now t × (has_row pairs.now t value ≡ true) }
    ensures { result ≡ relation (view_of pairs.now marks.now t) value expected }
{
    if value == expected {
        return Relation::Yes;
    }
    if expected == t.object {
        return Relation::Yes;
    }
    let seen = row_of(&pairs[4096..20480], value);
    if seen.has(expected) {
        return Relation::Yes;
    }
    let unrecorded = seen.difference(recorded(marks));
    if unrecorded.lowest() == NAMES {
        return Relation::No;
    }
    Relation::Unknown
}

// How `value` stands to `expected`.
pub fn relation_of(pairs: &[u64], marks: &[u64], t: Tables, value: u64, expected: u64) -> Relation
    requires { Prepared pairs.now marks.now t }
    ensures { result ≡ relation (view_of pairs.now marks.now t) value expected }
{
    if has_row(pairs, t, value) {
        return relation_by_row(pairs, marks, t, value, expected);
    }
    hierarchy::subtype_relation(pairs, marks, t, value, expected)
}

// Into an empty table: the keys, and a row for each class that is reached from s.
pub fn prepare(pairs: &[u64], marks: &[u64], t: Tables, s: Set, table: &mut [u64])
    requires { (t.names ≤ names_room) × (t.object < t.names) × (t.pairs ≤ pairs_room) × (t.pairs ≤ length pairs.now) × MembersBelow t.names s.words × (table.old ≡ replicate table_room 0) }
    ensures { Laid (view_of pairs.now marks.now t) s.words t.pairs pairs.now table.new }
{
    let above = spread(pairs, marks, t, s);
    fill(pairs, marks, t, above, &mut table[4096..20480]);
    table[..t.pairs].copy_from_slice(&pairs[..t.pairs]);
}

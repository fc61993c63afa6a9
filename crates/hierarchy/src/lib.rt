// What is asked of the class tables, from hierarchy.rs. A walk is handed the whole tables, though it reads the pairs alone.
#![tactic(auto)]

ghost use Rattle.std.specs.Prelude.{◌≡◌, cond, ◌+◌, ◌*◌, ◌≤◌, ◌<◌, ltb, length};
ghost use Rattle.sets.specs.Sets.{at, member, members, insert};
ghost use Rattle.view.specs.View.{insert_all, with_parents, reached, reach, ancestors, distance, ancestor, relation, cast, number_of};
ghost use Rattle.tables.specs.Table.{names_room, marks_room, mark, view_of};
ghost use Rattle.hierarchy.specs.Walked.{cast_marked, Walked};

use sets::Set;
use tables::{NAMES, Tables};
use view::Relation;

// usize::MAX / 4, the distance of an Object that is not reached.
const FAR: u64 = 4611686018427387903;

// The set with p, where p is a class.
fn with_class(s: Set, names: u64, p: u64) -> Set
    ensures { result.words ≡ cond (ltb p names) (insert s.words p) s.words }
{
    if p < names {
        return s.with(p);
    }
    s
}

// The set with the parents of c: the keys from its place on, as long as they are of c.
pub fn with_parents(pairs: &[u64], marks: &[u64], t: Tables, c: u64, s: Set) -> Set
    requires { c < names_room }
    ensures { result.words ≡ insert_all s.words ((view_of pairs.now marks.now t).parents c) }
{
    let first = sorted::position(pairs, t.pairs, c * NAMES);
    let past = sorted::count(pairs, t.pairs);
    let mut all = s;
    for &key in &pairs[first..past] {
        if key / NAMES != c {
            return all;
        }
        all = with_class(all, t.names, key % NAMES);
    }
    all
}

// The set with the parents of each class of `front`.
pub fn expand(pairs: &[u64], marks: &[u64], t: Tables, s: Set, front: Set) -> Set
    ensures { result.words ≡ with_parents (view_of pairs.now marks.now t) s.words (members (at front.words) 0 1024) }
{
    let mut all = s;
    let mut left = front;
    let mut c = left.lowest();
    while c < NAMES {
        all = with_parents(pairs, marks, t, c, all);
        left = left.without(c);
        c = left.lowest();
    }
    all
}

// Where a walk ended: at which level it found what it looked for, if it did, and what it has seen.
#[derive(Clone, Copy)]
struct Walk {
    level: Option<u64>,
    seen: Set,
}

// From x, level by level, until y is found or nothing is new.
fn walk_to(pairs: &[u64], marks: &[u64], t: Tables, x: u64, y: u64) -> Walk
    ensures { Walked (view_of pairs.now marks.now t) x y result.level result.seen.words }
{
    let none = Set::empty();
    let mut seen = none.with(x);
    let mut front = seen;
    for k in 0..t.names {
        if seen.has(y) {
            return Walk {
                level: Some(k),
                seen,
            };
        }
        let next = expand(pairs, marks, t, seen, front);
        front = next.difference(seen);
        if front.lowest() == NAMES {
            return Walk { level: None, seen };
        }
        seen = next;
    }
    Walk {
        level: seen.has(y).then_some(t.names),
        seen,
    }
}

// What is reached from x, x included.
pub fn reached(pairs: &[u64], marks: &[u64], t: Tables, x: u64) -> Set
    ensures { result.words ≡ reached (view_of pairs.now marks.now t) x }
{
    let w = walk_to(pairs, marks, t, x, NAMES);
    w.seen
}

// Whether y is reached from x.
pub fn reaches(pairs: &[u64], marks: &[u64], t: Tables, x: u64, y: u64) -> bool
    ensures { result ≡ reach (view_of pairs.now marks.now t) x y }
{
    let w = walk_to(pairs, marks, t, x, y);
    w.level.is_some()
}

// The ancestors: what is reached, and Object.
pub fn ancestors(pairs: &[u64], marks: &[u64], t: Tables, x: u64) -> Set
    ensures { result.words ≡ ancestors (view_of pairs.now marks.now t) x }
{
    let r = reached(pairs, marks, t, x);
    r.with(t.object)
}

// The least number of steps; 4611686018427387903 for an Object that is not reached, all ones for no ancestor.
pub fn distance(pairs: &[u64], marks: &[u64], t: Tables, value: u64, expected: u64) -> u64
    ensures { result ≡ number_of (distance (view_of pairs.now marks.now t) value expected) }
{
    let w = walk_to(pairs, marks, t, value, expected);
    if let Some(level) = w.level {
        return level;
    }
    if expected == t.object {
        return FAR;
    }
    u64::MAX
}

// Whether `expected` is an ancestor: recorded_ancestor.
fn is_ancestor(pairs: &[u64], marks: &[u64], t: Tables, value: u64, expected: u64) -> bool
    ensures { result ≡ ancestor (view_of pairs.now marks.now t) value expected }
{
    if value == expected {
        return true;
    }
    if expected == t.object {
        return true;
    }
    let up = walk_to(pairs, marks, t, value, expected);
    up.level.is_some()
}

// Of sets that stand in a slice one behind the other, sixteen words each: set k.
pub fn set_at(words: &[u64], k: u64) -> Set
    requires { 16 * k + 16 ≤ length words.now }
    ensures { result.words ≡ mark words.now k }
{
    let first = (16 * k) as usize;
    let mut set = Set::empty();
    set.words.copy_from_slice(&words[first..first + 16]);
    set
}

// Whether c is in set k.
pub fn is_in(words: &[u64], k: u64, c: u64) -> bool
    requires { (16 * k + 16 ≤ length words.now) × (c < names_room) }
    ensures { result ≡ member (mark words.now k) c }
{
    let i = (16 * k + c / 64) as usize;
    (words[i] >> (c % 64)) % 2 == 1
}

// Whether c is in the set k of the four.
fn is_marked(marks: &[u64], k: u64, c: u64) -> bool
    requires { (length marks.now ≡ marks_room) × (k < 4) }
    ensures { result ≡ member (mark marks.now k) c }
{
    if c < NAMES {
        return is_in(marks, k, c);
    }
    false
}

// The classes that are recorded.
pub fn recorded(marks: &[u64]) -> Set
    requires { length marks.now ≡ marks_room }
    ensures { result.words ≡ mark marks.now 0 }
{
    set_at(marks, 0)
}

// How `value` stands to `expected`: subtype_relation. (A function `relation` could not stand beside the enum `Relation`.)
pub fn subtype_relation(
    pairs: &[u64],
    marks: &[u64],
    t: Tables,
    value: u64,
    expected: u64,
) -> Relation
    requires { length marks.now ≡ marks_room }
    ensures { result ≡ relation (view_of pairs.now marks.now t) value expected }
{
    if value == expected {
        return Relation::Yes;
    }
    if expected == t.object {
        return Relation::Yes;
    }
    let w = walk_to(pairs, marks, t, value, expected);
    if w.level.is_some() {
        return Relation::Yes;
    }
    let seen = w.seen;
    let unrecorded = seen.difference(recorded(marks));
    if unrecorded.lowest() == NAMES {
        return Relation::No;
    }
    Relation::Unknown
}

// The cast test where neither is an ancestor: by the declared facts.
fn cast_by_facts(marks: &[u64], source: u64, target: u64) -> bool
    requires { length marks.now ≡ marks_room }
    ensures { result ≡ cast_marked marks.now source target }
{
    if !is_marked(marks, 1, source) {
        return false;
    }
    if !is_marked(marks, 1, target) {
        return false;
    }
    let interface = is_marked(marks, 2, target);
    if is_marked(marks, 2, source) {
        if interface {
            return true;
        }
        return !is_marked(marks, 3, target);
    }
    if interface {
        return !is_marked(marks, 3, source);
    }
    false
}

// Whether a cast from `source` to `target` can succeed: is_cast_convertible.
pub fn cast(pairs: &[u64], marks: &[u64], t: Tables, source: u64, target: u64) -> bool
    requires { length marks.now ≡ marks_room }
    ensures { result ≡ cast (view_of pairs.now marks.now t) source target }
{
    if is_ancestor(pairs, marks, t, source, target) {
        return true;
    }
    if is_ancestor(pairs, marks, t, target, source) {
        return true;
    }
    cast_by_facts(marks, source, target)
}

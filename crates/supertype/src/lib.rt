// The least common supertype, from hierarchy.rs, over the class tables as `hierarchy` reads them.
#![tactic(auto)]

ghost use Rattle.std.specs.Prelude.{◌≡◌, true, Bool, cond, ℕ, ◌≤◌, ◌<◌, length};
ghost use Rattle.sets.specs.Sets.{MembersBelow, at, member, members, remove, intersect};
ghost use Rattle.view.specs.View.{reached, ancestors, supertype, number_of};
ghost use Rattle.view.specs.Supertype.{Common};
ghost use Rattle.view.specs.Lows.{strip, Lows, LowestOf};
ghost use Rattle.view.specs.Pick.{NearestOf};
ghost use Rattle.tables.specs.Table.{names_room, view_of};
ghost use Rattle.ancestry.specs.Rows.{rows_room, row};
ghost use Rattle.prepared.specs.Prepared.{Prepared};
ghost use Rattle.supertype.specs.Sources.{Upward};
ghost use Rattle.supertype.specs.Stripped.{strip_by, strip_rows, Starts};
ghost use Rattle.supertype.specs.Near.{of_two, lone, FirstHit};

use ancestry::{ROWS, fill, is_in, row_of, spread};
use hierarchy::expand;
use prepared::{TABLE, reached_from, reaches};
use sets::Set;
use tables::Tables;

// How many classes are looked at as they come; for more of them rows are made, or one is looked for that stands below most.
const FEW: u64 = 8;

// The set, without c where `taken`.
fn without_if(s: Set, taken: bool, c: u64) -> Set
    ensures { result.words ≡ cond taken (remove s.words c) s.words }
{
    if taken {
        return s.without(c);
    }
    s
}

// Of s, the classes for which the test is false.
fn without_those<F: Fn(u64) -> bool>(s: Set, is_out: F) -> Set
    requires { (c : ℕ) → c < 1024 → F.pre is_out c }
    ensures { (p : ℕ → Bool) → ((c : ℕ) (b : Bool) → c < 1024 → F.post is_out c b → b ≡ p c) → result.words ≡ strip_by p s.words (members (at s.words) 0 1024) }
{
    let mut kept = s;
    let mut left = s;
    let mut c = left.lowest();
    while c < 1024 {
        kept = without_if(kept, is_out(c), c);
        left = left.without(c);
        c = left.lowest();
    }
    kept
}

// Of s, the classes that do not reach d.
fn not_reaching(pairs: &[u64], marks: &[u64], t: Tables, s: Set, d: u64) -> Set
    requires { Prepared pairs.now marks.now t × (d < names_room) }
    ensures { result.words ≡ strip (view_of pairs.now marks.now t) d s.words (members (at s.words) 0 1024) }
{
    without_those(s, |c| reaches(pairs, marks, t, c, d))
}

// Of a set of classes, those with none strictly below, looked at from `start` on. What a class reaches is looked at no more: it is strictly
// above, and out, or reaches back, and has the same above it.
fn lowest_by_walks(pairs: &[u64], marks: &[u64], t: Tables, all: Set, start: u64) -> Set
    requires { (t.names ≤ names_room) × (t.object < t.names) × (length all.words ≡ 16) × MembersBelow t.names all.words × Prepared pairs.now marks.now t × Starts start all.words }
    ensures { Lows (view_of pairs.now marks.now t) all.words result.words }
{
    let mut alive = all;
    let mut todo = all;
    let mut d = start;
    while d < 1024 {
        let r = reached_from(pairs, marks, t, d);
        let above = not_reaching(pairs, marks, t, r.intersection(alive), d);
        alive = alive.difference(above);
        todo = todo.difference(r);
        d = todo.lowest();
    }
    alive
}

// Of s, the classes whose row has not d.
fn not_in_rows(rows: &[u64], s: Set, d: u64) -> Set
    requires { (length rows.now ≡ rows_room) × (d < names_room) }
    ensures { result.words ≡ strip_rows rows.now d s.words (members (at s.words) 0 1024) }
{
    without_those(s, |c| is_in(rows, c, d))
}

// As `lowest_by_walks`, where the rows of the classes are at hand: what each reaches. (One loop that takes both as closures is no plainer:
// that it ends, and leaves what it promises, rests on what each tells of the keys, which it would have to take for that alone.)
fn lowest_by_rows(pairs: &[u64], marks: &[u64], t: Tables, all: Set, rows: &[u64]) -> Set
    requires { (t.names ≤ names_room) × (t.object < t.names) × (length all.words ≡ 16) × MembersBelow t.names all.words × (length rows.now ≡ rows_room) × ((c : ℕ) → member all.words c ≡ true → row rows.now c ≡ reached (view_of pairs.now marks.now t) c) }
    ensures { Lows (view_of pairs.now marks.now t) all.words result.words }
{
    let mut alive = all;
    let mut todo = all;
    let mut d = todo.lowest();
    while d < t.names {
        let r = row_of(rows, d);
        let above = not_in_rows(rows, r.intersection(alive), d);
        alive = alive.difference(above);
        todo = todo.difference(r);
        d = todo.lowest();
    }
    alive
}

// The same, with rows made for it.
fn lowest_by_table(pairs: &[u64], marks: &[u64], t: Tables, all: Set) -> Set
    requires { (t.names ≤ names_room) × (t.object < t.names) × (length all.words ≡ 16) × MembersBelow t.names all.words }
    ensures { Lows (view_of pairs.now marks.now t) all.words result.words }
{
    let mut rows = [0u64; ROWS];
    let above = spread(pairs, marks, t, all);
    fill(pairs, marks, t, above, &mut rows);
    lowest_by_rows(pairs, marks, t, all, &rows)
}

// The same: a few classes are walked from, for more of them rows are made.
fn lowest_left(pairs: &[u64], marks: &[u64], t: Tables, all: Set) -> Set
    requires { (t.names ≤ names_room) × (t.object < t.names) × (length all.words ≡ 16) × MembersBelow t.names all.words × Prepared pairs.now marks.now t }
    ensures { Lows (view_of pairs.now marks.now t) all.words result.words }
{
    if all.count() < FEW {
        return lowest_by_walks(pairs, marks, t, all, all.lowest());
    }
    lowest_by_table(pairs, marks, t, all)
}

// The same of `others`, which is `all` but for Object: first the sources, which no class of `all` has as a parent. What they reach is
// not among the lowest; what is left stands on a cycle, or above one.
fn lowest_many(pairs: &[u64], marks: &[u64], t: Tables, all: Set, others: Set) -> Set
    requires { (t.names ≤ names_room) × (t.object < t.names) × (length all.words ≡ 16) × (length others.words ≡ 16) × MembersBelow t.names others.words × Upward (view_of pairs.now marks.now t) all.words others.words × Prepared pairs.now marks.now t }
    ensures { Lows (view_of pairs.now marks.now t) others.words result.words }
{
    let direct = expand(pairs, marks, t, Set::empty(), all);
    let sources = others.difference(direct);
    let covered = spread(pairs, marks, t, sources);
    let rest = others.difference(covered);
    if rest.lowest() == 1024 {
        return sources;
    }
    let low = lowest_left(pairs, marks, t, rest);
    sources.union(low)
}

// Where the search begins: with a class that both sides meet first, if there is one.
fn start_of(met: Set, others: Set) -> u64
    requires { (length others.words ≡ 16) × ((c : ℕ) → member met.words c ≡ true → member others.words c ≡ true) }
    ensures { Starts result others.words }
{
    let d = met.lowest();
    if d < 1024 {
        return d;
    }
    others.lowest()
}

// The same where rows are at hand. A class that both sides meet first is mostly below the others, which are then looked at no more; of a
// few, each is looked at as it comes.
fn lowest_prepared(
    pairs: &[u64],
    marks: &[u64],
    t: Tables,
    left: u64,
    right: u64,
    others: Set,
) -> Set
    requires { (t.names ≤ names_room) × (t.object < t.names) × (length others.words ≡ 16) × MembersBelow t.names others.words × Prepared pairs.now marks.now t }
    ensures { Lows (view_of pairs.now marks.now t) others.words result.words }
{
    if others.count() < FEW {
        return lowest_by_walks(pairs, marks, t, others, others.lowest());
    }
    let met = first_near(pairs, marks, t, left, right, others, true);
    let start = start_of(met, others);
    lowest_by_walks(pairs, marks, t, others, start)
}

// Whether a set has fewer than two members.
fn is_lone(s: Set) -> bool
    ensures { result ≡ lone s.words }
{
    let least = s.lowest();
    let rest = s.without(least);
    rest.lowest() == 1024
}

// The same; one class alone is the lowest.
fn lowest_others(
    pairs: &[u64],
    marks: &[u64],
    t: Tables,
    left: u64,
    right: u64,
    all: Set,
    others: Set,
) -> Set
    requires { (t.names ≤ names_room) × (t.object < t.names) × (length all.words ≡ 16) × (length others.words ≡ 16) × MembersBelow t.names others.words × Upward (view_of pairs.now marks.now t) all.words others.words × Prepared pairs.now marks.now t }
    ensures { Lows (view_of pairs.now marks.now t) others.words result.words }
{
    if is_lone(others) {
        return others;
    }
    if pairs.len() == TABLE {
        return lowest_prepared(pairs, marks, t, left, right, others);
    }
    lowest_many(pairs, marks, t, all, others)
}

// Of a set with Object, the classes with none strictly below. Below Object is what it does not reach.
fn lowest_of(pairs: &[u64], marks: &[u64], t: Tables, left: u64, right: u64, all: Set) -> Set
    requires { (t.names ≤ names_room) × (t.object < t.names) × (length all.words ≡ 16) × MembersBelow t.names all.words × (member all.words t.object ≡ true) × Upward (view_of pairs.now marks.now t) all.words (remove all.words t.object) × Prepared pairs.now marks.now t }
    ensures { LowestOf (view_of pairs.now marks.now t) all.words result.words }
{
    let others = all.without(t.object);
    let low = lowest_others(pairs, marks, t, left, right, all, others);
    let unreached = others.difference(reached_from(pairs, marks, t, t.object));
    if unreached.lowest() == 1024 {
        return low.with(t.object);
    }
    low
}

// What both of two sets have of a third, or what either has.
fn hits(left: Set, right: Set, s: Set, both: bool) -> Set
    ensures { result.words ≡ intersect (of_two both left.words right.words) s.words }
{
    if both {
        let common = left.intersection(right);
        return common.intersection(s);
    }
    let all = left.union(right);
    all.intersection(s)
}

// Of a set, the classes that both sides reach in the fewest steps, of which the greater number counts, or those that either does.
fn first_near(
    pairs: &[u64],
    marks: &[u64],
    t: Tables,
    left: u64,
    right: u64,
    s: Set,
    both: bool,
) -> Set
    requires { length s.words ≡ 16 }
    ensures { FirstHit both (view_of pairs.now marks.now t) left right s.words result.words }
{
    let none = Set::empty();
    let mut seen_left = none.with(left);
    let mut seen_right = none.with(right);
    let mut front_left = seen_left;
    let mut front_right = seen_right;
    for _k in 0..t.names {
        let met = hits(seen_left, seen_right, s, both);
        if met.lowest() != 1024 {
            return met;
        }
        let next_left = expand(pairs, marks, t, seen_left, front_left);
        let next_right = expand(pairs, marks, t, seen_right, front_right);
        front_left = next_left.difference(seen_left);
        front_right = next_right.difference(seen_right);
        seen_left = next_left;
        seen_right = next_right;
    }
    hits(seen_left, seen_right, s, both)
}

// The nearest of some common ancestors: of those that both sides meet first, and of these that either reaches first, the least.
fn nearest_of(pairs: &[u64], marks: &[u64], t: Tables, left: u64, right: u64, s: Set) -> u64
    requires { (t.names ≤ names_room) × (t.object < t.names) × (left < t.names) × (right < t.names) × (length s.words ≡ 16) × ((c : ℕ) → member s.words c ≡ true → Common (view_of pairs.now marks.now t) left right c) }
    ensures { NearestOf (view_of pairs.now marks.now t) left right s.words result }
{
    if is_lone(s) {
        return s.lowest();
    }
    let met = first_near(pairs, marks, t, left, right, s, true);
    if is_lone(met) {
        return met.lowest();
    }
    let near = first_near(pairs, marks, t, left, right, met, false);
    near.lowest()
}

// The ancestors: what is reached, and Object.
fn ancestors_of(pairs: &[u64], marks: &[u64], t: Tables, x: u64) -> Set
    requires { Prepared pairs.now marks.now t }
    ensures { result.words ≡ ancestors (view_of pairs.now marks.now t) x }
{
    let r = reached_from(pairs, marks, t, x);
    r.with(t.object)
}

// The least common supertype: least_common_supertype. All ones for none.
pub fn supertype(pairs: &[u64], marks: &[u64], t: Tables, left: u64, right: u64) -> u64
    requires { (t.names ≤ names_room) × (t.object < t.names) × (left < t.names) × (right < t.names) × Prepared pairs.now marks.now t }
    ensures { result ≡ number_of (supertype (view_of pairs.now marks.now t) left right) }
{
    let a = ancestors_of(pairs, marks, t, left);
    if a.has(right) {
        return right;
    }
    let b = ancestors_of(pairs, marks, t, right);
    if b.has(left) {
        return left;
    }
    let low = lowest_of(pairs, marks, t, left, right, a.intersection(b));
    nearest_of(pairs, marks, t, left, right, low)
}

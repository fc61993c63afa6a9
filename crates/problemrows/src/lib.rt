// A problem, row by row: a row is checked and taken into the sorted entries of its kind, or refused with nothing changed.
// Bounds are kept as keys, pairs as first * 512 + second, variables in the order given.
#![tactic(auto)]

ghost use Rattle.std.specs.Prelude.{◌≡◌, ◌≤◌, ◌<◌, length, take};
ghost use Rattle.sorted.specs.Sorted.{Sorted};
ghost use Rattle.ty.specs.Words.{Legal, type_of};
ghost use Rattle.keys.specs.Rank.{key};
ghost use Rattle.problemrows.specs.ProblemRows.{count_refusal, variable_refusal, variable_row, entry_row, pair_row, bound_row, Adds};

use keys::key_of;
use sorted::Put;
use ty::{TypeWord, is_legal};

// How many there may be. Reads and writes have one room together.
pub const COMPONENTS: u64 = 512;

pub const VARIABLES: usize = 2048;

pub const BOUNDS: usize = 4096;

pub const FLOWS: usize = 2048;

pub const UPPER_FLOWS: usize = 1024;

pub const ARRAYS: usize = 1024;

// What a row comes to: 0 or its refusal, and how many entries of its kind there are then.
#[derive(Clone, Copy)]
pub struct Added {
    pub refusal: u64,
    pub count: usize,
}

// The refusal of the count of components.
pub fn check_count(components: u64) -> u64
    ensures { result ≡ count_refusal components }
{
    if COMPONENTS < components {
        return 8;
    }
    0
}

// The refusal of a variable, n being there.
pub fn check_variable(components: u64, n: usize, component: u64) -> u64
    ensures { result ≡ variable_refusal components n component }
{
    if components <= component {
        return 6;
    }
    if VARIABLES <= n {
        return 8;
    }
    0
}

pub fn add_variable(components: u64, variables: &mut [u64], n: usize, component: u64) -> Added
    requires { (n ≤ length variables.old) × (2048 ≤ length variables.old) }
    ensures { Adds (variable_row components component (take n variables.old)) variables.old variables.new result }
{
    let refusal = check_variable(components, n, component);
    if refusal != 0 {
        return Added { refusal, count: n };
    }
    variables[n] = component;
    Added {
        refusal: 0,
        count: n + 1,
    }
}

// Puts x among the n entries, of which there may be `room`.
fn put_entry(entries: &mut [u64], n: usize, room: usize, x: u64) -> Added
    requires { (n ≤ room) × (room ≤ length entries.old) × Sorted (take n entries.old) }
    ensures { Adds (entry_row room x (take n entries.old)) entries.old entries.new result }
{
    let p = sorted::insert(&mut entries[0..room], n, x);
    match p {
        Put::Old => Added {
            refusal: 0,
            count: n,
        },
        Put::New => Added {
            refusal: 0,
            count: n + 1,
        },
        Put::Full => Added {
            refusal: 8,
            count: n,
        },
    }
}

// A pair of components: a flow, an upper flow, a read or a write.
pub fn add_pair(
    components: u64,
    pairs: &mut [u64],
    n: usize,
    room: usize,
    first: u64,
    second: u64,
) -> Added
    requires { (components ≤ 512) × (n ≤ room) × (room ≤ length pairs.old) × Sorted (take n pairs.old) }
    ensures { Adds (pair_row components room first second (take n pairs.old)) pairs.old pairs.new result }
{
    if components <= first {
        return Added {
            refusal: 6,
            count: n,
        };
    }
    if components <= second {
        return Added {
            refusal: 6,
            count: n,
        };
    }
    put_entry(pairs, n, room, first * COMPONENTS + second)
}

// The key of a bound, put.
fn put_bound(bounds: &mut [u64], n: usize, component: u64, kind: u64, word: u64) -> Added
    requires { (component < 512) × (kind < 8) × Legal word × (n ≤ 4096) × (4096 ≤ length bounds.old) × Sorted (take n bounds.old) }
    ensures { Adds (entry_row 4096 (key component kind (type_of word)) (take n bounds.old)) bounds.old bounds.new result }
{
    let x = key_of(component, kind, TypeWord { word });
    put_entry(bounds, n, BOUNDS, x)
}

// A bound: a type of one kind on a component.
pub fn add_bound(
    names: u64,
    components: u64,
    bounds: &mut [u64],
    n: usize,
    component: u64,
    kind: u64,
    word: u64,
) -> Added
    requires { (names ≤ 1024) × (components ≤ 512) × (n ≤ 4096) × (4096 ≤ length bounds.old) × Sorted (take n bounds.old) }
    ensures { Adds (bound_row names components component kind word (take n bounds.old)) bounds.old bounds.new result }
{
    if components <= component {
        return Added {
            refusal: 6,
            count: n,
        };
    }
    if 4 < kind {
        return Added {
            refusal: 6,
            count: n,
        };
    }
    if is_legal(word, names) {
        return put_bound(bounds, n, component, kind, word);
    }
    Added {
        refusal: 7,
        count: n,
    }
}

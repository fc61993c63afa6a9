// Records of a layer that is over others. The two slices hold what all layers together show, as those of a plain table do; beside them stand the
// classes that the topmost layer records and how many keys are theirs. The first record of a class takes the keys of the layers below away.
#![tactic(auto)]

ghost use Rattle.std.specs.Prelude.{◌≡◌, ◌-◌, ◌≤◌, ◌<◌, ltb, length, take, replicate};
ghost use Rattle.sorted.specs.Sorted.{Sorted};
ghost use Rattle.tables.specs.Table.{names_room, pairs_room};
ghost use Rattle.rows.specs.Rows.{Below, put_all, record_refusal, filled, fresh_in};
ghost use Rattle.layers.specs.Layers.{keys_inside, keys_without, keys_left, layer_ran, layered_of, Roomy, FillsLayer};
ghost use Rattle.layers.specs.Stacks.{stack_ran, stack_of, Holds, FillsStack, opened_tables};

use rows::{add_record, check_numbers, fresh, put_marks, put_pairs};
use sets::Set;
use tables::{NAMES, PAIRS, Tables};

// How many keys the layers show together at most.
pub const SHOWN: usize = 16384;

// Of the topmost layer: the classes that it records, and how many keys are theirs.
#[derive(Clone, Copy)]
pub struct Layer {
    pub own: Set,
    pub keys: usize,
}

// What a record comes to: 0 and the table with it, or its refusal and the table as it was.
#[derive(Clone, Copy)]
pub struct LayerOutcome {
    pub refusal: u64,
    pub tables: Tables,
    pub layer: Layer,
}

// Of a stack: the numbers of what its layers together show, its topmost layer, and how many layers lie below that.
#[derive(Clone, Copy)]
pub struct StackTables {
    pub tables: Tables,
    pub layer: Layer,
    pub under: u64,
}

// What a row comes to: 0 and the stack with it, or its refusal and the stack as it was.
#[derive(Clone, Copy)]
pub struct StackOutcome {
    pub refusal: u64,
    pub stack: StackTables,
}

// Takes the keys of a class away, and tells how many are left.
fn take_away(pairs: &mut [u64], n: usize, class: u64) -> usize
    requires { (class < names_room) × (n ≤ length pairs.old) × Sorted (take n pairs.old) }
    ensures { (result ≡ length (keys_without class (take n pairs.old))) × (pairs.new ≡ filled (keys_without class (take n pairs.old)) pairs.old) }
{
    let run = sorted::run(pairs, n, NAMES, class);
    pairs.copy_within(run.past..n, run.first);
    n - (run.past - run.first)
}

// Takes the keys away that lie below a record of a class.
fn uncover(pairs: &mut [u64], n: usize, class: u64, own: Set) -> usize
    requires { (class < names_room) × (n ≤ length pairs.old) × Sorted (take n pairs.old) }
    ensures { (result ≡ length (keys_left own.words class (take n pairs.old))) × (pairs.new ≡ filled (keys_left own.words class (take n pairs.old)) pairs.old) }
{
    if own.has(class) {
        return n;
    }
    take_away(pairs, n, class)
}

// The parents whose pair the layer has not yet.
fn fresh_in_layer(pairs: &[u64], n: usize, class: u64, parents: &[u64], own: Set) -> Set
    requires { (class < names_room) × Below names_room parents.now × Sorted (take n pairs.now) }
    ensures { result.words ≡ fresh_in (keys_inside own.words (take n pairs.now)) class parents.now (replicate 16 0) }
{
    if own.has(class) {
        return fresh(pairs, n, class, parents);
    }
    fresh(pairs, 0, class, parents)
}

// Whether the layer has no room for the new pairs. They are counted only where a pair for each parent might not fit.
fn is_full(pairs: &[u64], n: usize, class: u64, parents: &[u64], layer: Layer) -> bool
    requires { (class < names_room) × Below names_room parents.now × Sorted (take n pairs.now) × (layer.keys ≡ length (keys_inside layer.own.words (take n pairs.now))) × (layer.keys ≤ pairs_room) }
    ensures { result ≡ ltb pairs_room (length (put_all class parents.now (keys_inside layer.own.words (take n pairs.now)))) }
{
    let room = PAIRS - layer.keys;
    if parents.len() <= room {
        return false;
    }
    let s = fresh_in_layer(pairs, n, class, parents, layer.own);
    (room as u64) < s.count()
}

// The refusal of a record; 0 where there is none.
fn check_record(
    flags: u64,
    class: u64,
    parents: &[u64],
    pairs: &[u64],
    t: Tables,
    layer: Layer,
) -> u64
    requires { (t.names ≤ names_room) × Sorted (take t.pairs pairs.now) × (layer.keys ≡ length (keys_inside layer.own.words (take t.pairs pairs.now))) × (layer.keys ≤ pairs_room) }
    ensures { result ≡ record_refusal t.names (keys_inside layer.own.words (take t.pairs pairs.now)) flags class parents.now }
{
    let refusal = check_numbers(flags, class, parents, t.names);
    if refusal != 0 {
        return refusal;
    }
    if is_full(pairs, t.pairs, class, parents, layer) {
        return 8;
    }
    0
}

// A record of a class in the topmost layer: taken whole, or refused with nothing changed.
pub fn add_layer_record(
    flags: u64,
    class: u64,
    parents: &[u64],
    pairs: &mut [u64],
    marks: &mut [u64],
    t: Tables,
    layer: Layer,
) -> LayerOutcome
    requires { Roomy pairs.old marks.old t layer }
    ensures { FillsLayer (layer_ran (layered_of pairs.old marks.old t layer) flags class parents.now) pairs.old pairs.new marks.new result }
{
    let refusal = check_record(flags, class, parents, pairs, t, layer);
    if refusal != 0 {
        return LayerOutcome {
            refusal,
            tables: t,
            layer,
        };
    }
    let left = uncover(pairs, t.pairs, class, layer.own);
    let n = put_pairs(pairs, left, class, parents);
    put_marks(marks, flags, class);
    let grown = Layer {
        own: layer.own.with(class),
        keys: layer.keys + (n - left),
    };
    LayerOutcome {
        refusal: 0,
        tables: Tables { pairs: n, ..t },
        layer: grown,
    }
}

// On the lowest layer, which is a plain table.
fn add_to_lowest(
    flags: u64,
    class: u64,
    parents: &[u64],
    pairs: &mut [u64],
    marks: &mut [u64],
    s: StackTables,
) -> StackOutcome
    requires { Holds pairs.old marks.old s × (s.under ≡ 0) }
    ensures { FillsStack (stack_ran (stack_of pairs.old marks.old s) flags class parents.now) pairs.old pairs.new marks.new result }
{
    let o = add_record(flags, class, parents, &mut pairs[0..PAIRS], marks, s.tables);
    StackOutcome {
        refusal: o.refusal,
        stack: StackTables {
            tables: o.tables,
            ..s
        },
    }
}

// On a layer above others.
fn add_to_layer(
    flags: u64,
    class: u64,
    parents: &[u64],
    pairs: &mut [u64],
    marks: &mut [u64],
    s: StackTables,
) -> StackOutcome
    requires { Holds pairs.old marks.old s × (1 ≤ s.under) }
    ensures { FillsStack (stack_ran (stack_of pairs.old marks.old s) flags class parents.now) pairs.old pairs.new marks.new result }
{
    let o = add_layer_record(flags, class, parents, pairs, marks, s.tables, s.layer);
    StackOutcome {
        refusal: o.refusal,
        stack: StackTables {
            tables: o.tables,
            layer: o.layer,
            ..s
        },
    }
}

// A record of a class in the topmost layer: taken whole, or refused with nothing changed.
pub fn add_to_stack(
    flags: u64,
    class: u64,
    parents: &[u64],
    pairs: &mut [u64],
    marks: &mut [u64],
    s: StackTables,
) -> StackOutcome
    requires { Holds pairs.old marks.old s }
    ensures { FillsStack (stack_ran (stack_of pairs.old marks.old s) flags class parents.now) pairs.old pairs.new marks.new result }
{
    if s.under == 0 {
        return add_to_lowest(flags, class, parents, pairs, marks, s);
    }
    add_to_layer(flags, class, parents, pairs, marks, s)
}

// A layer more, without a record; a fifth is refused.
pub fn open_layer(s: StackTables) -> StackOutcome
    ensures { result ≡ opened_tables s }
{
    if 3 <= s.under {
        return StackOutcome {
            refusal: 8,
            stack: s,
        };
    }
    let layer = Layer {
        own: Set::empty(),
        keys: 0,
    };
    StackOutcome {
        refusal: 0,
        stack: StackTables {
            layer,
            under: s.under + 1,
            ..s
        },
    }
}

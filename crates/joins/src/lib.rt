// Joins of types, from lattice.rs, on type words: the table of the joins of primitives, the lists of categories, and the join of
// two types and of a list.
#![tactic(auto)]

ghost use Rattle.std.specs.Prelude.{◌≡◌, true, false, cond, [], ◌∷◌, map, ◌*◌, ◌/◌, ◌^◌, ◌≤◌, ◌<◌};
ghost use Rattle.tables.specs.Table.{names_room};
ghost use Rattle.prepared.specs.Prepared.{Prepared};
ghost use Rattle.ty.specs.Types.{Object, categories, is_known};
ghost use Rattle.ty.specs.Words.{Legal, type_of, word_of, list_of};
ghost use Rattle.ty.specs.Answers.{maybe_word};
ghost use Rattle.ty.specs.Round.{list_load};
ghost use Rattle.lattice.specs.Lattice.{unknown_union, in_both, or_full, join_known, join_apart, join, join_all};
ghost use Rattle.lattice.specs.JoinTable.{cell};
ghost use Rattle.lattice.specs.JoinCases.{join_array_other};
ghost use Rattle.lattice.specs.Unions.{kept};
ghost use Rattle.lattice.specs.World.{world_of};
ghost use Rattle.lattice.specs.JoinAll.{Ascend};
ghost use Rattle.joins.specs.Joins.{with_first, Fits, Joinable, Apart, Known, Base, both_arrays, AllLegal};

use tables::Tables;
use ty::{DIMENSION, LENGTH, TAG, TypeWord, digit};

// The tag of an Unknown in its place, and the place of a list's first member.
const UNKNOWN: u64 = 2 << 48;

const FIRST: u64 = 1 << 40;

// The joins of primitives, rows by the left category. Two equal ones join to themselves.
const JOINS: [[u64; 11]; 11] = [
    [
        0,
        0x0002201000000000,
        0x0002202000000000,
        0x0002203000000000,
        0x0002204000000000,
        0x0002205000000000,
        0x0002206000000000,
        0x0002207000000000,
        0x0002208000000000,
        0x0002209000000000,
        0x000220a000000000,
    ],
    [
        0x0002210000000000,
        1,
        0x0002212000000000,
        0x0002213000000000,
        0x0002214000000000,
        0x0002215000000000,
        0x0002216000000000,
        0x0002217000000000,
        0x0002218000000000,
        0x0002219000000000,
        0x000221a000000000,
    ],
    [
        0x0002220000000000,
        0x0002221000000000,
        2,
        TypeWord::INT.word,
        TypeWord::INT.word,
        TypeWord::INT.word,
        TypeWord::LONG.word,
        TypeWord::FLOAT.word,
        TypeWord::DOUBLE.word,
        0x0002229000000000,
        0x000222a000000000,
    ],
    [
        0x0002230000000000,
        0x0002231000000000,
        TypeWord::INT.word,
        3,
        TypeWord::INT.word,
        TypeWord::INT.word,
        TypeWord::LONG.word,
        TypeWord::FLOAT.word,
        TypeWord::DOUBLE.word,
        0x0002239000000000,
        0x000223a000000000,
    ],
    [
        0x0002240000000000,
        0x0002241000000000,
        TypeWord::INT.word,
        TypeWord::INT.word,
        4,
        TypeWord::INT.word,
        TypeWord::LONG.word,
        TypeWord::FLOAT.word,
        TypeWord::DOUBLE.word,
        0x0002249000000000,
        0x000224a000000000,
    ],
    [
        0x0002250000000000,
        0x0002215000000000,
        TypeWord::INT.word,
        TypeWord::INT.word,
        TypeWord::INT.word,
        TypeWord::INT.word,
        TypeWord::LONG.word,
        TypeWord::FLOAT.word,
        TypeWord::DOUBLE.word,
        0x0002259000000000,
        0x000225a000000000,
    ],
    [
        0x0002260000000000,
        0x0002261000000000,
        TypeWord::LONG.word,
        TypeWord::LONG.word,
        TypeWord::LONG.word,
        TypeWord::LONG.word,
        TypeWord::LONG.word,
        0x0002267000000000,
        TypeWord::DOUBLE.word,
        0x0002269000000000,
        0x000226a000000000,
    ],
    [
        0x0002270000000000,
        0x0002271000000000,
        TypeWord::FLOAT.word,
        TypeWord::FLOAT.word,
        TypeWord::FLOAT.word,
        TypeWord::FLOAT.word,
        0x0002276000000000,
        TypeWord::FLOAT.word,
        TypeWord::DOUBLE.word,
        0x0002279000000000,
        0x000227a000000000,
    ],
    [
        0x0002280000000000,
        0x0002281000000000,
        TypeWord::DOUBLE.word,
        TypeWord::DOUBLE.word,
        TypeWord::DOUBLE.word,
        TypeWord::DOUBLE.word,
        TypeWord::DOUBLE.word,
        TypeWord::DOUBLE.word,
        TypeWord::DOUBLE.word,
        0x0002289000000000,
        0x000228a000000000,
    ],
    [
        0x0002290000000000,
        0x0002291000000000,
        0x0002292000000000,
        0x0002293000000000,
        0x0002294000000000,
        0x0002295000000000,
        0x0002296000000000,
        0x0002297000000000,
        0x0002298000000000,
        9,
        0x000229a000000000,
    ],
    [
        0x00022a0000000000,
        0x00022a1000000000,
        0x00022a2000000000,
        0x00022a3000000000,
        0x00022a4000000000,
        0x00022a5000000000,
        0x00022a6000000000,
        0x00022a7000000000,
        0x00022a8000000000,
        0x00022a9000000000,
        10,
    ],
];

// The join of two primitives, by the table.
fn join_primitives(left: u64, right: u64) -> TypeWord
    requires { (left < 11) × (right < 11) }
    ensures { result.word ≡ cell left right }
{
    TypeWord {
        word: JOINS[left as usize][right as usize],
    }
}

// The payload of a list with c before it, where c is to be kept.
fn keep(load: u64, c: u64, is_kept: bool) -> u64
    requires { (load < 11 * 2 ^ 44) × (c < 16) }
    ensures { result ≡ cond is_kept (with_first c load) load }
{
    if is_kept {
        return (load / LENGTH + 1) * LENGTH + c * FIRST + load % LENGTH / 16;
    }
    load
}

// The payload of the members of a list that the set has, in the list's order: from the last to the first.
fn keep_members(load: u64, set: u64) -> u64
    requires { load / 2 ^ 44 ≤ 11 }
    ensures { (result ≡ list_load (kept set (list_of load))) × (result < 2 ^ 48) }
{
    let mut found: u64 = 0;
    for i in (0..load / LENGTH).rev() {
        let c = digit(load, i);
        found = keep(found, c, (set >> c) % 2 == 1);
    }
    found
}

// The Unknown of the categories of both, ascending.
fn unknown_union(left: TypeWord, right: TypeWord) -> TypeWord
    requires { Legal left.word × Legal right.word }
    ensures { result.word ≡ word_of (unknown_union (type_of left.word) (type_of right.word)) }
{
    let load = keep_members(0xb0123456789a, left.categories() | right.categories());
    TypeWord {
        word: UNKNOWN + load,
    }
}

// The Unknown of the members of the first one's list that the second has; the full one where there are none.
fn in_both(left: TypeWord, right: TypeWord) -> TypeWord
    requires { Legal left.word × Legal right.word × (is_known (type_of left.word) ≡ false) }
    ensures { result.word ≡ word_of (or_full (in_both (categories (type_of left.word)) (categories (type_of right.word)))) }
{
    let load = keep_members(left.load(), right.categories());
    if load == 0 {
        return TypeWord::UNKNOWN;
    }
    TypeWord {
        word: UNKNOWN + load,
    }
}

// The category of a known type.
fn category(t: TypeWord) -> u64
    requires { Legal t.word × (is_known (type_of t.word) ≡ true) }
    ensures { (categories (type_of t.word) ≡ result ∷ []) × (result < 11) }
{
    let w = t.word;
    if DIMENSION <= w {
        return 10;
    }
    if w / TAG % 256 == 0 {
        return w % TAG;
    }
    9
}

// A known type with an Unknown: the known one where the Unknown accepts it, else the categories of both.
fn join_known(known: TypeWord, unknown: TypeWord) -> TypeWord
    requires { Legal known.word × Legal unknown.word × (is_known (type_of known.word) ≡ true) }
    ensures { result.word ≡ word_of (join_known (type_of known.word) (categories (type_of unknown.word))) }
{
    let c = category(known);
    if (unknown.categories() >> c) % 2 == 1 {
        return known;
    }
    unknown_union(known, unknown)
}

// An array and a known type that is none: Object where that is Object, else the categories of both.
fn join_array(object: u64, array: TypeWord, other: TypeWord) -> TypeWord
    requires { Legal array.word × Legal other.word × (object < names_room) }
    ensures { result.word ≡ word_of (join_array_other object (type_of array.word) (type_of other.word)) }
{
    if other.word == TAG + object {
        return TypeWord::object(object);
    }
    unknown_union(array, other)
}

// Two classes: their least common supertype.
fn join_classes(pairs: &[u64], marks: &[u64], t: Tables, left: u64, right: u64) -> TypeWord
    requires { Fits t × (left < t.names) × (right < t.names) × Prepared pairs.now marks.now t }
    ensures { result.word ≡ word_of (join_apart (world_of pairs.now marks.now t) (Object left) (Object right)) }
{
    let c = supertype::supertype(pairs, marks, t, left, right);
    TypeWord::object(c)
}

// Two known types that are no arrays.
fn join_bases(pairs: &[u64], marks: &[u64], t: Tables, left: TypeWord, right: TypeWord) -> TypeWord
    requires { Apart pairs.now marks.now t left.word right.word × Base left.word × Base right.word }
    ensures { result.word ≡ word_of (join (world_of pairs.now marks.now t) (type_of left.word) (type_of right.word)) }
{
    if left.is_primitive() {
        if right.is_primitive() {
            return join_primitives(left.load(), right.load());
        }
        return unknown_union(left, right);
    }
    if right.is_primitive() {
        return unknown_union(left, right);
    }
    join_classes(pairs, marks, t, left.load(), right.load())
}

// Two known types, of which one at most is an array.
fn join_knowns(pairs: &[u64], marks: &[u64], t: Tables, left: TypeWord, right: TypeWord) -> TypeWord
    requires { Apart pairs.now marks.now t left.word right.word × Known left.word × Known right.word × (both_arrays left.word right.word ≡ false) }
    ensures { result.word ≡ word_of (join (world_of pairs.now marks.now t) (type_of left.word) (type_of right.word)) }
{
    if left.is_array() {
        return join_array(t.object, left, right);
    }
    if right.is_array() {
        return join_array(t.object, right, left);
    }
    join_bases(pairs, marks, t, left, right)
}

// Two types that are not equal, of which one at most is an array.
fn join_apart(pairs: &[u64], marks: &[u64], t: Tables, left: TypeWord, right: TypeWord) -> TypeWord
    requires { Apart pairs.now marks.now t left.word right.word × (both_arrays left.word right.word ≡ false) }
    ensures { result.word ≡ word_of (join (world_of pairs.now marks.now t) (type_of left.word) (type_of right.word)) }
{
    if left.is_known() {
        if right.is_known() {
            return join_knowns(pairs, marks, t, left, right);
        }
        return join_known(left, right);
    }
    if right.is_known() {
        return join_known(right, left);
    }
    in_both(left, right)
}

fn both_arrays(left: TypeWord, right: TypeWord) -> bool
    ensures { result ≡ both_arrays left.word right.word }
{
    if left.is_array() {
        return right.is_array();
    }
    false
}

// The join of two types over the class table.
#[cycle(join_join_arrays)]
pub fn join(pairs: &[u64], marks: &[u64], t: Tables, left: TypeWord, right: TypeWord) -> TypeWord
    requires { Joinable pairs.now marks.now t left.word right.word }
    ensures { result.word ≡ word_of (join (world_of pairs.now marks.now t) (type_of left.word) (type_of right.word)) }
{
    if left.word == right.word {
        return left;
    }
    if both_arrays(left, right) {
        return join_arrays(pairs, marks, t, left, right);
    }
    join_apart(pairs, marks, t, left, right)
}

// Two arrays that are not equal: Object where an element is a primitive, else the array of the elements' join.
#[cycle(join_join_arrays)]
fn join_arrays(pairs: &[u64], marks: &[u64], t: Tables, left: TypeWord, right: TypeWord) -> TypeWord
    requires { Apart pairs.now marks.now t left.word right.word × (2 ^ 56 ≤ left.word) × (2 ^ 56 ≤ right.word) }
    ensures { result.word ≡ word_of (join (world_of pairs.now marks.now t) (type_of left.word) (type_of right.word)) }
{
    let a = TypeWord {
        word: left.word - DIMENSION,
    };
    let b = TypeWord {
        word: right.word - DIMENSION,
    };
    if a.is_primitive() {
        return TypeWord::object(t.object);
    }
    if b.is_primitive() {
        return TypeWord::object(t.object);
    }
    let e = join(pairs, marks, t, a, b);
    TypeWord {
        word: e.word + DIMENSION,
    }
}

// The join of a list of types, from the first on; of none there is none. The order matters, and the Rust sorts its list: here a list
// comes as the set that it is, in order (specs/JoinAll of lattice: then the sort changes nothing).
pub fn join_all(pairs: &[u64], marks: &[u64], t: Tables, words: &[u64]) -> Option<TypeWord>
    requires { Fits t × AllLegal t words.now × Ascend (map type_of words.now) × Prepared pairs.now marks.now t }
    ensures { result ≡ maybe_word (join_all (world_of pairs.now marks.now t) (map type_of words.now)) }
{
    if words.len() == 0 {
        return None;
    }
    let mut all = TypeWord { word: words[0] };
    for &word in &words[1..] {
        all = join(pairs, marks, t, all, TypeWord { word });
    }
    Some(all)
}

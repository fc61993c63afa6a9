// Assignability of lattice.rs on type words: what an Unknown accepts, primitives, classes and arrays. The class tables are those of
// the crate hierarchy; every word is legal for at most 1,024 names.
#![tactic(auto)]

ghost use Rattle.std.specs.Prelude.{◌≡◌, true, false, ◌&&◌, [], ◌^◌, ◌≤◌, ◌<◌};
ghost use Rattle.tables.specs.Table.{names_room};
ghost use Rattle.prepared.specs.Prepared.{Prepared};
ghost use Rattle.ty.specs.Types.{Object, categories, is_known, is_array};
ghost use Rattle.ty.specs.Words.{Legal, type_of};
ghost use Rattle.lattice.specs.Lattice.{not_no, unknown_accepts, primitive_assignable, array_parent, assignable_apart, is_assignable};
ghost use Rattle.lattice.specs.World.{world_of};

use tables::Tables;
use ty::{DIMENSION, TypeWord};
use view::Relation;

// Whether the categories of `listed` (an Unknown's list) accept the type: its set is the union of both.
pub fn unknown_accepts(listed: TypeWord, t: TypeWord) -> bool
    requires { Legal listed.word × Legal t.word }
    ensures { result ≡ unknown_accepts (categories (type_of listed.word)) (type_of t.word) }
{
    let list = listed.categories();
    let given = t.categories();
    given | list == list
}

// Byte, Short, Char, Int, Long, Float, Double are 2 to 8: to a later one that is not Char.
pub fn primitive_assignable(value: u64, expected: u64) -> bool
    ensures { result ≡ primitive_assignable value expected }
{
    if expected == 4 {
        return false;
    }
    if 8 < expected {
        return false;
    }
    if value < 2 {
        return false;
    }
    value < expected
}

// Whether every array is assignable to the class: Object, Cloneable, Serializable.
fn array_parent(t: Tables, class: u64) -> bool
    requires { class < names_room }
    ensures { result ≡ array_parent (world_of [] [] t) class }
{
    if class == t.object {
        return true;
    }
    if class == t.cloneable {
        return true;
    }
    class == t.serializable
}

// What is not known of the classes counts as assignable.
pub fn not_no(r: Relation) -> bool
    ensures { result ≡ not_no r }
{
    match r {
        Relation::Yes => true,
        Relation::No => false,
        Relation::Unknown => true,
    }
}

// A known type to a class.
fn to_class(pairs: &[u64], marks: &[u64], t: Tables, value: TypeWord, class: u64) -> bool
    requires { Prepared pairs.now marks.now t × (is_known (type_of value.word) ≡ true) × (class < names_room) }
    ensures { result ≡ assignable_apart (world_of pairs.now marks.now t) (type_of value.word) (Object class) }
{
    if value.is_array() {
        return array_parent(t, class);
    }
    if value.is_object() {
        let r = prepared::relation_of(pairs, marks, t, value.load(), class);
        return not_no(r);
    }
    false
}

// Two known types that are not both arrays, and not equal.
fn known_assignable(
    pairs: &[u64],
    marks: &[u64],
    t: Tables,
    value: TypeWord,
    expected: TypeWord,
) -> bool
    requires { Prepared pairs.now marks.now t × Legal expected.word × (is_known (type_of value.word) ≡ true) × (is_known (type_of expected.word) ≡ true) × ((is_array (type_of value.word) && is_array (type_of expected.word)) ≡ false) }
    ensures { result ≡ assignable_apart (world_of pairs.now marks.now t) (type_of value.word) (type_of expected.word) }
{
    if expected.is_object() {
        return to_class(pairs, marks, t, value, expected.load());
    }
    if value.is_primitive() {
        if expected.is_primitive() {
            return primitive_assignable(value.load(), expected.load());
        }
        return false;
    }
    false
}

// Two types that are not both arrays, and not equal.
fn bases_assignable(
    pairs: &[u64],
    marks: &[u64],
    t: Tables,
    value: TypeWord,
    expected: TypeWord,
) -> bool
    requires { Prepared pairs.now marks.now t × Legal value.word × Legal expected.word × ((is_array (type_of value.word) && is_array (type_of expected.word)) ≡ false) }
    ensures { result ≡ assignable_apart (world_of pairs.now marks.now t) (type_of value.word) (type_of expected.word) }
{
    if expected.is_known() {
        if value.is_known() {
            return known_assignable(pairs, marks, t, value, expected);
        }
        return unknown_accepts(value, expected);
    }
    unknown_accepts(expected, value)
}

fn are_arrays(left: TypeWord, right: TypeWord) -> bool
    ensures { result ≡ (is_array (type_of left.word) && is_array (type_of right.word)) }
{
    if left.is_array() {
        return right.is_array();
    }
    false
}

// Whether a value of one type may stand where another is expected.
#[cycle(array_rule_is_assignable)]
pub fn is_assignable(
    pairs: &[u64],
    marks: &[u64],
    t: Tables,
    value: TypeWord,
    expected: TypeWord,
) -> bool
    requires { Prepared pairs.now marks.now t × Legal value.word × Legal expected.word }
    ensures { result ≡ is_assignable (world_of pairs.now marks.now t) (type_of value.word) (type_of expected.word) }
{
    if value.word == expected.word {
        return true;
    }
    if are_arrays(value, expected) {
        return array_rule(pairs, marks, t, value, expected);
    }
    bases_assignable(pairs, marks, t, value, expected)
}

// Two arrays: equal primitives, no mix with a primitive, else the question about the elements.
#[cycle(array_rule_is_assignable)]
fn array_rule(pairs: &[u64], marks: &[u64], t: Tables, value: TypeWord, expected: TypeWord) -> bool
    requires { Prepared pairs.now marks.now t × Legal value.word × Legal expected.word × (2 ^ 56 ≤ value.word) × (2 ^ 56 ≤ expected.word) }
    ensures { result ≡ assignable_apart (world_of pairs.now marks.now t) (type_of value.word) (type_of expected.word) }
{
    let v = value.word - DIMENSION;
    let e = expected.word - DIMENSION;
    let inner = TypeWord { word: v };
    let wanted = TypeWord { word: e };
    if inner.is_primitive() {
        if wanted.is_primitive() {
            return v == e;
        }
        return false;
    }
    if wanted.is_primitive() {
        return false;
    }
    is_assignable(pairs, marks, t, inner, wanted)
}

// What lattice.rs asks of a candidate type and the bounds on a value: whether a producer's type can stand for another, whether what
// was observed accepts it, whether it is assignable to every upper bound, and which upper bound is the most specific.
#![tactic(auto)]

ghost use Rattle.std.specs.Prelude.{◌≡◌, true, false, cond, ◌&&◌, map, ◌<◌};
ghost use Rattle.std.proofs.Math.Option.{some};
ghost use Rattle.tables.specs.Table.{names_room};
ghost use Rattle.prepared.specs.Prepared.{Prepared};
ghost use Rattle.ty.specs.Types.{is_reference, concrete_hint};
ghost use Rattle.ty.specs.Words.{Legal, tag_of, type_of};
ghost use Rattle.ty.specs.Answers.{maybe_word};
ghost use Rattle.lattice.specs.Lattice.{producer_bound_compatible, same_register_category, observed_accepts, any_accepts, domain_accepts, assignable_to_all, lesser, candidate, most_specific_upper};
ghost use Rattle.lattice.specs.World.{world_of};
ghost use Rattle.candidates.specs.Maybe.{AllLegal, LegalMaybe, maybe_type};
ghost use Rattle.candidates.specs.Groups.{head_of, ClassAt, Stands, Grouped, Adds, Takes, BestIs};

use assignable::{is_assignable, not_no, unknown_accepts};
use sets::Set;
use std::cmp::Ordering;
use tables::{NAMES, Tables};
use ty::{TAG, TypeWord};

// From how many upper bounds on those of one head are asked at once. One to three are the common case, and cheaper two by two.
const MANY: usize = 4;

fn are_references(left: TypeWord, right: TypeWord) -> bool
    ensures { result ≡ (is_reference (type_of left.word) && is_reference (type_of right.word)) }
{
    if left.is_reference() {
        return right.is_reference();
    }
    false
}

// Whether a producer's type can stand where another is expected: any two references, else what is assignable.
pub fn producer_bound_compatible(
    pairs: &[u64],
    marks: &[u64],
    t: Tables,
    produced: TypeWord,
    expected: TypeWord,
) -> bool
    requires { Prepared pairs.now marks.now t × Legal produced.word × Legal expected.word }
    ensures { result ≡ producer_bound_compatible (world_of pairs.now marks.now t) (type_of produced.word) (type_of expected.word) }
{
    if are_references(produced, expected) {
        return true;
    }
    is_assignable(pairs, marks, t, produced, expected)
}

// Whether two known types take the same kind of register: two references, or two primitives that are both wide or both not.
fn same_register_category(left: TypeWord, right: TypeWord) -> bool
    ensures { result ≡ same_register_category (type_of left.word) (type_of right.word) }
{
    if are_references(left, right) {
        return true;
    }
    if left.is_primitive() {
        if right.is_primitive() {
            if left.is_wide() {
                return right.is_wide();
            }
            return !right.is_wide();
        }
        return false;
    }
    false
}

// Whether a type that was observed accepts a candidate.
fn observed_accepts(observed: TypeWord, candidate: TypeWord) -> bool
    requires { Legal observed.word × Legal candidate.word }
    ensures { result ≡ observed_accepts (type_of observed.word) (type_of candidate.word) }
{
    if observed.is_known() {
        if observed.word == candidate.word {
            return true;
        }
        return same_register_category(observed, candidate);
    }
    unknown_accepts(observed, candidate)
}

// Whether one of the observed types accepts it.
fn any_accepts(domain: &[u64], candidate: TypeWord) -> bool
    requires { AllLegal domain.now × Legal candidate.word }
    ensures { result ≡ any_accepts (map type_of domain.now) (type_of candidate.word) }
{
    for &word in domain {
        if observed_accepts(TypeWord { word }, candidate) {
            return true;
        }
    }
    false
}

// Whether the observed types accept a candidate: one of them does, or there is none.
pub fn domain_accepts(domain: &[u64], candidate: TypeWord) -> bool
    requires { AllLegal domain.now × Legal candidate.word }
    ensures { result ≡ domain_accepts (map type_of domain.now) (type_of candidate.word) }
{
    if domain.len() == 0 {
        return true;
    }
    any_accepts(domain, candidate)
}

// The same question of each upper bound, from the last one: arrays stand behind classes, and the one with the most dimensions refuses most.
fn is_assignable_to_each(
    pairs: &[u64],
    marks: &[u64],
    t: Tables,
    candidate: TypeWord,
    upper: &[u64],
) -> bool
    requires { Prepared pairs.now marks.now t × Legal candidate.word × AllLegal upper.now }
    ensures { result ≡ assignable_to_all (world_of pairs.now marks.now t) (type_of candidate.word) (map type_of upper.now) }
{
    for &word in upper.iter().rev() {
        let other = TypeWord { word };
        if !is_assignable(pairs, marks, t, candidate, other) {
            return false;
        }
    }
    true
}

// Whether a class may stand where each class of a set is expected: one walk finds those that are its ancestors, and where one is left
// the answer about that one is the answer about all.
fn stands_for_all(pairs: &[u64], marks: &[u64], t: Tables, class: u64, s: Set) -> bool
    requires { Prepared pairs.now marks.now t }
    ensures { Stands (world_of pairs.now marks.now t) class s.words result }
{
    let others = s.without(class);
    let left = others.without(t.object);
    if left.lowest() == NAMES {
        return true;
    }
    let missing = left.difference(prepared::reached_from(pairs, marks, t, class));
    let first = missing.lowest();
    if first == NAMES {
        return true;
    }
    not_no(prepared::relation_of(pairs, marks, t, class, first))
}

// Upper bounds as the classes of one head meet them, that is, of one number of dimensions: those with the same head as a set of classes,
// and whether all the others take any of them, which the head alone decides.
#[derive(Clone, Copy)]
struct Group {
    head: u64,
    rest: bool,
    classes: Set,
}

// A group with one bound more.
fn with_other(
    pairs: &[u64],
    marks: &[u64],
    t: Tables,
    candidate: TypeWord,
    g: Group,
    other: TypeWord,
) -> Group
    requires { Prepared pairs.now marks.now t × ClassAt g.head candidate.word × Legal other.word }
    ensures { (result.head ≡ g.head) × Adds (world_of pairs.now marks.now t) g.head g.classes.words other.word result.rest result.classes.words }
{
    if other.word / TAG == g.head {
        return Group {
            rest: true,
            classes: g.classes.with(other.load()),
            ..g
        };
    }
    let rest = is_assignable(pairs, marks, t, candidate, other);
    Group { rest, ..g }
}

// The group of a candidate's head. Where one of the others refuses it, the rest is not looked at.
fn group_of(pairs: &[u64], marks: &[u64], t: Tables, candidate: TypeWord, upper: &[u64]) -> Group
    requires { Prepared pairs.now marks.now t × Legal candidate.word × (tag_of candidate.word ≡ 1) × AllLegal upper.now }
    ensures { (result.head ≡ head_of candidate.word) × Grouped (world_of pairs.now marks.now t) (map type_of upper.now) result.head result.rest result.classes.words }
{
    let mut g = Group {
        head: candidate.word / TAG,
        rest: true,
        classes: Set::empty(),
    };
    for &word in upper.iter().rev() {
        let other = TypeWord { word };
        let next = with_other(pairs, marks, t, candidate, g, other);
        if next.rest {
            g = next;
        } else {
            return next;
        }
    }
    g
}

// Whether the bounds of a group take a class of its head.
fn takes(pairs: &[u64], marks: &[u64], t: Tables, g: Group, candidate: TypeWord) -> bool
    requires { Prepared pairs.now marks.now t × ClassAt g.head candidate.word }
    ensures { Takes (world_of pairs.now marks.now t) g.head g.rest g.classes.words candidate.word result }
{
    if g.rest {
        return stands_for_all(pairs, marks, t, candidate.load(), g.classes);
    }
    false
}

// Whether a candidate is assignable to every upper bound: of many, a class asks all of its own head at once.
pub fn is_assignable_to_all(
    pairs: &[u64],
    marks: &[u64],
    t: Tables,
    candidate: TypeWord,
    upper: &[u64],
) -> bool
    requires { Prepared pairs.now marks.now t × Legal candidate.word × AllLegal upper.now }
    ensures { result ≡ assignable_to_all (world_of pairs.now marks.now t) (type_of candidate.word) (map type_of upper.now) }
{
    if MANY <= upper.len() {
        if candidate.tag() == 1 {
            let g = group_of(pairs, marks, t, candidate, upper);
            return takes(pairs, marks, t, g, candidate);
        }
        return is_assignable_to_each(pairs, marks, t, candidate, upper);
    }
    is_assignable_to_each(pairs, marks, t, candidate, upper)
}

// The lesser of two types in the order of types.
fn lesser_of(t: TypeWord, u: TypeWord) -> Option<TypeWord>
    requires { Legal t.word × Legal u.word }
    ensures { LegalMaybe result × (maybe_type result ≡ lesser (type_of t.word) (some (type_of u.word))) }
{
    match keys::compare_types(t, u) {
        Ordering::Less => Some(t),
        Ordering::Equal => Some(t),
        Ordering::Greater => Some(u),
    }
}

// The lesser of a type and the best so far, if there is one.
fn lesser(t: TypeWord, best: Option<TypeWord>) -> Option<TypeWord>
    requires { Legal t.word × LegalMaybe best }
    ensures { LegalMaybe result × (maybe_type result ≡ lesser (type_of t.word) (maybe_type best)) }
{
    match best {
        Some(u) => lesser_of(t, u),
        None => Some(t),
    }
}

// The lesser of a hint and the best so far, where the hint counts.
fn lesser_if(taken: bool, hint: TypeWord, best: Option<TypeWord>) -> Option<TypeWord>
    requires { Legal hint.word × LegalMaybe best }
    ensures { LegalMaybe result × (maybe_type result ≡ cond taken (lesser (type_of hint.word) (maybe_type best)) (maybe_type best)) }
{
    if taken {
        return lesser(hint, best);
    }
    best
}

// The better of a hint and the best so far: a hint counts if it is assignable to every upper bound.
fn with_hint(
    pairs: &[u64],
    marks: &[u64],
    t: Tables,
    upper: &[u64],
    hint: TypeWord,
    best: Option<TypeWord>,
) -> Option<TypeWord>
    requires { Prepared pairs.now marks.now t × AllLegal upper.now × Legal hint.word × LegalMaybe best }
    ensures { LegalMaybe result × (maybe_type result ≡ candidate (world_of pairs.now marks.now t) (map type_of upper.now) (some (type_of hint.word)) (maybe_type best)) }
{
    let taken = is_assignable_to_each(pairs, marks, t, hint, upper);
    lesser_if(taken, hint, best)
}

// The same for a bound, which may have no hint.
fn with_bound(
    pairs: &[u64],
    marks: &[u64],
    t: Tables,
    upper: &[u64],
    bound: TypeWord,
    best: Option<TypeWord>,
) -> Option<TypeWord>
    requires { Prepared pairs.now marks.now t × (t.object < names_room) × AllLegal upper.now × Legal bound.word × LegalMaybe best }
    ensures { LegalMaybe result × (maybe_type result ≡ candidate (world_of pairs.now marks.now t) (map type_of upper.now) (concrete_hint t.object (type_of bound.word)) (maybe_type best)) }
{
    let object = t.object;
    match bound.concrete_hint(object) {
        Some(hint) => with_hint(pairs, marks, t, upper, hint, best),
        None => best,
    }
}

// The least hint of an upper bound that is assignable to all of them, from the last bound to the first: every two are compared.
fn least_of_few(pairs: &[u64], marks: &[u64], t: Tables, upper: &[u64]) -> Option<TypeWord>
    requires { Prepared pairs.now marks.now t × (t.object < names_room) × AllLegal upper.now }
    ensures { result ≡ maybe_word (most_specific_upper (world_of pairs.now marks.now t) (map type_of upper.now)) }
{
    let mut best = None;
    for &word in upper.iter().rev() {
        let bound = TypeWord { word };
        best = with_bound(pairs, marks, t, upper, bound, best);
    }
    best
}

// The best so far among many, and the group of the class that was asked last: in the order of types those of one head are neighbours.
#[derive(Clone, Copy)]
struct Best {
    best: Option<TypeWord>,
    group: Group,
}

// The group of a hint's head: the one at hand where it is that.
fn group_for(
    pairs: &[u64],
    marks: &[u64],
    t: Tables,
    upper: &[u64],
    hint: TypeWord,
    g: Group,
) -> Group
    requires { Prepared pairs.now marks.now t × AllLegal upper.now × Legal hint.word × (tag_of hint.word ≡ 1) × Grouped (world_of pairs.now marks.now t) (map type_of upper.now) g.head g.rest g.classes.words }
    ensures { (result.head ≡ head_of hint.word) × Grouped (world_of pairs.now marks.now t) (map type_of upper.now) result.head result.rest result.classes.words }
{
    if hint.word / TAG == g.head {
        return g;
    }
    group_of(pairs, marks, t, hint, upper)
}

// The better of a hint that is a class, or its arrays, and the best so far.
fn with_class_hint(
    pairs: &[u64],
    marks: &[u64],
    t: Tables,
    upper: &[u64],
    hint: TypeWord,
    b: Best,
) -> Best
    requires { Prepared pairs.now marks.now t × AllLegal upper.now × Legal hint.word × (tag_of hint.word ≡ 1) × BestIs (world_of pairs.now marks.now t) (map type_of upper.now) b (maybe_type b.best) }
    ensures { BestIs (world_of pairs.now marks.now t) (map type_of upper.now) result (candidate (world_of pairs.now marks.now t) (map type_of upper.now) (some (type_of hint.word)) (maybe_type b.best)) }
{
    let group = group_for(pairs, marks, t, upper, hint, b.group);
    let taken = takes(pairs, marks, t, group, hint);
    Best {
        best: lesser_if(taken, hint, b.best),
        group,
    }
}

// The better of any hint and the best so far.
fn with_any_hint(
    pairs: &[u64],
    marks: &[u64],
    t: Tables,
    upper: &[u64],
    hint: TypeWord,
    b: Best,
) -> Best
    requires { Prepared pairs.now marks.now t × AllLegal upper.now × Legal hint.word × BestIs (world_of pairs.now marks.now t) (map type_of upper.now) b (maybe_type b.best) }
    ensures { BestIs (world_of pairs.now marks.now t) (map type_of upper.now) result (candidate (world_of pairs.now marks.now t) (map type_of upper.now) (some (type_of hint.word)) (maybe_type b.best)) }
{
    if hint.tag() == 1 {
        return with_class_hint(pairs, marks, t, upper, hint, b);
    }
    Best {
        best: with_hint(pairs, marks, t, upper, hint, b.best),
        ..b
    }
}

// The same for a bound, which may have no hint.
fn with_any_bound(
    pairs: &[u64],
    marks: &[u64],
    t: Tables,
    upper: &[u64],
    bound: TypeWord,
    b: Best,
) -> Best
    requires { Prepared pairs.now marks.now t × (t.object < names_room) × AllLegal upper.now × Legal bound.word × BestIs (world_of pairs.now marks.now t) (map type_of upper.now) b (maybe_type b.best) }
    ensures { BestIs (world_of pairs.now marks.now t) (map type_of upper.now) result (candidate (world_of pairs.now marks.now t) (map type_of upper.now) (concrete_hint t.object (type_of bound.word)) (maybe_type b.best)) }
{
    let object = t.object;
    match bound.concrete_hint(object) {
        Some(hint) => with_any_hint(pairs, marks, t, upper, hint, b),
        None => b,
    }
}

// The same as of few; no word has the head 0 and a class.
fn least_of_many(pairs: &[u64], marks: &[u64], t: Tables, upper: &[u64]) -> Option<TypeWord>
    requires { Prepared pairs.now marks.now t × (t.object < names_room) × AllLegal upper.now }
    ensures { result ≡ maybe_word (most_specific_upper (world_of pairs.now marks.now t) (map type_of upper.now)) }
{
    let mut b = Best {
        best: None,
        group: Group {
            head: 0,
            rest: true,
            classes: Set::empty(),
        },
    };
    for &word in upper.iter().rev() {
        let bound = TypeWord { word };
        b = with_any_bound(pairs, marks, t, upper, bound, b);
    }
    b.best
}

// The least hint of an upper bound that is assignable to all of them.
pub fn most_specific_upper(
    pairs: &[u64],
    marks: &[u64],
    t: Tables,
    upper: &[u64],
) -> Option<TypeWord>
    requires { Prepared pairs.now marks.now t × (t.object < names_room) × AllLegal upper.now }
    ensures { result ≡ maybe_word (most_specific_upper (world_of pairs.now marks.now t) (map type_of upper.now)) }
{
    if MANY <= upper.len() {
        return least_of_many(pairs, marks, t, upper);
    }
    least_of_few(pairs, marks, t, upper)
}

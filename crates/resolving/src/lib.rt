// What lattice.rs asks of one component's bounds: the type that they produce, the element of an array, and the answer by five
// ways. Bounds are type words in lent slices, a slice for each kind, in the order of types.
#![tactic(auto)]

ghost use Rattle.std.specs.Prelude.{◌≡◌, [], map};
ghost use Rattle.ty.specs.Words.{Legal, type_of};
ghost use Rattle.ty.specs.Answers.{maybe_word};
ghost use Rattle.lattice.specs.Lattice.{most_specific_upper};
ghost use Rattle.lattice.specs.World.{world_of};
ghost use Rattle.joins.specs.Joins.{Fits, AllLegal};
ghost use Rattle.candidates.specs.Maybe.{LegalMaybe, maybe_type};
ghost use Rattle.solving.specs.Solving.{produced_type, or_else, only_concrete, element_of, array_element, hints_of, resolve_state};
ghost use Rattle.solving.specs.Resolve.{all_produce, produces_all, single};
ghost use Rattle.resolving.specs.Bounds.{state_in, Bounds, Classed, kept_if, differs, both_differ, either_of, fitting, by_upper, by_cast, by_fallback, by_hint, from_fallback, from_cast, from_upper, upper_passes, cast_passes, fallback_passes};

use candidates::{
    domain_accepts, is_assignable_to_all, most_specific_upper, producer_bound_compatible,
};
use joins::join_all;
use tables::Tables;
use ty::TypeWord;

// The join of the exact bounds, of the lower ones if there are none.
pub fn produced_type(
    pairs: &[u64],
    marks: &[u64],
    t: Tables,
    exact: &[u64],
    lower: &[u64],
) -> Option<TypeWord>
    requires { Classed pairs.now marks.now t × Bounds t exact.now × Bounds t lower.now }
    ensures { result ≡ maybe_word (produced_type (world_of pairs.now marks.now t) (state_in exact.now lower.now [] [] [])) }
{
    if exact.len() == 0 {
        return join_all(pairs, marks, t, lower);
    }
    join_all(pairs, marks, t, exact)
}

// What is produced, or the most specific upper bound if nothing is.
fn or_upper(
    pairs: &[u64],
    marks: &[u64],
    t: Tables,
    produced: Option<TypeWord>,
    upper: &[u64],
) -> Option<TypeWord>
    requires { Classed pairs.now marks.now t × LegalMaybe produced × AllLegal t upper.now }
    ensures { LegalMaybe result × (maybe_type result ≡ or_else (maybe_type produced) (most_specific_upper (world_of pairs.now marks.now t) (map type_of upper.now))) }
{
    match produced {
        Some(u) => Some(u),
        None => most_specific_upper(pairs, marks, t, upper),
    }
}

// The element of a type that may be missing.
fn element_in(array: Option<TypeWord>) -> Option<TypeWord>
    requires { LegalMaybe array }
    ensures { result ≡ maybe_word (element_of (maybe_type array)) }
{
    match array {
        Some(u) => u.element(),
        None => None,
    }
}

// The element of what is produced, or of the most specific upper bound if nothing is.
pub fn element_of(
    pairs: &[u64],
    marks: &[u64],
    t: Tables,
    produced: Option<TypeWord>,
    upper: &[u64],
) -> Option<TypeWord>
    requires { Classed pairs.now marks.now t × LegalMaybe produced × AllLegal t upper.now }
    ensures { result ≡ maybe_word (element_of (or_else (maybe_type produced) (most_specific_upper (world_of pairs.now marks.now t) (map type_of upper.now)))) }
{
    let array = or_upper(pairs, marks, t, produced, upper);
    element_in(array)
}

// The same from the bounds.
pub fn array_element(
    pairs: &[u64],
    marks: &[u64],
    t: Tables,
    exact: &[u64],
    lower: &[u64],
    upper: &[u64],
) -> Option<TypeWord>
    requires { Classed pairs.now marks.now t × Bounds t exact.now × Bounds t lower.now × AllLegal t upper.now }
    ensures { result ≡ maybe_word (array_element (world_of pairs.now marks.now t) (state_in exact.now lower.now upper.now [] [])) }
{
    let produced = produced_type(pairs, marks, t, exact, lower);
    element_of(pairs, marks, t, produced, upper)
}

// A candidate, if it passes.
fn kept(ty: TypeWord, passes: bool) -> Option<TypeWord>
    ensures { result ≡ kept_if passes ty }
{
    if passes {
        return Some(ty);
    }
    None
}

fn only_concrete(t: Option<TypeWord>) -> Option<TypeWord>
    requires { LegalMaybe t }
    ensures { LegalMaybe result × (maybe_type result ≡ only_concrete (maybe_type t)) }
{
    match t {
        Some(u) => kept(u, u.is_concrete()),
        None => None,
    }
}

// Whether each of some bounds can be produced where the candidate is expected.
fn all_produce(pairs: &[u64], marks: &[u64], t: Tables, bounds: &[u64], candidate: TypeWord) -> bool
    requires { Classed pairs.now marks.now t × AllLegal t bounds.now × Legal candidate.word }
    ensures { result ≡ all_produce (world_of pairs.now marks.now t) (map type_of bounds.now) (type_of candidate.word) }
{
    bounds.iter().all(|word| {
        producer_bound_compatible(pairs, marks, t, TypeWord { word: *word }, candidate)
    })
}

// Whether a type can be produced where each upper bound is expected.
fn produces_all(pairs: &[u64], marks: &[u64], t: Tables, ty: TypeWord, upper: &[u64]) -> bool
    requires { Classed pairs.now marks.now t × Legal ty.word × AllLegal t upper.now }
    ensures { result ≡ produces_all (world_of pairs.now marks.now t) (type_of ty.word) (map type_of upper.now) }
{
    upper.iter().all(|word| {
        producer_bound_compatible(pairs, marks, t, ty, TypeWord { word: *word })
    })
}

// The candidate where it is assignable to every upper bound: way 1 of what is produced, way 5 of the domain's hint.
fn fits_upper(
    pairs: &[u64],
    marks: &[u64],
    t: Tables,
    candidate: Option<TypeWord>,
    upper: &[u64],
) -> Option<TypeWord>
    requires { Classed pairs.now marks.now t × LegalMaybe candidate × AllLegal t upper.now }
    ensures { result ≡ maybe_word (fitting (world_of pairs.now marks.now t) (maybe_type candidate) (map type_of upper.now)) }
{
    match candidate {
        Some(ty) => kept(ty, is_assignable_to_all(pairs, marks, t, ty, upper)),
        None => None,
    }
}

// What way 2 asks of its candidate.
fn upper_passes(
    pairs: &[u64],
    marks: &[u64],
    t: Tables,
    exact: &[u64],
    lower: &[u64],
    domain: &[u64],
    candidate: TypeWord,
) -> bool
    requires { Classed pairs.now marks.now t × AllLegal t exact.now × AllLegal t lower.now × AllLegal t domain.now × Legal candidate.word }
    ensures { result ≡ upper_passes (world_of pairs.now marks.now t) (map type_of exact.now) (map type_of lower.now) (map type_of domain.now) (type_of candidate.word) }
{
    if all_produce(pairs, marks, t, exact, candidate) {
        if all_produce(pairs, marks, t, lower, candidate) {
            return domain_accepts(domain, candidate);
        }
        return false;
    }
    false
}

// Way 2: the most specific upper bound, where every exact and lower bound and the domain allow it.
fn upper_candidate(
    pairs: &[u64],
    marks: &[u64],
    t: Tables,
    exact: &[u64],
    lower: &[u64],
    upper: &[u64],
    domain: &[u64],
) -> Option<TypeWord>
    requires { Classed pairs.now marks.now t × AllLegal t exact.now × AllLegal t lower.now × AllLegal t upper.now × AllLegal t domain.now }
    ensures { result ≡ maybe_word (by_upper (world_of pairs.now marks.now t) (map type_of exact.now) (map type_of lower.now) (map type_of upper.now) (map type_of domain.now)) }
{
    match most_specific_upper(pairs, marks, t, upper) {
        Some(u) => kept(u, upper_passes(pairs, marks, t, exact, lower, domain, u)),
        None => None,
    }
}

// What way 3 asks of its candidate.
fn cast_passes(
    pairs: &[u64],
    marks: &[u64],
    t: Tables,
    ty: TypeWord,
    upper: &[u64],
    domain: &[u64],
) -> bool
    requires { Classed pairs.now marks.now t × Legal ty.word × AllLegal t upper.now × AllLegal t domain.now }
    ensures { result ≡ cast_passes (world_of pairs.now marks.now t) (map type_of upper.now) (map type_of domain.now) (type_of ty.word) }
{
    if produces_all(pairs, marks, t, ty, upper) {
        return domain_accepts(domain, ty);
    }
    false
}

// Way 3: what is produced, where a cast takes it to every upper bound and the domain allows it.
fn evidence_cast(
    pairs: &[u64],
    marks: &[u64],
    t: Tables,
    evidence: Option<TypeWord>,
    upper: &[u64],
    domain: &[u64],
) -> Option<TypeWord>
    requires { Classed pairs.now marks.now t × LegalMaybe evidence × AllLegal t upper.now × AllLegal t domain.now }
    ensures { result ≡ maybe_word (by_cast (world_of pairs.now marks.now t) (maybe_type evidence) (map type_of upper.now) (map type_of domain.now)) }
{
    match evidence {
        Some(ty) => kept(ty, cast_passes(pairs, marks, t, ty, upper, domain)),
        None => None,
    }
}

// What way 4 asks of its candidate.
fn fallback_passes(
    pairs: &[u64],
    marks: &[u64],
    t: Tables,
    ty: TypeWord,
    upper: &[u64],
    domain: &[u64],
) -> bool
    requires { Classed pairs.now marks.now t × Legal ty.word × AllLegal t upper.now × AllLegal t domain.now }
    ensures { result ≡ fallback_passes (world_of pairs.now marks.now t) (map type_of upper.now) (map type_of domain.now) (type_of ty.word) }
{
    if is_assignable_to_all(pairs, marks, t, ty, upper) {
        return domain_accepts(domain, ty);
    }
    false
}

// Way 4: the join of the fallbacks, where it is concrete and upper bounds and domain allow it.
fn fallback_join(
    pairs: &[u64],
    marks: &[u64],
    t: Tables,
    upper: &[u64],
    domain: &[u64],
    fallback: &[u64],
) -> Option<TypeWord>
    requires { Classed pairs.now marks.now t × AllLegal t upper.now × AllLegal t domain.now × Bounds t fallback.now }
    ensures { result ≡ maybe_word (by_fallback (world_of pairs.now marks.now t) (map type_of upper.now) (map type_of domain.now) (map type_of fallback.now)) }
{
    let joined = join_all(pairs, marks, t, fallback);
    match only_concrete(joined) {
        Some(ty) => kept(ty, fallback_passes(pairs, marks, t, ty, upper, domain)),
        None => None,
    }
}

// Whether what was found is another type than the hint.
fn differs_from(hint: TypeWord, found: Option<TypeWord>) -> bool
    ensures { result ≡ differs hint found }
{
    match found {
        Some(u) => {
            if hint.word == u.word {
                return false;
            }
            true
        }
        None => false,
    }
}

// Whether both are there and not the same.
fn both_differ(hint: Option<TypeWord>, found: Option<TypeWord>) -> bool
    ensures { result ≡ both_differ hint found }
{
    match hint {
        Some(u) => differs_from(u, found),
        None => false,
    }
}

// The first of two that is there.
fn either(first: Option<TypeWord>, second: Option<TypeWord>) -> Option<TypeWord>
    ensures { result ≡ either_of first second }
{
    match first {
        Some(u) => Some(u),
        None => second,
    }
}

// The one hint of the domain, from its last type to its first; none where two differ.
fn one_hint(t: Tables, domain: &[u64]) -> Option<TypeWord>
    requires { Fits t × AllLegal t domain.now }
    ensures { LegalMaybe result × (maybe_type result ≡ single (hints_of t.object (map type_of domain.now))) }
{
    let mut found = None;
    for i in (0..domain.len()).rev() {
        let observed = TypeWord { word: domain[i] };
        let hint = observed.concrete_hint(t.object);
        if both_differ(hint, found) {
            return None;
        }
        found = either(hint, found);
    }
    found
}

// Way 5: the one hint of the domain, where the upper bounds allow it.
fn domain_hint(
    pairs: &[u64],
    marks: &[u64],
    t: Tables,
    upper: &[u64],
    domain: &[u64],
) -> Option<TypeWord>
    requires { Classed pairs.now marks.now t × AllLegal t upper.now × AllLegal t domain.now }
    ensures { result ≡ maybe_word (by_hint (world_of pairs.now marks.now t) (map type_of upper.now) (map type_of domain.now)) }
{
    let hint = one_hint(t, domain);
    fits_upper(pairs, marks, t, hint, upper)
}

// From way 4 on.
fn from_fallback(
    pairs: &[u64],
    marks: &[u64],
    t: Tables,
    upper: &[u64],
    domain: &[u64],
    fallback: &[u64],
) -> Option<TypeWord>
    requires { Classed pairs.now marks.now t × AllLegal t upper.now × AllLegal t domain.now × Bounds t fallback.now }
    ensures { result ≡ maybe_word (from_fallback (world_of pairs.now marks.now t) (map type_of upper.now) (map type_of domain.now) (map type_of fallback.now)) }
{
    match fallback_join(pairs, marks, t, upper, domain, fallback) {
        Some(ty) => Some(ty),
        None => domain_hint(pairs, marks, t, upper, domain),
    }
}

// From way 3 on.
fn from_cast(
    pairs: &[u64],
    marks: &[u64],
    t: Tables,
    evidence: Option<TypeWord>,
    upper: &[u64],
    domain: &[u64],
    fallback: &[u64],
) -> Option<TypeWord>
    requires { Classed pairs.now marks.now t × LegalMaybe evidence × AllLegal t upper.now × AllLegal t domain.now × Bounds t fallback.now }
    ensures { result ≡ maybe_word (from_cast (world_of pairs.now marks.now t) (maybe_type evidence) (map type_of upper.now) (map type_of domain.now) (map type_of fallback.now)) }
{
    match evidence_cast(pairs, marks, t, evidence, upper, domain) {
        Some(ty) => Some(ty),
        None => from_fallback(pairs, marks, t, upper, domain, fallback),
    }
}

// From way 2 on.
fn from_upper(
    pairs: &[u64],
    marks: &[u64],
    t: Tables,
    evidence: Option<TypeWord>,
    exact: &[u64],
    lower: &[u64],
    upper: &[u64],
    domain: &[u64],
    fallback: &[u64],
) -> Option<TypeWord>
    requires { Classed pairs.now marks.now t × LegalMaybe evidence × AllLegal t exact.now × AllLegal t lower.now × AllLegal t upper.now × AllLegal t domain.now × Bounds t fallback.now }
    ensures { result ≡ maybe_word (from_upper (world_of pairs.now marks.now t) (maybe_type evidence) (state_in exact.now lower.now upper.now domain.now fallback.now)) }
{
    match upper_candidate(pairs, marks, t, exact, lower, upper, domain) {
        Some(ty) => Some(ty),
        None => from_cast(pairs, marks, t, evidence, upper, domain, fallback),
    }
}

// The answer of one component: the first of the five ways that has one.
pub fn resolve_state(
    pairs: &[u64],
    marks: &[u64],
    t: Tables,
    exact: &[u64],
    lower: &[u64],
    upper: &[u64],
    domain: &[u64],
    fallback: &[u64],
) -> Option<TypeWord>
    requires { Classed pairs.now marks.now t × Bounds t exact.now × Bounds t lower.now × AllLegal t upper.now × AllLegal t domain.now × Bounds t fallback.now }
    ensures { result ≡ maybe_word (resolve_state (world_of pairs.now marks.now t) (state_in exact.now lower.now upper.now domain.now fallback.now)) }
{
    let produced = produced_type(pairs, marks, t, exact, lower);
    let evidence = only_concrete(produced);
    match fits_upper(pairs, marks, t, evidence, upper) {
        Some(ty) => Some(ty),
        None => from_upper(
            pairs, marks, t, evidence, exact, lower, upper, domain, fallback,
        ),
    }
}

// The answers of a solve's variables from its final table: each component's own keys are cut out of it, copied as words, one kind after the
// other, and resolved by the five ways, once a component.
#![tactic(auto)]

ghost use Rattle.std.specs.Prelude.{◌≡◌, ◌≤◌, ◌<◌, length, replicate};
ghost use Rattle.std.proofs.Math.Seq.{paste};
ghost use Rattle.sorted.specs.Sorted.{Sorted};
ghost use Rattle.ty.specs.Answers.{maybe_word};
ghost use Rattle.lattice.specs.World.{world_of};
ghost use Rattle.solving.specs.Queue.{Below};
ghost use Rattle.solving.specs.Solving.{state_of, resolve_state};
ghost use Rattle.resolving.specs.Bounds.{Classed};
ghost use Rattle.answering.specs.Answering.{parts_of, state_words, InOrder, PartsLegal, parts_state, table_in, Final, number_in, answer_words, answer_of, Stands};

use copying::copy_words;
use keys::COMPONENT;
use resolving::resolve_state;
use tables::Tables;
use ty::TypeWord;

// Where the words of each kind end; each begins where the one before it ends, the domain's at 0.
#[derive(Clone, Copy)]
pub struct Parts {
    pub domain: usize,
    pub fallback: usize,
    pub upper: usize,
    pub lower: usize,
    pub exact: usize,
}

// A component's bounds as words, kind by kind from the front on.
pub fn copy_state(keys: &[u64], component: u64, out: &mut [u64]) -> Parts
    requires { Sorted keys.now × (component < 512) × (length keys.now ≤ length out.old) }
    ensures { (result ≡ parts_of component keys.now) × (out.new ≡ paste out.old 0 (state_words component keys.now) (length (state_words component keys.now))) }
{
    let domain = copy_words(keys, component, 0, out, 0);
    let fallback = copy_words(keys, component, 1, out, domain);
    let upper = copy_words(keys, component, 2, out, fallback);
    let lower = copy_words(keys, component, 3, out, upper);
    let exact = copy_words(keys, component, 4, out, lower);
    Parts {
        domain,
        fallback,
        upper,
        lower,
        exact,
    }
}

// The answer from the words of each kind.
fn answer_from(pairs: &[u64], marks: &[u64], t: Tables, out: &[u64], p: Parts) -> Option<TypeWord>
    requires { Classed pairs.now marks.now t × InOrder p out.now × PartsLegal t p out.now }
    ensures { result ≡ maybe_word (resolve_state (world_of pairs.now marks.now t) (parts_state p out.now)) }
{
    resolve_state(
        pairs,
        marks,
        t,
        &out[p.lower..p.exact],
        &out[p.upper..p.lower],
        &out[p.fallback..p.upper],
        &out[..p.domain],
        &out[p.domain..p.fallback],
    )
}

// The answer of one component; the lent slice takes the copy of its bounds.
pub fn answer(
    pairs: &[u64],
    marks: &[u64],
    t: Tables,
    keys: &[u64],
    component: u64,
    out: &mut [u64],
) -> Option<TypeWord>
    requires { Classed pairs.now marks.now t × Final t.names keys.now × (component < 512) × (length keys.now ≤ length out.old) }
    ensures { result ≡ maybe_word (resolve_state (world_of pairs.now marks.now t) (state_of (table_in keys.now) component)) }
{
    let of = sorted::run(keys, keys.len(), COMPONENT, component);
    let p = copy_state(&keys[of.first..of.past], component, out);
    answer_from(pairs, marks, t, out, p)
}

// An answer's word, all ones where there is none.
fn word_in(m: Option<TypeWord>) -> u64
    ensures { result ≡ number_in m }
{
    match m {
        Some(t) => t.word,
        None => u64::MAX,
    }
}

// A component's answer as a word: the one before the place `seen` where that is not 0, else anew.
fn word_of(
    pairs: &[u64],
    marks: &[u64],
    t: Tables,
    keys: &[u64],
    component: u64,
    out: &mut [u64],
    into: &[u64],
    seen: u64,
) -> u64
    requires { Classed pairs.now marks.now t × Final t.names keys.now × (component < 512) × (length keys.now ≤ length out.old) × Stands (world_of pairs.now marks.now t) (table_in keys.now) into.now component seen }
    ensures { result ≡ answer_of (world_of pairs.now marks.now t) (table_in keys.now) component }
{
    if seen != 0 {
        return into[(seen - 1) as usize];
    }
    word_in(answer(pairs, marks, t, keys, component, out))
}

// Each variable's answer. `places` has for each component the place after the last variable of it.
fn answers_once(
    pairs: &[u64],
    marks: &[u64],
    t: Tables,
    keys: &[u64],
    variables: &[u64],
    out: &mut [u64],
    into: &mut [u64],
    places: &mut [u64],
)
    requires { Classed pairs.now marks.now t × Final t.names keys.now × Below 512 variables.now × (length keys.now ≤ length out.old) × (length variables.now ≤ length into.old) × (places.old ≡ replicate 512 0) }
    ensures { into.new ≡ paste into.old 0 (answer_words (world_of pairs.now marks.now t) (table_in keys.now) variables.now) (length variables.now) }
{
    for (i, &c) in variables.iter().enumerate() {
        let k = c as usize;
        let seen = places[k];
        into[i] = word_of(pairs, marks, t, keys, c, out, into, seen);
        places[k] = i as u64 + 1;
    }
}

// Each variable's answer, at the front of the answers' slice; what stands past them stays. The copies go to `out`. Each component is resolved
// once, however many variables it has.
pub fn answers(
    pairs: &[u64],
    marks: &[u64],
    t: Tables,
    keys: &[u64],
    variables: &[u64],
    out: &mut [u64],
    into: &mut [u64],
)
    requires { Classed pairs.now marks.now t × Final t.names keys.now × Below 512 variables.now × (length keys.now ≤ length out.old) × (length variables.now ≤ length into.old) }
    ensures { into.new ≡ paste into.old 0 (answer_words (world_of pairs.now marks.now t) (table_in keys.now) variables.now) (length variables.now) }
{
    let mut places = [0u64; 512];
    answers_once(pairs, marks, t, keys, variables, out, into, &mut places);
}

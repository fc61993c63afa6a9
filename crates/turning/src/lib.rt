// A turn: what a component's state gives, from its copy and as far as a link asks for it, and the rules that send it on. The component's own
// keys and its own flows are each read several times, so they are cut out once.
#![tactic(auto)]

ghost use Rattle.std.specs.Prelude.{◌≡◌, true, ◌≤◌, ◌<◌, length};
ghost use Rattle.inserting.specs.Store.{store};
ghost use Rattle.rules.specs.Rules.{links_in};
ghost use Rattle.ty.specs.Answers.{maybe_word};
ghost use Rattle.lattice.specs.World.{world_of};
ghost use Rattle.lattice.specs.Lattice.{most_specific_upper};
ghost use Rattle.solving.specs.Solving.{produced_type, or_else};
ghost use Rattle.turning.specs.Turning.{Asks, Turnable, state_in, only_if, Gathers, turned};

use asking::{Asked, asks};
use candidates::most_specific_upper;
use copying::{copy_evidence, copy_ranks, copy_uppers, copy_words};
use inserting::{Sent, State};
use joins::join_all;
use keys::COMPONENT;
use rules::pass_rules;
use sending::{send_array, send_element, send_type};
use tables::Tables;
use ty::TypeWord;

// What a component's exact bounds, or else its lower ones, come to.
fn produced_of(
    pairs: &[u64],
    marks: &[u64],
    t: Tables,
    keys: &[u64],
    root: u64,
    words: &mut [u64],
) -> Option<TypeWord>
    requires { Asks pairs.now marks.now t keys.now × (root < 512) × (length keys.now ≤ length words.old) }
    ensures { result ≡ maybe_word (produced_type (world_of pairs.now marks.now t) (state_in keys.now root)) }
{
    let m = copy_evidence(keys, root, words);
    join_all(pairs, marks, t, &words[0..m])
}

// The same where it is asked for.
fn produced_if(
    asked: bool,
    pairs: &[u64],
    marks: &[u64],
    t: Tables,
    keys: &[u64],
    root: u64,
    words: &mut [u64],
) -> Option<TypeWord>
    requires { Asks pairs.now marks.now t keys.now × (root < 512) × (length keys.now ≤ length words.old) }
    ensures { result ≡ only_if asked (maybe_word (produced_type (world_of pairs.now marks.now t) (state_in keys.now root))) }
{
    if asked {
        return produced_of(pairs, marks, t, keys, root, words);
    }
    None
}

// Its most specific upper bound.
fn upper_of(
    pairs: &[u64],
    marks: &[u64],
    t: Tables,
    keys: &[u64],
    root: u64,
    words: &mut [u64],
) -> Option<TypeWord>
    requires { Asks pairs.now marks.now t keys.now × (root < 512) × (length keys.now ≤ length words.old) }
    ensures { result ≡ maybe_word (most_specific_upper (world_of pairs.now marks.now t) (state_in keys.now root).upper) }
{
    let m = copy_words(keys, root, 2, words, 0);
    most_specific_upper(pairs, marks, t, &words[0..m])
}

// What has an element: what is produced, or else that upper bound.
fn shape_of(
    pairs: &[u64],
    marks: &[u64],
    t: Tables,
    keys: &[u64],
    root: u64,
    words: &mut [u64],
    produced: Option<TypeWord>,
) -> Option<TypeWord>
    requires { Asks pairs.now marks.now t keys.now × (root < 512) × (length keys.now ≤ length words.old) × (produced ≡ maybe_word (produced_type (world_of pairs.now marks.now t) (state_in keys.now root))) }
    ensures { result ≡ maybe_word (or_else (produced_type (world_of pairs.now marks.now t) (state_in keys.now root)) (most_specific_upper (world_of pairs.now marks.now t) (state_in keys.now root).upper)) }
{
    match produced {
        Some(_) => produced,
        None => upper_of(pairs, marks, t, keys, root, words),
    }
}

// The same where it is asked for.
fn shape_if(
    asked: bool,
    pairs: &[u64],
    marks: &[u64],
    t: Tables,
    keys: &[u64],
    root: u64,
    words: &mut [u64],
    produced: Option<TypeWord>,
) -> Option<TypeWord>
    requires { Asks pairs.now marks.now t keys.now × (root < 512) × (length keys.now ≤ length words.old) × (asked ≡ true → produced ≡ maybe_word (produced_type (world_of pairs.now marks.now t) (state_in keys.now root))) }
    ensures { result ≡ only_if asked (maybe_word (or_else (produced_type (world_of pairs.now marks.now t) (state_in keys.now root)) (most_specific_upper (world_of pairs.now marks.now t) (state_in keys.now root).upper))) }
{
    if asked {
        return shape_of(pairs, marks, t, keys, root, words, produced);
    }
    None
}

// What a turn gathers before its first insertion: what is sent, and how many ranks were copied.
#[derive(Clone, Copy)]
pub struct Gathered {
    pub produced: Sent,
    pub element: Sent,
    pub array: Sent,
    pub fallbacks: usize,
    pub uppers: usize,
}

// From the component's own keys, which are only read here.
fn gather(
    k: Asked,
    pairs: &[u64],
    marks: &[u64],
    t: Tables,
    keys: &[u64],
    root: u64,
    words: &mut [u64],
    fallbacks: &mut [u64],
    uppers: &mut [u64],
) -> Gathered
    requires { Asks pairs.now marks.now t keys.now × (root < 512) × (length keys.now ≤ length words.old) × (length keys.now ≤ length fallbacks.old) × (length keys.now ≤ length uppers.old) × (k.element ≡ true → k.produced ≡ true) }
    ensures { Gathers k (world_of pairs.now marks.now t) keys.now root result fallbacks.old fallbacks.new uppers.old uppers.new }
{
    let produced = produced_if(k.produced, pairs, marks, t, keys, root, words);
    let shape = shape_if(k.element, pairs, marks, t, keys, root, words, produced);
    let f = copy_ranks(keys, root, 1, fallbacks, 0);
    let u = copy_uppers(keys, root, uppers);
    Gathered {
        produced: send_type(produced),
        element: send_element(shape),
        array: send_array(produced),
        fallbacks: f,
        uppers: u,
    }
}

// The turn of a component that was taken from the front.
pub fn turn(
    pairs: &[u64],
    marks: &[u64],
    t: Tables,
    a: &mut [u64],
    ring: &mut [u64],
    s: State,
    words: &mut [u64],
    fallbacks: &mut [u64],
    uppers: &mut [u64],
    flows: &[u64],
    incoming: &[u64],
    reads: &[u64],
    writes: &[u64],
    root: u64,
) -> State
    requires { Turnable pairs.now marks.now t (store a.old ring.old s) words.old fallbacks.old uppers.old flows.now incoming.now reads.now writes.now × (root < 512) }
    ensures { store a.new ring.new result ≡ turned (world_of pairs.now marks.now t) (links_in flows.now incoming.now reads.now writes.now) root (store a.old ring.old s) }
{
    let to = sorted::run(flows, flows.len(), 512, root);
    let of = sorted::run(a, s.count, COMPONENT, root);
    let targets = &flows[to.first..to.past];
    let k = asks(targets, reads, writes, root);
    let g = gather(
        k,
        pairs,
        marks,
        t,
        &a[of.first..of.past],
        root,
        words,
        fallbacks,
        uppers,
    );
    pass_rules(
        a,
        ring,
        s,
        targets,
        incoming,
        reads,
        writes,
        root,
        g.produced,
        &fallbacks[0..g.fallbacks],
        &uppers[0..g.uppers],
        g.element,
        g.array,
    )
}

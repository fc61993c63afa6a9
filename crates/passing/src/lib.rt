// The passes of a turn: what was copied before the first insertion goes to each target, each source, each array constraint. Links are lent
// as sorted keys first * 512 + second. A refusal ends a pass at once.
#![tactic(auto)]

ghost use Rattle.std.specs.Prelude.{◌≡◌, List, map, ◌<◌};
ghost use Rattle.sorted.specs.Sorted.{Sorted};
ghost use Rattle.keys.specs.Rank.{unrank};
ghost use Rattle.solving.specs.Queue.{Below};
ghost use Rattle.solving.specs.Solving.{partners, to_one, to_each, array_rules};
ghost use Rattle.solving.specs.Steps.{array_rule};
ghost use Rattle.solving.specs.LinkKeys.{pair_of};
ghost use Rattle.inserting.specs.Store.{store, put_all, sent_types, AllRanked, Sendable, Ready};
ghost use Rattle.ty.specs.Types.{ArgType};
ghost use Rattle.inserting.specs.Laws.{sent-base};
ghost use Rattle.passing.specs.Passes.{seconds};
ghost use Rattle.passing.specs.Steps.{AllBase, ranked-base};

use inserting::{Sent, State, insert_bound, insert_sent};

// What goes to a component: types, and how they are put among its bounds.
pub trait Load: Copy {
    ghost types: { Self → List ArgType };

    ghost fits: { Self → Type 0 };

    fn put(self, a: &mut [u64], ring: &mut [u64], s: State, component: u64, kind: u64) -> State
        requires { Ready (store a.old ring.old s) × (component < 512) × (kind < 5) × fits self }
        ensures { store a.new ring.new result ≡ put_all (to_one 0 kind (types self) component) (store a.old ring.old s) };

    // What fits may be given.
    ghost base: { (x : Self) → fits x → AllBase (types x) };
}

// The type that is sent, if any.
impl Load for Sent {
    ghost types = { sent_types };

    ghost fits = { Sendable };

    ghost base = { sent-base };

    fn put(self, a: &mut [u64], ring: &mut [u64], s: State, component: u64, kind: u64) -> State {
        insert_sent(a, ring, s, component, kind, self)
    }
}

// Types by their ranks.
impl Load for &[u64] {
    ghost types = { λ r. map unrank r.now };

    ghost fits = { λ r. AllRanked r.now };

    ghost base = { λ r. ranked-base r.now };

    fn put(self, a: &mut [u64], ring: &mut [u64], s: State, component: u64, kind: u64) -> State {
        let mut state = s;
        for &rank in self {
            state = insert_bound(a, ring, state, component, kind, rank);
            if state.refusal != 0 {
                return state;
            }
        }
        state
    }
}

// The load, to the second of each link.
fn send_each<L: Load>(
    a: &mut [u64],
    ring: &mut [u64],
    s: State,
    links: &[u64],
    kind: u64,
    load: L,
) -> State
    requires { Ready (store a.old ring.old s) × (kind < 5) × L.fits load }
    ensures { store a.new ring.new result ≡ put_all (to_each 0 kind (L.types load) (seconds links.now)) (store a.old ring.old s) }
{
    let mut state = s;
    for &link in links {
        state = load.put(a, ring, state, link % 512, kind);
        if state.refusal != 0 {
            return state;
        }
    }
    state
}

// The load, to each partner of the root.
pub fn send<L: Load>(
    a: &mut [u64],
    ring: &mut [u64],
    s: State,
    links: &[u64],
    root: u64,
    kind: u64,
    load: L,
) -> State
    requires { Ready (store a.old ring.old s) × (kind < 5) × L.fits load × Sorted links.now }
    ensures { store a.new ring.new result ≡ put_all (to_each 0 kind (L.types load) (partners root (map pair_of links.now))) (store a.old ring.old s) }
{
    let of = sorted::run(links, links.len(), 512, root);
    send_each(a, ring, s, &links[of.first..of.past], kind, load)
}

// One array constraint: the element to the other side where the root is the array, else the array back where the root is the other side.
fn send_array(
    a: &mut [u64],
    ring: &mut [u64],
    s: State,
    link: u64,
    root: u64,
    kind: u64,
    element: Sent,
    array: Sent,
) -> State
    requires { Ready (store a.old ring.old s) × (link < 262144) × (kind < 5) × Sendable element × Sendable array }
    ensures { store a.new ring.new result ≡ put_all (array_rule 0 kind (sent_types element) 0 (sent_types array) root (pair_of link)) (store a.old ring.old s) }
{
    if link / 512 == root {
        return insert_sent(a, ring, s, link % 512, kind, element);
    }
    if link % 512 == root {
        return insert_sent(a, ring, s, link / 512, 3, array);
    }
    s
}

// Array constraints in their order.
pub fn send_arrays(
    a: &mut [u64],
    ring: &mut [u64],
    s: State,
    links: &[u64],
    root: u64,
    kind: u64,
    element: Sent,
    array: Sent,
) -> State
    requires { Ready (store a.old ring.old s) × Below 262144 links.now × (kind < 5) × Sendable element × Sendable array }
    ensures { store a.new ring.new result ≡ put_all (array_rules 0 kind (sent_types element) 0 (sent_types array) root (map pair_of links.now)) (store a.old ring.old s) }
{
    let mut state = s;
    for &link in links {
        state = send_array(a, ring, state, link, root, kind, element, array);
        if state.refusal != 0 {
            return state;
        }
    }
    state
}

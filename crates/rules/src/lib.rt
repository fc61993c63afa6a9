// The rules of a turn in their order, from what was copied before the first insertion: what is produced and the fallbacks to the targets,
// the upper and exact bounds to the sources, elements and arrays to the array constraints. The first refusal ends it.
#![tactic(auto)]

ghost use Rattle.std.specs.Prelude.{◌≡◌};
ghost use Rattle.sorted.specs.Sorted.{Sorted};
ghost use Rattle.solving.specs.Queue.{Below};
ghost use Rattle.inserting.specs.Store.{store, put_all, AllRanked, Sendable, Ready};
ghost use Rattle.rules.specs.Rules.{bound_rules, constraint_rules, all_rules};

use inserting::{Sent, State};
use passing::{send, send_arrays};

// Rules 1, 2 and 3.
fn pass_bounds(
    a: &mut [u64],
    ring: &mut [u64],
    s: State,
    flows: &[u64],
    incoming: &[u64],
    root: u64,
    produced: Sent,
    fallbacks: &[u64],
    uppers: &[u64],
) -> State
    requires { Ready (store a.old ring.old s) × Sorted flows.now × Sorted incoming.now × Sendable produced × AllRanked fallbacks.now × AllRanked uppers.now }
    ensures { store a.new ring.new result ≡ put_all (bound_rules flows.now incoming.now root produced fallbacks.now uppers.now) (store a.old ring.old s) }
{
    let first = send(a, ring, s, flows, root, 3, produced);
    if first.refusal != 0 {
        return first;
    }
    let second = send(a, ring, first, flows, root, 1, fallbacks);
    if second.refusal != 0 {
        return second;
    }
    send(a, ring, second, incoming, root, 2, uppers)
}

// Rules 4 to 7.
fn pass_constraints(
    a: &mut [u64],
    ring: &mut [u64],
    s: State,
    reads: &[u64],
    writes: &[u64],
    root: u64,
    element: Sent,
    array: Sent,
) -> State
    requires { Ready (store a.old ring.old s) × Below 262144 reads.now × Below 262144 writes.now × Sendable element × Sendable array }
    ensures { store a.new ring.new result ≡ put_all (constraint_rules reads.now writes.now root element array) (store a.old ring.old s) }
{
    let first = send_arrays(a, ring, s, reads, root, 4, element, array);
    if first.refusal != 0 {
        return first;
    }
    send_arrays(a, ring, first, writes, root, 2, element, array)
}

// All that a turn inserts.
pub fn pass_rules(
    a: &mut [u64],
    ring: &mut [u64],
    s: State,
    flows: &[u64],
    incoming: &[u64],
    reads: &[u64],
    writes: &[u64],
    root: u64,
    produced: Sent,
    fallbacks: &[u64],
    uppers: &[u64],
    element: Sent,
    array: Sent,
) -> State
    requires { Ready (store a.old ring.old s) × Sorted flows.now × Sorted incoming.now × Below 262144 reads.now × Below 262144 writes.now × Sendable produced × AllRanked fallbacks.now × AllRanked uppers.now × Sendable element × Sendable array }
    ensures { store a.new ring.new result ≡ put_all (all_rules flows.now incoming.now reads.now writes.now root produced fallbacks.now uppers.now element array) (store a.old ring.old s) }
{
    let bounds = pass_bounds(
        a, ring, s, flows, incoming, root, produced, fallbacks, uppers,
    );
    if bounds.refusal != 0 {
        return bounds;
    }
    pass_constraints(a, ring, bounds, reads, writes, root, element, array)
}

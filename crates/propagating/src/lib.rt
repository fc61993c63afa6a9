// Turn by turn until nobody waits, or until a refusal.
#![tactic(auto)]

ghost use Rattle.std.specs.Prelude.{map, take};
ghost use Rattle.lattice.specs.World.{world_of};
ghost use Rattle.solving.specs.Solving.{propagate};
ghost use Rattle.solving.specs.TableKeys.{bound_of};
ghost use Rattle.inserting.specs.Store.{store};
ghost use Rattle.rules.specs.Rules.{links_in};
ghost use Rattle.running.specs.Running.{Leaves};
ghost use Rattle.propagating.specs.Propagating.{Runnable};

use inserting::State;
use running::{start, take_front};
use tables::Tables;
use turning::turn;

// A run: the solve at its end, and how many turns there were.
#[derive(Clone, Copy)]
pub struct Ran {
    pub state: State,
    pub turns: u64,
}

// From a table of `count` bounds; every component has a turn at least.
pub fn propagate(
    pairs: &[u64],
    marks: &[u64],
    t: Tables,
    a: &mut [u64],
    count: usize,
    ring: &mut [u64],
    words: &mut [u64],
    fallbacks: &mut [u64],
    uppers: &mut [u64],
    flows: &[u64],
    incoming: &[u64],
    reads: &[u64],
    writes: &[u64],
    components: u64,
) -> Ran
    requires { Runnable pairs.now marks.now t a.old count ring.old words.old fallbacks.old uppers.old flows.now incoming.now reads.now writes.now components }
    ensures { Leaves (propagate (world_of pairs.now marks.now t) (links_in flows.now incoming.now reads.now writes.now) components (map bound_of (take count a.old))) result.turns (store a.new ring.new result.state) }
{
    let mut state = start(ring, count, components);
    let mut turns: u64 = 0;
    while 0 < state.queue.len {
        let front = take_front(ring, state);
        state = turn(
            pairs,
            marks,
            t,
            a,
            ring,
            front.state,
            words,
            fallbacks,
            uppers,
            flows,
            incoming,
            reads,
            writes,
            front.root,
        );
        turns += 1;
        if state.refusal != 0 {
            return Ran { state, turns };
        }
    }
    Ran { state, turns }
}

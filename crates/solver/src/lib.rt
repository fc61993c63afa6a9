// A solve over tables: the given bounds are loaded, and the run leaves the final table where they were loaded to.
#![tactic(auto)]

ghost use Rattle.std.specs.Prelude.{◌≡◌, map};
ghost use Rattle.lattice.specs.World.{world_of};
ghost use Rattle.solving.specs.Solving.{propagate};
ghost use Rattle.solving.specs.TableKeys.{bound_of};
ghost use Rattle.rules.specs.Rules.{links_in};
ghost use Rattle.solver.specs.Solver.{Solvable, Scratch, Solved, counts_of};

use propagating::{Ran, propagate};
use running::load;
use solving::Counts;
use tables::Tables;

// What is handed back of a run.
fn counts_of(r: Ran) -> Counts
    ensures { result ≡ counts_of r }
{
    let s = r.state;
    if s.refusal != 0 {
        return Counts {
            refusal: s.refusal,
            bounds: 0,
            turns: 0,
        };
    }
    Counts {
        refusal: 0,
        bounds: s.count as u64,
        turns: r.turns,
    }
}

// In lent slices.
fn solve_over(
    pairs: &[u64],
    marks: &[u64],
    t: Tables,
    given: &[u64],
    a: &mut [u64],
    ring: &mut [u64],
    words: &mut [u64],
    fallbacks: &mut [u64],
    uppers: &mut [u64],
    flows: &[u64],
    incoming: &[u64],
    reads: &[u64],
    writes: &[u64],
    components: u64,
) -> Counts
    requires { Solvable pairs.now marks.now t given.now a.old flows.now incoming.now reads.now writes.now components × Scratch ring.old words.old fallbacks.old uppers.old }
    ensures { Solved (propagate (world_of pairs.now marks.now t) (links_in flows.now incoming.now reads.now writes.now) components (map bound_of given.now)) a.new result }
{
    load(given, a);
    let count = given.len();
    let ran = propagate(
        pairs, marks, t, a, count, ring, words, fallbacks, uppers, flows, incoming, reads, writes,
        components,
    );
    counts_of(ran)
}

// The given bounds are only read. Unrefused, the final table stands at the front of `a`.
pub fn solve(
    pairs: &[u64],
    marks: &[u64],
    t: Tables,
    given: &[u64],
    a: &mut [u64],
    flows: &[u64],
    incoming: &[u64],
    reads: &[u64],
    writes: &[u64],
    components: u64,
) -> Counts
    requires { Solvable pairs.now marks.now t given.now a.old flows.now incoming.now reads.now writes.now components }
    ensures { Solved (propagate (world_of pairs.now marks.now t) (links_in flows.now incoming.now reads.now writes.now) components (map bound_of given.now)) a.new result }
{
    let mut ring = [0u64; 512];
    let mut words = [0u64; 4096];
    let mut fallbacks = [0u64; 4096];
    let mut uppers = [0u64; 4096];
    solve_over(
        pairs,
        marks,
        t,
        given,
        a,
        &mut ring,
        &mut words,
        &mut fallbacks,
        &mut uppers,
        flows,
        incoming,
        reads,
        writes,
        components,
    )
}

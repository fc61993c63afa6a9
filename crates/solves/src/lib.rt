// The solve of a problem that sorted slices keep: incoming links, the run over the front of the lent work, and, unless it was refused,
// the answers and the final bounds at the front of the lent slices. The whole work is zero afterwards.
#![tactic(auto)]

ghost use Rattle.std.specs.Prelude.{◌≡◌, ◌≤◌, length};
ghost use Rattle.std.proofs.Math.Seq.{paste};
ghost use Rattle.lattice.specs.World.{world_of};
ghost use Rattle.solving.specs.Queue.{Below};
ghost use Rattle.solving.specs.Solving.{room, solve};
ghost use Rattle.problems.specs.Kept.{Keeps};
ghost use Rattle.resolving.specs.Bounds.{Classes, Classed};
ghost use Rattle.answering.specs.Answering.{table_in, Final, answer_words};
ghost use Rattle.solver.specs.Solver.{Solved};
ghost use Rattle.columnsout.specs.Columns.{WrittenBy};
ghost use Rattle.solves.specs.SolveResult.{Roomy, lent_asked, SolvesBy};
ghost use Rattle.solves.specs.Laws.{run_of, LeavesBy, kept_by, Answerable, Preparable};
ghost use Rattle.solves.specs.Choice.{Decides};
ghost use Rattle.sets.specs.Sets.{MembersBelow};

use answering::answers;
use clearing::clear;
use columnsout::write_columns;
use keys::key_type;
use linking::incoming_links;
use prepared::{TABLE, prepare};
use sets::Set;
use solver::solve;
use solving::Counts;
use tables::{PAIRS, Tables};

// From how many given bounds on rows are made.
const MANY: usize = 8;

// The run, with its incoming links in a lent slice.
fn run_linked(
    pairs: &[u64],
    marks: &[u64],
    t: Tables,
    components: u64,
    variables: &[u64],
    bounds: &[u64],
    flows: &[u64],
    uppers: &[u64],
    reads: &[u64],
    writes: &[u64],
    incoming: &mut [u64],
    a: &mut [u64],
) -> Counts
    requires { Classed pairs.now marks.now t × Keeps t.names components variables.now bounds.now flows.now uppers.now reads.now writes.now × (length incoming.old ≡ 3072) × (length a.old ≡ room) }
    ensures { Solved (run_of (world_of pairs.now marks.now t) (kept_by components variables bounds flows uppers reads writes)) a.new result }
{
    let n = incoming_links(flows, uppers, incoming);
    solve(
        pairs,
        marks,
        t,
        bounds,
        a,
        flows,
        &incoming[0..n],
        reads,
        writes,
        components,
    )
}

// The run; without a refusal the final table's keys stand at the front of `a`.
fn run_problem(
    pairs: &[u64],
    marks: &[u64],
    t: Tables,
    components: u64,
    variables: &[u64],
    bounds: &[u64],
    flows: &[u64],
    uppers: &[u64],
    reads: &[u64],
    writes: &[u64],
    a: &mut [u64],
) -> Counts
    requires { Classed pairs.now marks.now t × Keeps t.names components variables.now bounds.now flows.now uppers.now reads.now writes.now × (length a.old ≡ room) }
    ensures { Solved (run_of (world_of pairs.now marks.now t) (kept_by components variables bounds flows uppers reads writes)) a.new result }
{
    let mut incoming = [0u64; 3072];
    run_linked(
        pairs,
        marks,
        t,
        components,
        variables,
        bounds,
        flows,
        uppers,
        reads,
        writes,
        &mut incoming,
        a,
    )
}

// The answers and the columns of a final table.
fn write_solution(
    pairs: &[u64],
    marks: &[u64],
    t: Tables,
    variables: &[u64],
    keys: &[u64],
    into: &mut [u64],
    out_comp: &mut [u64],
    out_kind: &mut [u64],
    out_type: &mut [u64],
)
    requires { Classed pairs.now marks.now t × Final t.names keys.now × Below 512 variables.now × (length keys.now ≤ room) × (length variables.now ≤ length into.old) × (room ≤ length out_comp.old) × (room ≤ length out_kind.old) × (room ≤ length out_type.old) }
    ensures { (into.new ≡ paste into.old 0 (answer_words (world_of pairs.now marks.now t) (table_in keys.now) variables.now) (length variables.now)) × WrittenBy keys out_comp out_kind out_type }
{
    let mut copies = [0u64; 4096];
    answers(pairs, marks, t, keys, variables, &mut copies, into);
    write_columns(keys, out_comp, out_kind, out_type);
}

// The solve with its table in a lent slice of 4,096 words; a refused one writes no answer and no column.
fn solve_into(
    pairs: &[u64],
    marks: &[u64],
    t: Tables,
    components: u64,
    variables: &[u64],
    bounds: &[u64],
    flows: &[u64],
    uppers: &[u64],
    reads: &[u64],
    writes: &[u64],
    into: &mut [u64],
    out_comp: &mut [u64],
    out_kind: &mut [u64],
    out_type: &mut [u64],
    a: &mut [u64],
) -> Counts
    requires { Answerable (Classed pairs.now marks.now t) (Keeps t.names components variables.now bounds.now flows.now uppers.now reads.now writes.now) variables.now into.old out_comp.old out_kind.old out_type.old a.old }
    ensures { LeavesBy (solve (world_of pairs.now marks.now t) (kept_by components variables bounds flows uppers reads writes)) into out_comp out_kind out_type a result }
{
    let c = run_problem(
        pairs, marks, t, components, variables, bounds, flows, uppers, reads, writes, a,
    );
    if c.refusal != 0 {
        return c;
    }
    let n = c.bounds as usize;
    write_solution(
        pairs,
        marks,
        t,
        variables,
        &a[0..n],
        into,
        out_comp,
        out_kind,
        out_type,
    );
    c
}

// The set with the class of a key, where that is a class of the table, or an array of one.
fn with_given(names: u64, key: u64, s: Set) -> Set
    requires { MembersBelow names s.words }
    ensures { MembersBelow names result.words }
{
    let ty = key_type(key);
    if ty.tag() == 1 {
        let class = ty.load();
        if class < names {
            return s.with(class);
        }
        return s;
    }
    s
}

// The classes that the given bounds speak of.
fn given_classes(names: u64, bounds: &[u64]) -> Set
    ensures { MembersBelow names result.words }
{
    let mut s = Set::empty();
    for &key in bounds {
        s = with_given(names, key, s);
    }
    s
}

// The same with a row for each class that can occur: what is joined of given classes stands above them.
fn solve_prepared(
    pairs: &[u64],
    marks: &[u64],
    t: Tables,
    components: u64,
    variables: &[u64],
    bounds: &[u64],
    flows: &[u64],
    uppers: &[u64],
    reads: &[u64],
    writes: &[u64],
    into: &mut [u64],
    out_comp: &mut [u64],
    out_kind: &mut [u64],
    out_type: &mut [u64],
    a: &mut [u64],
) -> Counts
    requires { Preparable t pairs.now marks.now (Keeps t.names components variables.now bounds.now flows.now uppers.now reads.now writes.now) variables.now into.old out_comp.old out_kind.old out_type.old a.old }
    ensures { LeavesBy (solve (world_of pairs.now marks.now t) (kept_by components variables bounds flows uppers reads writes)) into out_comp out_kind out_type a result }
{
    let mut table = [0u64; TABLE];
    let given = given_classes(t.names, bounds);
    prepare(pairs, marks, t, given, &mut table);
    solve_into(
        &table, marks, t, components, variables, bounds, flows, uppers, reads, writes, into,
        out_comp, out_kind, out_type, a,
    )
}

// Whether rows are made: of few given bounds nothing is asked often enough. A slice as long as a table with rows has none yet.
fn is_prepared(len: usize, pairs: usize, given: usize) -> bool
    ensures { Decides len pairs result }
{
    if PAIRS < pairs {
        return false;
    }
    if len < pairs {
        return false;
    }
    if len == TABLE {
        return true;
    }
    MANY <= given
}

// The solve with or without rows.
fn solve_either(
    pairs: &[u64],
    marks: &[u64],
    t: Tables,
    components: u64,
    variables: &[u64],
    bounds: &[u64],
    flows: &[u64],
    uppers: &[u64],
    reads: &[u64],
    writes: &[u64],
    into: &mut [u64],
    out_comp: &mut [u64],
    out_kind: &mut [u64],
    out_type: &mut [u64],
    a: &mut [u64],
) -> Counts
    requires { Answerable (Classes marks.now t) (Keeps t.names components variables.now bounds.now flows.now uppers.now reads.now writes.now) variables.now into.old out_comp.old out_kind.old out_type.old a.old }
    ensures { LeavesBy (solve (world_of pairs.now marks.now t) (kept_by components variables bounds flows uppers reads writes)) into out_comp out_kind out_type a result }
{
    if is_prepared(pairs.len(), t.pairs, bounds.len()) {
        return solve_prepared(
            pairs, marks, t, components, variables, bounds, flows, uppers, reads, writes, into,
            out_comp, out_kind, out_type, a,
        );
    }
    solve_into(
        pairs, marks, t, components, variables, bounds, flows, uppers, reads, writes, into,
        out_comp, out_kind, out_type, a,
    )
}

// The table stands at the front of the work while it is made; what is past 4,096 words stays free.
pub fn solve_problem(
    pairs: &[u64],
    marks: &[u64],
    t: Tables,
    components: u64,
    variables: &[u64],
    bounds: &[u64],
    flows: &[u64],
    uppers: &[u64],
    reads: &[u64],
    writes: &[u64],
    answers: &mut [u64],
    out_comp: &mut [u64],
    out_kind: &mut [u64],
    out_type: &mut [u64],
    work: &mut [u64],
) -> Counts
    requires { Classes marks.now t × Keeps t.names components variables.now bounds.now flows.now uppers.now reads.now writes.now × Roomy (length variables.now) (lent_asked answers out_comp out_kind out_type work) }
    ensures { SolvesBy (solve (world_of pairs.now marks.now t) (kept_by components variables bounds flows uppers reads writes)) answers out_comp out_kind out_type work result }
{
    let c = solve_either(
        pairs,
        marks,
        t,
        components,
        variables,
        bounds,
        flows,
        uppers,
        reads,
        writes,
        answers,
        out_comp,
        out_kind,
        out_type,
        &mut work[0..4096],
    );
    clear(work);
    c
}

// The solve of a problem's columns over a class table that was built: the problem's rows into local arrays, their refusal or the lack of
// java/lang/Object, and the solve of what the arrays keep. Only the solve writes answers and columns, and only where it is not refused.
#![tactic(auto)]

ghost use Rattle.lattice.specs.World.{world_of};
ghost use Rattle.solving.specs.Solving.{solve};
ghost use Rattle.solves.specs.SolveResult.{SolvesBy};
ghost use Rattle.solverows.specs.SolveRows.{AskedRows, AskedFront, front_by, SolvesRowsBy};

use problemcolumns::{ProblemCounts, build_problem};
use solvechecks::{refuse, rows_refusal};
use solves::solve_problem;
use solving::Counts;
use tables::Tables;

// The solve of the problem that the fronts of slices keep.
fn solve_kept(
    pairs: &[u64],
    marks: &[u64],
    t: Tables,
    components: u64,
    var_comp: &[u64],
    bounds: &[u64],
    flows: &[u64],
    uppers: &[u64],
    reads: &[u64],
    writes: &[u64],
    n: ProblemCounts,
    answers: &mut [u64],
    out_comp: &mut [u64],
    out_kind: &mut [u64],
    out_type: &mut [u64],
    work: &mut [u64],
) -> Counts
    requires { AskedFront marks t components var_comp n bounds flows uppers reads writes answers out_comp out_kind out_type work }
    ensures { SolvesBy (solve (world_of pairs.now marks.now t) (front_by components var_comp n bounds flows uppers reads writes)) answers out_comp out_kind out_type work result }
{
    let b = n.bounds;
    let f = n.flows;
    let u = n.uppers;
    let r = n.reads;
    let w = n.writes;
    solve_problem(
        pairs,
        marks,
        t,
        components,
        var_comp,
        &bounds[0..b],
        &flows[0..f],
        &uppers[0..u],
        &reads[0..r],
        &writes[0..w],
        answers,
        out_comp,
        out_kind,
        out_type,
        work,
    )
}

// The solve of the columns over the table in two slices.
pub fn solve_rows(
    pairs: &[u64],
    marks: &[u64],
    t: Tables,
    components: u64,
    var_comp: &[u64],
    bnd_comp: &[u64],
    bnd_kind: &[u64],
    bnd_type: &[u64],
    flow_src: &[u64],
    flow_dst: &[u64],
    up_src: &[u64],
    up_dst: &[u64],
    read_arr: &[u64],
    read_res: &[u64],
    write_arr: &[u64],
    write_val: &[u64],
    answers: &mut [u64],
    out_comp: &mut [u64],
    out_kind: &mut [u64],
    out_type: &mut [u64],
    work: &mut [u64],
) -> Counts
    requires { AskedRows marks t components var_comp bnd_comp bnd_kind bnd_type flow_src flow_dst up_src up_dst read_arr read_res write_arr write_val answers out_comp out_kind out_type work }
    ensures { SolvesRowsBy (world_of pairs.now marks.now t) t components var_comp bnd_comp bnd_kind bnd_type flow_src flow_dst up_src up_dst read_arr read_res write_arr write_val answers out_comp out_kind out_type work result }
{
    let mut bounds = [0u64; 4096];
    let mut flows = [0u64; 2048];
    let mut uppers = [0u64; 1024];
    let mut reads = [0u64; 1024];
    let mut writes = [0u64; 1024];
    let n = build_problem(
        t.names,
        components,
        var_comp,
        bnd_comp,
        bnd_kind,
        bnd_type,
        flow_src,
        flow_dst,
        up_src,
        up_dst,
        read_arr,
        read_res,
        write_arr,
        write_val,
        &mut bounds,
        &mut flows,
        &mut uppers,
        &mut reads,
        &mut writes,
    );
    let refusal = rows_refusal(n.refusal, t.object);
    if refusal != 0 {
        return refuse(refusal, work);
    }
    solve_kept(
        pairs, marks, t, components, var_comp, &bounds, &flows, &uppers, &reads, &writes, n,
        answers, out_comp, out_kind, out_type, work,
    )
}

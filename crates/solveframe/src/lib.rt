// The frame of a solve, 0a: 9 without java/lang/Object, else the solve of the problem whose rows stand in parts of one slice. Its answers go in
// front of a lent slice, a word a variable; its columns and its work are locals.
#![tactic(auto)]

ghost use Rattle.std.specs.Prelude.{◌≡◌, ◌≤◌, length};
ghost use Rattle.lattice.specs.World.{world_of};
ghost use Rattle.solving.specs.Solving.{solve};
ghost use Rattle.problems.specs.Kept.{problem_of, Keeps};
ghost use Rattle.resolving.specs.Bounds.{Classes};
ghost use Rattle.framestate.specs.FrameState.{Within};
ghost use Rattle.solveframe.specs.Parts.{problem_room, problem_in, KeepsIn};
ghost use Rattle.solveframe.specs.SolveFrame.{Alone, SolveReady, solved_by, SolveFrames};

use framestate::{Framed, Numbers, Said, refuse};
use solves::solve_problem;
use solving::Counts;
use tables::Tables;

// The solve with its columns and its work in local arrays.
fn solve_alone(
    pairs: &[u64],
    marks: &[u64],
    t: Tables,
    components: u64,
    variables: &[u64],
    bounds: &[u64],
    flows: &[u64],
    uppers: &[u64],
    reads: &[u64],
    writes: &[u64],
    answers: &mut [u64],
) -> Counts
    requires { Classes marks.now t × Keeps t.names components variables.now bounds.now flows.now uppers.now reads.now writes.now × (length variables.now ≤ length answers.old) }
    ensures { Alone (solve (world_of pairs.now marks.now t) (problem_of components variables.now bounds.now flows.now uppers.now reads.now writes.now)) answers.old answers.new result }
{
    let mut out_comp = [0u64; 4096];
    let mut out_kind = [0u64; 4096];
    let mut out_type = [0u64; 4096];
    let mut work = [0u64; 8192];
    solve_problem(
        pairs,
        marks,
        t,
        components,
        variables,
        bounds,
        flows,
        uppers,
        reads,
        writes,
        answers,
        &mut out_comp,
        &mut out_kind,
        &mut out_type,
        &mut work,
    )
}

// The solve of the rows that count.
fn solve_rows(pairs: &[u64], marks: &[u64], rows: &[u64], answers: &mut [u64], n: Numbers) -> Counts
    requires { Classes marks.now n.stack.tables × KeepsIn rows.now n × Within n × (length rows.now ≡ problem_room) × (2048 ≤ length answers.old) }
    ensures { Alone (solve (world_of pairs.now marks.now n.stack.tables) (problem_in rows.now n)) answers.old answers.new result }
{
    let b = 2048 + n.bounds;
    let f = 6144 + n.flows;
    let u = 8192 + n.uppers;
    let r = 9216 + n.reads;
    let w = 10240 + n.writes;
    solve_alone(
        pairs,
        marks,
        n.stack.tables,
        n.components,
        &rows[0..n.variables],
        &rows[2048..b],
        &rows[6144..f],
        &rows[8192..u],
        &rows[9216..r],
        &rows[10240..w],
        answers,
    )
}

// What is said of a run, with the numbers after it.
fn say(n: Numbers, refusal: u64) -> Framed
    ensures { result ≡ solved_by refusal n }
{
    if refusal != 0 {
        return refuse(n, refusal);
    }
    Framed {
        said: Said::Solved,
        numbers: n.asked(),
    }
}

// 0a.
pub fn solve_frame(
    pairs: &[u64],
    marks: &[u64],
    rows: &[u64],
    answers: &mut [u64],
    n: Numbers,
) -> Framed
    requires { SolveReady marks.now rows.now answers.old n }
    ensures { SolveFrames (solve (world_of pairs.now marks.now n.stack.tables) (problem_in rows.now n)) answers.old answers.new n result }
{
    let s = n.stack;
    let t = s.tables;
    if t.object == u64::MAX {
        return refuse(n, 9);
    }
    let c = solve_rows(pairs, marks, rows, answers, n);
    say(n, c.refusal)
}

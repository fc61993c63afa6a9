// What a solve over slices is refused with outside its rows, and what is left then: 22 for a lent slice that is too short, 3 for columns of
// unequal length, 9 where the rows are taken and java/lang/Object is not among the names. Numbers alone, so that an edit is checked in seconds.
#![tactic(auto)]

ghost use Rattle.std.specs.Prelude.{◌≡◌, length, replicate};
ghost use Rattle.problemcolumns.specs.ProblemColumns.{even_rows};
ghost use Rattle.solver.specs.Solver.{counted};
ghost use Rattle.solvechecks.specs.SolveChecks.{short_lengths, lengths_refusal, rows_refusal, work_left};

use clearing::clear;
use problemcolumns::is_even_problem;
use solving::Counts;

// The least length of a column of final bounds, and of the work.
const BOUNDS: usize = 4096;

const ROOM: usize = 8192;

// The numbers of the refusals.
const SHORT: u64 = 22;

const UNEVEN: u64 = 3;

const NO_OBJECT: u64 = 9;

// Whether a lent slice is too short.
fn is_short(
    variables: usize,
    answers: usize,
    out_comp: usize,
    out_kind: usize,
    out_type: usize,
    work: usize,
) -> bool
    ensures { result ≡ short_lengths variables answers out_comp out_kind out_type work }
{
    if answers < variables {
        return true;
    }
    if out_comp < BOUNDS {
        return true;
    }
    if out_kind < BOUNDS {
        return true;
    }
    if out_type < BOUNDS {
        return true;
    }
    work < ROOM
}

// The refusal of the slices by their lengths.
pub fn lengths_refusal(
    variables: usize,
    answers: usize,
    out_comp: usize,
    out_kind: usize,
    out_type: usize,
    work: usize,
    bnd_comp: usize,
    bnd_kind: usize,
    bnd_type: usize,
    flow_src: usize,
    flow_dst: usize,
    up_src: usize,
    up_dst: usize,
    read_arr: usize,
    read_res: usize,
    write_arr: usize,
    write_val: usize,
) -> u64
    ensures { result ≡ lengths_refusal (short_lengths variables answers out_comp out_kind out_type work) (even_rows bnd_comp bnd_kind bnd_type flow_src flow_dst up_src up_dst read_arr read_res write_arr write_val) }
{
    if is_short(variables, answers, out_comp, out_kind, out_type, work) {
        return SHORT;
    }
    if is_even_problem(
        bnd_comp, bnd_kind, bnd_type, flow_src, flow_dst, up_src, up_dst, read_arr, read_res,
        write_arr, write_val,
    ) {
        return 0;
    }
    UNEVEN
}

// The refusal of the problem's rows, or that there is no Object.
pub fn rows_refusal(refusal: u64, object: u64) -> u64
    ensures { result ≡ rows_refusal refusal object }
{
    if refusal != 0 {
        return refusal;
    }
    if object == u64::MAX {
        return NO_OBJECT;
    }
    0
}

// A refusal, and zeros.
fn refused(code: u64) -> Counts
    ensures { result ≡ counted code 0 0 }
{
    Counts {
        refusal: code,
        bounds: 0,
        turns: 0,
    }
}

// The same, of a work that is cleared.
pub fn refuse(code: u64, work: &mut [u64]) -> Counts
    ensures { (result ≡ counted code 0 0) × (work.new ≡ replicate (length work.old) 0) }
{
    clear(work);
    refused(code)
}

// The same, but 22 leaves the work as it came.
pub fn refuse_lengths(code: u64, work: &mut [u64]) -> Counts
    ensures { (result ≡ counted code 0 0) × (work.new ≡ work_left code work.old) }
{
    if code == SHORT {
        return refused(code);
    }
    refuse(code, work)
}

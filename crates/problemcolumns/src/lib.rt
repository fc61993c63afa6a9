// A problem from columns: the count, then row by row in order of kind; the first refusal wins. Variables stay where they are: where nothing
// is refused, they are the column itself.
#![tactic(auto)]

ghost use Rattle.std.specs.Prelude.{◌≡◌, true, [], ◌≤◌, length};
ghost use Rattle.problems.specs.Problems.{even_problem};
ghost use Rattle.problemrows.specs.ProblemRows.{Adds};
ghost use Rattle.problemcolumns.specs.ProblemColumns.{even_rows, Roomy, columns_asked, columns_by, TakenBy};
ghost use Rattle.problemcolumns.specs.Runs.{variable_run, head_refusal, bound_run, pair_run, after, EntersBy};

use problemrows::{
    ARRAYS, Added, FLOWS, UPPER_FLOWS, add_bound, add_pair, check_count, check_variable,
};

// 0 or the refusal, and how many entries the slices hold.
#[derive(Clone, Copy)]
pub struct ProblemCounts {
    pub refusal: u64,
    pub bounds: usize,
    pub flows: usize,
    pub uppers: usize,
    pub reads: usize,
    pub writes: usize,
}

// Whether the columns of each kind are of equal length, from their lengths.
pub fn is_even_problem(
    bnd_comp: usize,
    bnd_kind: usize,
    bnd_type: usize,
    flow_src: usize,
    flow_dst: usize,
    up_src: usize,
    up_dst: usize,
    read_arr: usize,
    read_res: usize,
    write_arr: usize,
    write_val: usize,
) -> bool
    ensures { result ≡ even_rows bnd_comp bnd_kind bnd_type flow_src flow_dst up_src up_dst read_arr read_res write_arr write_val }
{
    if bnd_comp != bnd_kind {
        return false;
    }
    if bnd_comp != bnd_type {
        return false;
    }
    if flow_src != flow_dst {
        return false;
    }
    if up_src != up_dst {
        return false;
    }
    if read_arr != read_res {
        return false;
    }
    write_arr == write_val
}

// The refusal of the variables.
fn check_variables(components: u64, var_comp: &[u64]) -> u64
    ensures { result ≡ (variable_run components var_comp.now []).refusal }
{
    let mut i: usize = 0;
    while i < var_comp.len() {
        let refusal = check_variable(components, i, var_comp[i]);
        if refusal != 0 {
            return refusal;
        }
        i += 1;
    }
    0
}

// The refusal of the count, or of the variables after it.
fn check_head(components: u64, var_comp: &[u64]) -> u64
    ensures { result ≡ head_refusal components var_comp.now }
{
    let refusal = check_count(components);
    if refusal != 0 {
        return refusal;
    }
    check_variables(components, var_comp)
}

// The bounds of the columns.
fn add_bounds(
    names: u64,
    components: u64,
    bnd_comp: &[u64],
    bnd_kind: &[u64],
    bnd_type: &[u64],
    bounds: &mut [u64],
) -> Added
    requires { (names ≤ 1024) × (components ≤ 512) × (length bnd_comp.now ≡ length bnd_kind.now) × (length bnd_comp.now ≡ length bnd_type.now) × (4096 ≤ length bounds.old) }
    ensures { Adds (bound_run names components bnd_comp.now bnd_kind.now bnd_type.now []) bounds.old bounds.new result }
{
    let mut n: usize = 0;
    let mut i: usize = 0;
    while i < bnd_comp.len() {
        let row = add_bound(
            names,
            components,
            bounds,
            n,
            bnd_comp[i],
            bnd_kind[i],
            bnd_type[i],
        );
        if row.refusal != 0 {
            return row;
        }
        n = row.count;
        i += 1;
    }
    Added {
        refusal: 0,
        count: n,
    }
}

// The pairs of two columns, of which there may be `room`.
fn add_pairs(
    components: u64,
    firsts: &[u64],
    seconds: &[u64],
    pairs: &mut [u64],
    room: usize,
) -> Added
    requires { (components ≤ 512) × (length firsts.now ≡ length seconds.now) × (room ≤ length pairs.old) }
    ensures { Adds (pair_run components room firsts.now seconds.now []) pairs.old pairs.new result }
{
    let mut n: usize = 0;
    let mut i: usize = 0;
    while i < firsts.len() {
        let row = add_pair(components, pairs, n, room, firsts[i], seconds[i]);
        if row.refusal != 0 {
            return row;
        }
        n = row.count;
        i += 1;
    }
    Added {
        refusal: 0,
        count: n,
    }
}

// The same after rows of other kinds: none where one of those was refused.
fn add_pairs_after(
    refusal: u64,
    components: u64,
    firsts: &[u64],
    seconds: &[u64],
    pairs: &mut [u64],
    room: usize,
) -> Added
    requires { (components ≤ 512) × (length firsts.now ≡ length seconds.now) × (room ≤ length pairs.old) }
    ensures { Adds (after refusal (pair_run components room firsts.now seconds.now [])) pairs.old pairs.new result }
{
    if refusal != 0 {
        return Added { refusal, count: 0 };
    }
    add_pairs(components, firsts, seconds, pairs, room)
}

// Bounds and pairs, where the count and the variables are taken.
fn build_entries(
    names: u64,
    components: u64,
    var_comp: &[u64],
    bnd_comp: &[u64],
    bnd_kind: &[u64],
    bnd_type: &[u64],
    flow_src: &[u64],
    flow_dst: &[u64],
    up_src: &[u64],
    up_dst: &[u64],
    read_arr: &[u64],
    read_res: &[u64],
    write_arr: &[u64],
    write_val: &[u64],
    bounds: &mut [u64],
    flows: &mut [u64],
    uppers: &mut [u64],
    reads: &mut [u64],
    writes: &mut [u64],
) -> ProblemCounts
    requires { (names ≤ 1024) × (components ≤ 512) × (even_problem (columns_asked components var_comp bnd_comp bnd_kind bnd_type flow_src flow_dst up_src up_dst read_arr read_res write_arr write_val) ≡ true) × Roomy bounds.old flows.old uppers.old reads.old writes.old }
    ensures { EntersBy names (columns_by components var_comp bnd_comp bnd_kind bnd_type flow_src flow_dst up_src up_dst read_arr read_res write_arr write_val) bounds flows uppers reads writes result }
{
    let b = add_bounds(names, components, bnd_comp, bnd_kind, bnd_type, bounds);
    let f = add_pairs_after(b.refusal, components, flow_src, flow_dst, flows, FLOWS);
    let u = add_pairs_after(f.refusal, components, up_src, up_dst, uppers, UPPER_FLOWS);
    let r = add_pairs_after(u.refusal, components, read_arr, read_res, reads, ARRAYS);
    let room = ARRAYS - r.count;
    let w = add_pairs_after(r.refusal, components, write_arr, write_val, writes, room);
    ProblemCounts {
        refusal: w.refusal,
        bounds: b.count,
        flows: f.count,
        uppers: u.count,
        reads: r.count,
        writes: w.count,
    }
}

// The problem of columns of equal length.
pub fn build_problem(
    names: u64,
    components: u64,
    var_comp: &[u64],
    bnd_comp: &[u64],
    bnd_kind: &[u64],
    bnd_type: &[u64],
    flow_src: &[u64],
    flow_dst: &[u64],
    up_src: &[u64],
    up_dst: &[u64],
    read_arr: &[u64],
    read_res: &[u64],
    write_arr: &[u64],
    write_val: &[u64],
    bounds: &mut [u64],
    flows: &mut [u64],
    uppers: &mut [u64],
    reads: &mut [u64],
    writes: &mut [u64],
) -> ProblemCounts
    requires { (names ≤ 1024) × (even_problem (columns_asked components var_comp bnd_comp bnd_kind bnd_type flow_src flow_dst up_src up_dst read_arr read_res write_arr write_val) ≡ true) × Roomy bounds.old flows.old uppers.old reads.old writes.old }
    ensures { TakenBy names (columns_by components var_comp bnd_comp bnd_kind bnd_type flow_src flow_dst up_src up_dst read_arr read_res write_arr write_val) bounds flows uppers reads writes result }
{
    let refusal = check_head(components, var_comp);
    if refusal != 0 {
        return ProblemCounts {
            refusal,
            bounds: 0,
            flows: 0,
            uppers: 0,
            reads: 0,
            writes: 0,
        };
    }
    build_entries(
        names, components, var_comp, bnd_comp, bnd_kind, bnd_type, flow_src, flow_dst, up_src,
        up_dst, read_arr, read_res, write_arr, write_val, bounds, flows, uppers, reads, writes,
    )
}

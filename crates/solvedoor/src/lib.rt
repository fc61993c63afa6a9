// A solve over slices: no slice too short, columns of equal length, the class table built from its columns in local arrays, then the
// problem's rows and the solve over it. What is refused before the solve leaves answers and columns as they came.
#![tactic(auto)]

ghost use Rattle.solvedoor.specs.SolveDoor.{SolvesInBy};
ghost use Rattle.solvedoor.specs.Inside.{SolvesOfBy, AskedSolve, AskedOver};

use columns::TableColumns;
use layercolumns::first_open;
use layers::SHOWN;
use questions::build_table;
use solvechecks::{lengths_refusal, refuse, refuse_lengths};
use solverows::solve_rows;
use solving::Counts;
use tables::{MARKS, PAIRS};

// The solve in two slices without entries that have room for the table's layers, of a problem's columns of equal length.
fn solve_over(
    table: &TableColumns,
    pairs: &mut [u64],
    marks: &mut [u64],
    components: u64,
    var_comp: &[u64],
    bnd_comp: &[u64],
    bnd_kind: &[u64],
    bnd_type: &[u64],
    flow_src: &[u64],
    flow_dst: &[u64],
    up_src: &[u64],
    up_dst: &[u64],
    read_arr: &[u64],
    read_res: &[u64],
    write_arr: &[u64],
    write_val: &[u64],
    answers: &mut [u64],
    out_comp: &mut [u64],
    out_kind: &mut [u64],
    out_type: &mut [u64],
    work: &mut [u64],
) -> Counts
    requires { AskedOver table.now pairs marks components var_comp bnd_comp bnd_kind bnd_type flow_src flow_dst up_src up_dst read_arr read_res write_arr write_val answers out_comp out_kind out_type work }
    ensures { SolvesOfBy table.now components var_comp bnd_comp bnd_kind bnd_type flow_src flow_dst up_src up_dst read_arr read_res write_arr write_val answers out_comp out_kind out_type work result }
{
    let o = build_table(table, pairs, marks);
    if o.refusal != 0 {
        return refuse(o.refusal, work);
    }
    solve_rows(
        pairs, marks, o.tables, components, var_comp, bnd_comp, bnd_kind, bnd_type, flow_src,
        flow_dst, up_src, up_dst, read_arr, read_res, write_arr, write_val, answers, out_comp,
        out_kind, out_type, work,
    )
}

// Over a table with layers.
fn solve_layers(
    table: &TableColumns,
    components: u64,
    var_comp: &[u64],
    bnd_comp: &[u64],
    bnd_kind: &[u64],
    bnd_type: &[u64],
    flow_src: &[u64],
    flow_dst: &[u64],
    up_src: &[u64],
    up_dst: &[u64],
    read_arr: &[u64],
    read_res: &[u64],
    write_arr: &[u64],
    write_val: &[u64],
    answers: &mut [u64],
    out_comp: &mut [u64],
    out_kind: &mut [u64],
    out_type: &mut [u64],
    work: &mut [u64],
) -> Counts
    requires { AskedSolve components var_comp bnd_comp bnd_kind bnd_type flow_src flow_dst up_src up_dst read_arr read_res write_arr write_val answers out_comp out_kind out_type work }
    ensures { SolvesOfBy table.now components var_comp bnd_comp bnd_kind bnd_type flow_src flow_dst up_src up_dst read_arr read_res write_arr write_val answers out_comp out_kind out_type work result }
{
    let mut pairs = [0u64; SHOWN];
    let mut marks = [0u64; MARKS];
    solve_over(
        table, &mut pairs, &mut marks, components, var_comp, bnd_comp, bnd_kind, bnd_type,
        flow_src, flow_dst, up_src, up_dst, read_arr, read_res, write_arr, write_val, answers,
        out_comp, out_kind, out_type, work,
    )
}

// The solve of a problem over a class table, both in columns.
pub fn solve_slices(
    table: &TableColumns,
    components: u64,
    var_comp: &[u64],
    bnd_comp: &[u64],
    bnd_kind: &[u64],
    bnd_type: &[u64],
    flow_src: &[u64],
    flow_dst: &[u64],
    up_src: &[u64],
    up_dst: &[u64],
    read_arr: &[u64],
    read_res: &[u64],
    write_arr: &[u64],
    write_val: &[u64],
    answers: &mut [u64],
    out_comp: &mut [u64],
    out_kind: &mut [u64],
    out_type: &mut [u64],
    work: &mut [u64],
) -> Counts
    ensures { SolvesInBy table.now components var_comp bnd_comp bnd_kind bnd_type flow_src flow_dst up_src up_dst read_arr read_res write_arr write_val answers out_comp out_kind out_type work result }
{
    let short = lengths_refusal(
        var_comp.len(),
        answers.len(),
        out_comp.len(),
        out_kind.len(),
        out_type.len(),
        work.len(),
        bnd_comp.len(),
        bnd_kind.len(),
        bnd_type.len(),
        flow_src.len(),
        flow_dst.len(),
        up_src.len(),
        up_dst.len(),
        read_arr.len(),
        read_res.len(),
        write_arr.len(),
        write_val.len(),
    );
    if short != 0 {
        return refuse_lengths(short, work);
    }
    if first_open(table.rec_flags) < table.rec_flags.len() {
        return solve_layers(
            table, components, var_comp, bnd_comp, bnd_kind, bnd_type, flow_src, flow_dst, up_src,
            up_dst, read_arr, read_res, write_arr, write_val, answers, out_comp, out_kind,
            out_type, work,
        );
    }
    let mut pairs = [0u64; PAIRS];
    let mut marks = [0u64; MARKS];
    solve_over(
        table, &mut pairs, &mut marks, components, var_comp, bnd_comp, bnd_kind, bnd_type,
        flow_src, flow_dst, up_src, up_dst, read_arr, read_res, write_arr, write_val, answers,
        out_comp, out_kind, out_type, work,
    )
}

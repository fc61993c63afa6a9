// Where a class table is refused. It is built as a question builds it; where a row is refused, its rows are gone through once more for the first.
#![tactic(auto)]

ghost use Rattle.std.specs.Prelude.{◌≡◌, replicate};
ghost use Rattle.columns.specs.Columns.{EvenRecords, EvenColumns};
ghost use Rattle.columns.specs.Given.{given_of};
ghost use Rattle.layers.specs.Stacks.{ground};
ghost use Rattle.layercolumns.specs.LayerColumns.{RoomFor};
ghost use Rattle.stackview.specs.Agrees.{stack_in};
ghost use Rattle.tablecheck.specs.TableCheck.{rows_check, table_check};
ghost use Rattle.tablecheck.specs.Inside.{stop_in, unrecorded, came_to, Fresh};

use columns::{TableColumns, build_names};
use layercolumns::{build_shown, first_open, lowest, stack_row};
use layers::SHOWN;
use rows::Outcome;
use tables::{MARKS, PAIRS, Tables};

// A refusal, the part of the table that it is about (0 columns of unequal length, 1 names, 2 records, 3 no name is
// java/lang/Object), and the first refused row of the names or records; zeros where nothing is refused.
#[derive(Clone, Copy)]
pub struct TableCheck {
    pub refusal: u64,
    pub part: u64,
    pub row: u64,
}

// The refusal of the first record that is refused, and its row; 0 and the number of records where none is.
#[derive(Clone, Copy)]
pub(crate) struct Stop {
    pub refusal: u64,
    pub row: u64,
}

// The records of a table whose names are `t`.
fn check_records(columns: &TableColumns, t: Tables) -> Stop
    requires { EvenRecords columns.now × Fresh t }
    ensures { result ≡ stop_in columns.now (ground (unrecorded t)) }
{
    let mut pairs = [0u64; SHOWN];
    let mut marks = [0u64; MARKS];
    let mut u = lowest(t);
    for i in 0..columns.rec_flags.len() {
        let row = stack_row(
            columns.rec_flags[i],
            columns.rec_class[i],
            columns.rec_at[i],
            columns.rec_len[i],
            columns.parents,
            &mut pairs,
            &mut marks,
            u,
        );
        if row.refusal != 0 {
            return Stop {
                refusal: row.refusal,
                row: i as u64,
            };
        }
        u = row.stack;
    }
    Stop {
        refusal: 0,
        row: columns.rec_flags.len() as u64,
    }
}

// What columns of equal length come to, whatever the order of their records, in an array with room for their layers.
fn build_in<const ROOM: usize>(columns: &TableColumns) -> Outcome
    requires { EvenColumns columns.now × RoomFor columns.now.rec_flags.now (replicate ROOM 0) }
    ensures { result ≡ came_to (stack_in (given_of columns.now)) }
{
    let mut pairs = [0u64; ROOM];
    let mut marks = [0u64; MARKS];
    build_shown(columns, &mut pairs, &mut marks)
}

// With the room that is needed.
fn build_rows(columns: &TableColumns) -> Outcome
    requires { EvenColumns columns.now }
    ensures { result ≡ came_to (stack_in (given_of columns.now)) }
{
    if first_open(columns.rec_flags) < columns.rec_flags.len() {
        return build_in::<SHOWN>(columns);
    }
    build_in::<PAIRS>(columns)
}

// The first refused row of columns of equal length, not all of which are taken.
fn find_row(columns: &TableColumns) -> TableCheck
    requires { EvenColumns columns.now × ((stack_in (given_of columns.now)).refusal ≡ 0 → ⊥) }
    ensures { result ≡ rows_check (given_of columns.now) }
{
    let named = build_names(columns);
    let t = named.tables;
    if named.refusal != 0 {
        return TableCheck {
            refusal: named.refusal,
            part: 1,
            row: t.names,
        };
    }
    let stop = check_records(columns, t);
    TableCheck {
        refusal: stop.refusal,
        part: 2,
        row: stop.row,
    }
}

// Columns of equal length: built as a question builds them, and gone through row by row only where a row is refused.
fn check_rows(columns: &TableColumns) -> TableCheck
    requires { EvenColumns columns.now }
    ensures { result ≡ rows_check (given_of columns.now) }
{
    let whole = build_rows(columns);
    if whole.refusal != 0 {
        return find_row(columns);
    }
    let t = whole.tables;
    if t.object == u64::MAX {
        return TableCheck {
            refusal: 9,
            part: 3,
            row: 0,
        };
    }
    TableCheck {
        refusal: 0,
        part: 0,
        row: 0,
    }
}

// Any columns.
pub fn check_table(columns: &TableColumns) -> TableCheck
    ensures { result ≡ table_check (given_of columns.now) }
{
    if columns.is_even() {
        return check_rows(columns);
    }
    TableCheck {
        refusal: 3,
        part: 0,
        row: 0,
    }
}

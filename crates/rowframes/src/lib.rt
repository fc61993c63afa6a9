// The frames of rows, 01 to 09, and of a layer that is opened, 0e: the fields of a body, the row's own function, the numbers after it.
#![tactic(auto)]

ghost use Rattle.std.specs.Prelude.{◌≡◌, ◌-◌, ◌%◌, ◌≤◌, ◌<◌, length, take, drop, get_or};
ghost use Rattle.sorted.specs.Sorted.{Sorted};
ghost use Rattle.rows.specs.Rows.{name_row, filled};
ghost use Rattle.layers.specs.Stacks.{stack_of, stack_ran, Holds, opened_tables};
ghost use Rattle.problemrows.specs.ProblemRows.{count_refusal, variable_row, bound_row, pair_row};
ghost use Rattle.hexline.specs.Hex.{number_at, numbers_in, bytes_number};
ghost use Rattle.framestate.specs.FrameState.{taken, record_numbers, count_numbers, variable_numbers, bound_numbers, flow_numbers, upper_numbers, read_numbers, write_numbers};
ghost use Rattle.rowframes.specs.RowFrames.{NameFrames, RecordFrames, RowFrames};

use framestate::{Framed, Numbers, accept, refuse};
use hexline::{number_at, put_numbers, word_at_3};
use layers::{add_to_stack, open_layer};
use problemrows::{ARRAYS, FLOWS, UPPER_FLOWS, add_bound, add_pair, add_variable, check_count};
use rows::add_name;

// One byte of a body.
fn byte_at(body: &[u8], i: usize) -> u64
    requires { i < length body.now }
    ensures { (result ≡ get_or body.now i 0) × (result < 256) }
{
    u64::from(body[i])
}

// Accepted with the numbers of the row, or refused with those before it.
fn finish(refusal: u64, n: Numbers, with: Numbers) -> Framed
    ensures { result ≡ taken refusal n with }
{
    if refusal != 0 {
        return refuse(n, refusal);
    }
    accept(with)
}

// Puts bytes in front.
fn copy(from: &[u8], to: &mut [u8])
    requires { length from.now ≤ length to.old }
    ensures { to.new ≡ filled from.now to.old }
{
    to[..from.len()].copy_from_slice(from);
}

// 01: a name.
pub fn name_frame(body: &[u8], last: &mut [u8], n: Numbers) -> Framed
    requires { (n.last ≤ length last.old) × (length body.now ≤ length last.old) }
    ensures { NameFrames (name_row (take n.last last.old) body.now n.stack.tables) body.now last.old last.new n result }
{
    let used = n.last;
    let s = n.stack;
    let t = s.tables;
    let o = add_name(&last[0..used], body, t);
    if o.refusal != 0 {
        return refuse(n, o.refusal);
    }
    copy(body, last);
    let u = o.tables;
    accept(n.named(body.len(), u))
}

// 02: flags, a class, its parents, in the topmost layer.
pub fn record_frame(body: &[u8], pairs: &mut [u64], marks: &mut [u64], n: Numbers) -> Framed
    requires { (3 ≤ length body.now) × (length body.now % 2 ≡ 1) × (length body.now ≤ 511) × Holds pairs.old marks.old n.stack }
    ensures { RecordFrames (stack_ran (stack_of pairs.old marks.old n.stack) (get_or body.now 0 0) (number_at 1 body.now) (numbers_in (drop 3 body.now))) pairs.old pairs.new marks.new n result }
{
    let mut parents = [0u64; 254];
    let k = put_numbers(&body[3..], &mut parents);
    let flags = byte_at(body, 0);
    let class = number_at(body, 1);
    let s = n.stack;
    let o = add_to_stack(flags, class, &parents[0..k], pairs, marks, s);
    let u = o.stack;
    finish(o.refusal, n, n.recorded(u))
}

// 0e: a layer more; the slices stay.
pub fn open_frame(n: Numbers) -> Framed
    ensures { result ≡ taken (opened_tables n.stack).refusal n (record_numbers n (opened_tables n.stack).stack) }
{
    let s = n.stack;
    let o = open_layer(s);
    let u = o.stack;
    let with = n.recorded(u);
    finish(o.refusal, n, with)
}

// 03: the count of components.
pub fn count_frame(body: &[u8], n: Numbers) -> Framed
    requires { length body.now ≡ 2 }
    ensures { result ≡ taken (count_refusal (number_at 0 body.now)) n (count_numbers n (number_at 0 body.now)) }
{
    let c = number_at(body, 0);
    finish(check_count(c), n, n.counted(c))
}

// 04: a new variable's component.
pub fn variable_frame(body: &[u8], variables: &mut [u64], n: Numbers) -> Framed
    requires { (length body.now ≡ 2) × (n.variables ≤ length variables.old) × (2048 ≤ length variables.old) }
    ensures { RowFrames (variable_row n.components (number_at 0 body.now) (take n.variables variables.old)) variables.old variables.new n (variable_numbers n) result }
{
    let c = number_at(body, 0);
    let a = add_variable(n.components, variables, n.variables, c);
    finish(a.refusal, n, n.with_variables(a.count))
}

// 05: component, kind and word of a bound.
pub fn bound_frame(body: &[u8], bounds: &mut [u64], n: Numbers) -> Framed
    requires { (length body.now ≡ 11) × (n.stack.tables.names ≤ 1024) × (n.components ≤ 512) × (n.bounds ≤ 4096) × (4096 ≤ length bounds.old) × Sorted (take n.bounds bounds.old) }
    ensures { RowFrames (bound_row n.stack.tables.names n.components (number_at 0 body.now) (get_or body.now 2 0) (bytes_number 0 (drop 3 body.now)) (take n.bounds bounds.old)) bounds.old bounds.new n (bound_numbers n) result }
{
    let c = number_at(body, 0);
    let kind = byte_at(body, 2);
    let w = word_at_3(body);
    let s = n.stack;
    let t = s.tables;
    let a = add_bound(t.names, n.components, bounds, n.bounds, c, kind, w);
    finish(a.refusal, n, n.with_bounds(a.count))
}

// The four frames of pairs differ in a field of the numbers: one function would take it as a closure, and need a contract as long as these.

// 06: source and target of a flow.
pub fn flow_frame(body: &[u8], flows: &mut [u64], n: Numbers) -> Framed
    requires { (length body.now ≡ 4) × (n.components ≤ 512) × (n.flows ≤ 2048) × (2048 ≤ length flows.old) × Sorted (take n.flows flows.old) }
    ensures { RowFrames (pair_row n.components 2048 (number_at 0 body.now) (number_at 2 body.now) (take n.flows flows.old)) flows.old flows.new n (flow_numbers n) result }
{
    let a = number_at(body, 0);
    let b = number_at(body, 2);
    let d = add_pair(n.components, flows, n.flows, FLOWS, a, b);
    finish(d.refusal, n, n.with_flows(d.count))
}

// 07: source and target of an upper flow.
pub fn upper_frame(body: &[u8], uppers: &mut [u64], n: Numbers) -> Framed
    requires { (length body.now ≡ 4) × (n.components ≤ 512) × (n.uppers ≤ 1024) × (1024 ≤ length uppers.old) × Sorted (take n.uppers uppers.old) }
    ensures { RowFrames (pair_row n.components 1024 (number_at 0 body.now) (number_at 2 body.now) (take n.uppers uppers.old)) uppers.old uppers.new n (upper_numbers n) result }
{
    let a = number_at(body, 0);
    let b = number_at(body, 2);
    let d = add_pair(n.components, uppers, n.uppers, UPPER_FLOWS, a, b);
    finish(d.refusal, n, n.with_uppers(d.count))
}

// 08: array and result of a read, in one room with the writes.
pub fn read_frame(body: &[u8], reads: &mut [u64], n: Numbers) -> Framed
    requires { (length body.now ≡ 4) × (n.components ≤ 512) × (n.writes ≤ 1024) × (n.reads ≤ 1024 - n.writes) × (1024 ≤ length reads.old) × Sorted (take n.reads reads.old) }
    ensures { RowFrames (pair_row n.components (1024 - n.writes) (number_at 0 body.now) (number_at 2 body.now) (take n.reads reads.old)) reads.old reads.new n (read_numbers n) result }
{
    let a = number_at(body, 0);
    let b = number_at(body, 2);
    let d = add_pair(n.components, reads, n.reads, ARRAYS - n.writes, a, b);
    finish(d.refusal, n, n.with_reads(d.count))
}

// 09: array and value of a write, in one room with the reads.
pub fn write_frame(body: &[u8], writes: &mut [u64], n: Numbers) -> Framed
    requires { (length body.now ≡ 4) × (n.components ≤ 512) × (n.reads ≤ 1024) × (n.writes ≤ 1024 - n.reads) × (1024 ≤ length writes.old) × Sorted (take n.writes writes.old) }
    ensures { RowFrames (pair_row n.components (1024 - n.reads) (number_at 0 body.now) (number_at 2 body.now) (take n.writes writes.old)) writes.old writes.new n (write_numbers n) result }
{
    let a = number_at(body, 0);
    let b = number_at(body, 2);
    let d = add_pair(n.components, writes, n.writes, ARRAYS - n.reads, a, b);
    finish(d.refusal, n, n.with_writes(d.count))
}

// What C and Rust call: thin functions over the crates below, with no logic of their own. Every call takes arbitrary numbers
// and bytes. A refused result is its number, offset and byte, and zero in every other field.
#![tactic(auto)]

ghost use Rattle.std.specs.Prelude.{◌≡◌, true, false, length, Ok};
ghost use Rattle.descriptor.specs.Read.{read, read_whole, read_strict};
ghost use Rattle.methods.specs.Answers.{method_read, method_of, params_after};
ghost use Rattle.names.specs.Names.{look_up, looked};
ghost use Rattle.writer.specs.Print.{written};
ghost use Rattle.columns.specs.Given.{given_by};
ghost use Rattle.questions.specs.Questions.{work_after};
ghost use Rattle.bracepuffin.specs.Boundary.{type_found, type_answer, method_result, bp_method, found_answer, written_answer, WroteType, WroteMethod, relation_answer, number_answer, set_answer, check_answer, check_told, relation_told, distance_told, ancestors_told, supertype_told, cast_told, join_told, assignable_told, solved_answer, bp_solved, SolveLeaves};

use columns::TableColumns;
use descriptor::{Base, TypeAt, Unread, read_whole};
use methods::{MethodAt, read_method, read_strict};
use names::look_up;
use questions::{Ancestors, Answer, Question, ancestors_of, ask};
use refusals::Refusal;
use solvedoor::solve_slices;
use solving::Counts;
use tablecheck::{TableCheck, check_table};
use writer::{write_method, write_type};

#[repr(C)]
#[derive(Clone, Copy)]
pub struct BpType {
    pub refusal: u64,
    pub offset: u64,
    pub byte: u64,
    pub dims: u64,
    pub tag: u64,
    pub category: u64,
    pub name_at: u64,
    pub name_len: u64,
}

#[repr(C)]
#[derive(Clone, Copy)]
pub struct BpMethod {
    pub refusal: u64,
    pub offset: u64,
    pub byte: u64,
    pub count: u64,
    pub return_at: u64,
    pub dims: u64,
    pub tag: u64,
    pub category: u64,
    pub name_at: u64,
    pub name_len: u64,
}

#[repr(C)]
#[derive(Clone, Copy)]
pub struct BpWritten {
    pub refusal: u64,
    pub length: u64,
}

#[repr(C)]
#[derive(Clone, Copy)]
pub struct BpFound {
    pub refusal: u64,
    pub class_no: u64,
}

#[repr(C)]
#[derive(Clone, Copy)]
pub struct BpRelation {
    pub refusal: u64,
    pub relation: u64,
}

#[repr(C)]
#[derive(Clone, Copy)]
pub struct BpAnswer {
    pub refusal: u64,
    pub value: u64,
}

#[repr(C)]
#[derive(Clone, Copy)]
pub struct BpSet {
    pub refusal: u64,
    pub count: u64,
    pub lowest: u64,
    pub words: [u64; 16],
}

#[repr(C)]
#[derive(Clone, Copy)]
pub struct BpSolved {
    pub refusal: u64,
    pub bounds: u64,
    pub turns: u64,
}

#[repr(C)]
#[derive(Clone, Copy)]
pub struct BpTable {
    pub refusal: u64,
    pub part: u64,
    pub row: u64,
}

// ---- the version

// Its name is the version: a host refers to the name that its header has, and does not link with an archive of another.
#[unsafe(no_mangle)]
pub extern "C" fn bp_abi_1() -> u64
    ensures { result ≡ 1 }
{
    1
}

// ---- descriptors, read

fn type_found(dims: u64, base: Base) -> BpType
    ensures { result ≡ type_found dims base }
{
    match base {
        Base::Simple(k) => BpType {
            refusal: 0,
            offset: 0,
            byte: 0,
            dims,
            tag: 0,
            category: k,
            name_at: 0,
            name_len: 0,
        },
        Base::Class(at, n) => BpType {
            refusal: 0,
            offset: 0,
            byte: 0,
            dims,
            tag: 1,
            category: 0,
            name_at: at as u64,
            name_len: n as u64,
        },
    }
}

fn type_answer(r: Result<TypeAt, Unread>) -> BpType
    ensures { result ≡ type_answer (read r) }
{
    match r {
        Ok(t) => type_found(t.dims, t.base),
        Err(unread) => BpType {
            refusal: u64::from(unread.refusal),
            offset: unread.at as u64,
            byte: unread.byte,
            dims: 0,
            tag: 0,
            category: 0,
            name_at: 0,
            name_len: 0,
        },
    }
}

#[unsafe(no_mangle)]
pub extern "C" fn bp_read_type(d: &[u8]) -> BpType
    ensures { result ≡ type_answer (read_whole d.now) }
{
    type_answer(read_whole(d))
}

#[unsafe(no_mangle)]
pub extern "C" fn bp_read_type_strict(d: &[u8]) -> BpType
    ensures { result ≡ type_answer (read_strict d.now) }
{
    type_answer(read_strict(d))
}

fn method_found(m: MethodAt) -> BpMethod
    ensures { result ≡ bp_method (method_read (Ok m)) }
{
    let t = type_found(m.dims, m.base);
    BpMethod {
        refusal: 0,
        offset: 0,
        byte: 0,
        count: m.count,
        return_at: m.return_at as u64,
        dims: t.dims,
        tag: t.tag,
        category: t.category,
        name_at: t.name_at,
        name_len: t.name_len,
    }
}

fn method_answer(m: Result<MethodAt, Unread>) -> BpMethod
    ensures { result ≡ bp_method (method_read m) }
{
    match m {
        Ok(method) => method_found(method),
        Err(unread) => BpMethod {
            refusal: u64::from(unread.refusal),
            offset: unread.at as u64,
            byte: unread.byte,
            count: 0,
            return_at: 0,
            dims: 0,
            tag: 0,
            category: 0,
            name_at: 0,
            name_len: 0,
        },
    }
}

#[unsafe(no_mangle)]
pub extern "C" fn bp_read_method(d: &[u8], params: &mut [u64]) -> BpMethod
    ensures { (result ≡ method_result (method_of false d.now (length params.old))) × (params.new ≡ params_after params.old (method_of false d.now (length params.old))) }
{
    method_answer(read_method(d, params, false))
}

#[unsafe(no_mangle)]
pub extern "C" fn bp_read_method_strict(d: &[u8], params: &mut [u64]) -> BpMethod
    ensures { (result ≡ method_result (method_of true d.now (length params.old))) × (params.new ≡ params_after params.old (method_of true d.now (length params.old))) }
{
    method_answer(read_method(d, params, true))
}

// ---- descriptors, written

fn written_answer(w: Result<u64, Refusal>) -> BpWritten
    ensures { result ≡ written_answer (written w) }
{
    match w {
        Ok(length) => BpWritten { refusal: 0, length },
        Err(refusal) => BpWritten {
            refusal: u64::from(refusal),
            length: 0,
        },
    }
}

#[unsafe(no_mangle)]
pub extern "C" fn bp_write_type(
    names: &[u8],
    name_at: &[u64],
    name_len: &[u64],
    word: u64,
    out: &mut [u8],
) -> BpWritten
    ensures { WroteType names.now name_at.now name_len.now word out.old out.new result }
{
    written_answer(write_type(names, name_at, name_len, word, out))
}

#[unsafe(no_mangle)]
pub extern "C" fn bp_write_method(
    names: &[u8],
    name_at: &[u64],
    name_len: &[u64],
    params: &[u64],
    res: u64,
    out: &mut [u8],
) -> BpWritten
    ensures { WroteMethod names.now name_at.now name_len.now params.now res out.old out.new result }
{
    written_answer(write_method(names, name_at, name_len, params, res, out))
}

// ---- names

fn found_answer(f: Result<u64, Refusal>) -> BpFound
    ensures { result ≡ found_answer (looked f) }
{
    match f {
        Ok(class_no) => BpFound {
            refusal: 0,
            class_no,
        },
        Err(refusal) => BpFound {
            refusal: u64::from(refusal),
            class_no: 0,
        },
    }
}

#[unsafe(no_mangle)]
pub extern "C" fn bp_lookup(names: &[u8], name_at: &[u64], name_len: &[u64], key: &[u8]) -> BpFound
    ensures { result ≡ found_answer (look_up names.now name_at.now name_len.now key.now) }
{
    found_answer(look_up(names, name_at, name_len, key))
}

// ---- tables

fn check_answer(c: TableCheck) -> BpTable
    ensures { result ≡ check_answer c }
{
    BpTable {
        refusal: c.refusal,
        part: c.part,
        row: c.row,
    }
}

#[unsafe(no_mangle)]
pub extern "C" fn bp_check_table(
    names: &[u8],
    name_at: &[u64],
    name_len: &[u64],
    rec_flags: &[u64],
    rec_class: &[u64],
    rec_at: &[u64],
    rec_len: &[u64],
    parents: &[u64],
) -> BpTable
    ensures { result ≡ check_told (given_by names name_at name_len rec_flags rec_class rec_at rec_len parents) }
{
    check_answer(check_table(&TableColumns {
        names,
        name_at,
        name_len,
        rec_flags,
        rec_class,
        rec_at,
        rec_len,
        parents,
    }))
}

// ---- classes

fn relation_answer(a: Answer) -> BpRelation
    ensures { result ≡ relation_answer a }
{
    BpRelation {
        refusal: a.refusal,
        relation: a.value,
    }
}

fn number_answer(a: Answer) -> BpAnswer
    ensures { result ≡ number_answer a }
{
    BpAnswer {
        refusal: a.refusal,
        value: a.value,
    }
}

fn set_answer(a: Ancestors) -> BpSet
    ensures { result ≡ set_answer a }
{
    let s = a.set;
    let words = s.words;
    BpSet {
        refusal: a.refusal,
        count: a.count,
        lowest: a.lowest,
        words,
    }
}

#[unsafe(no_mangle)]
pub extern "C" fn bp_relation(
    names: &[u8],
    name_at: &[u64],
    name_len: &[u64],
    rec_flags: &[u64],
    rec_class: &[u64],
    rec_at: &[u64],
    rec_len: &[u64],
    parents: &[u64],
    value: u64,
    expected: u64,
    work: &mut [u64],
) -> BpRelation
    ensures value { result ≡ relation_told (given_by names name_at name_len rec_flags rec_class rec_at rec_len parents) value expected (length work.old) }
    ensures work_after { work.new ≡ work_after work.old }
{
    let table = TableColumns {
        names,
        name_at,
        name_len,
        rec_flags,
        rec_class,
        rec_at,
        rec_len,
        parents,
    };
    let a = ask(&table, Question::Relation, value, expected, work);
    relation_answer(a)
}

#[unsafe(no_mangle)]
pub extern "C" fn bp_distance(
    names: &[u8],
    name_at: &[u64],
    name_len: &[u64],
    rec_flags: &[u64],
    rec_class: &[u64],
    rec_at: &[u64],
    rec_len: &[u64],
    parents: &[u64],
    value: u64,
    expected: u64,
    work: &mut [u64],
) -> BpAnswer
    ensures value { result ≡ distance_told (given_by names name_at name_len rec_flags rec_class rec_at rec_len parents) value expected (length work.old) }
    ensures work_after { work.new ≡ work_after work.old }
{
    let table = TableColumns {
        names,
        name_at,
        name_len,
        rec_flags,
        rec_class,
        rec_at,
        rec_len,
        parents,
    };
    let a = ask(&table, Question::Distance, value, expected, work);
    number_answer(a)
}

#[unsafe(no_mangle)]
pub extern "C" fn bp_ancestors(
    names: &[u8],
    name_at: &[u64],
    name_len: &[u64],
    rec_flags: &[u64],
    rec_class: &[u64],
    rec_at: &[u64],
    rec_len: &[u64],
    parents: &[u64],
    class_no: u64,
    work: &mut [u64],
) -> BpSet
    ensures value { result ≡ ancestors_told (given_by names name_at name_len rec_flags rec_class rec_at rec_len parents) class_no (length work.old) }
    ensures work_after { work.new ≡ work_after work.old }
{
    let table = TableColumns {
        names,
        name_at,
        name_len,
        rec_flags,
        rec_class,
        rec_at,
        rec_len,
        parents,
    };
    let a = ancestors_of(&table, class_no, work);
    set_answer(a)
}

#[unsafe(no_mangle)]
pub extern "C" fn bp_supertype(
    names: &[u8],
    name_at: &[u64],
    name_len: &[u64],
    rec_flags: &[u64],
    rec_class: &[u64],
    rec_at: &[u64],
    rec_len: &[u64],
    parents: &[u64],
    left: u64,
    right: u64,
    work: &mut [u64],
) -> BpAnswer
    ensures value { result ≡ supertype_told (given_by names name_at name_len rec_flags rec_class rec_at rec_len parents) left right (length work.old) }
    ensures work_after { work.new ≡ work_after work.old }
{
    let table = TableColumns {
        names,
        name_at,
        name_len,
        rec_flags,
        rec_class,
        rec_at,
        rec_len,
        parents,
    };
    let a = ask(&table, Question::Supertype, left, right, work);
    number_answer(a)
}

#[unsafe(no_mangle)]
pub extern "C" fn bp_cast(
    names: &[u8],
    name_at: &[u64],
    name_len: &[u64],
    rec_flags: &[u64],
    rec_class: &[u64],
    rec_at: &[u64],
    rec_len: &[u64],
    parents: &[u64],
    source: u64,
    target: u64,
    work: &mut [u64],
) -> BpAnswer
    ensures value { result ≡ cast_told (given_by names name_at name_len rec_flags rec_class rec_at rec_len parents) source target (length work.old) }
    ensures work_after { work.new ≡ work_after work.old }
{
    let table = TableColumns {
        names,
        name_at,
        name_len,
        rec_flags,
        rec_class,
        rec_at,
        rec_len,
        parents,
    };
    let a = ask(&table, Question::Cast, source, target, work);
    number_answer(a)
}

// ---- types

#[unsafe(no_mangle)]
pub extern "C" fn bp_join(
    names: &[u8],
    name_at: &[u64],
    name_len: &[u64],
    rec_flags: &[u64],
    rec_class: &[u64],
    rec_at: &[u64],
    rec_len: &[u64],
    parents: &[u64],
    left: u64,
    right: u64,
    work: &mut [u64],
) -> BpAnswer
    ensures value { result ≡ join_told (given_by names name_at name_len rec_flags rec_class rec_at rec_len parents) left right (length work.old) }
    ensures work_after { work.new ≡ work_after work.old }
{
    let table = TableColumns {
        names,
        name_at,
        name_len,
        rec_flags,
        rec_class,
        rec_at,
        rec_len,
        parents,
    };
    let a = ask(&table, Question::Join, left, right, work);
    number_answer(a)
}

#[unsafe(no_mangle)]
pub extern "C" fn bp_assignable(
    names: &[u8],
    name_at: &[u64],
    name_len: &[u64],
    rec_flags: &[u64],
    rec_class: &[u64],
    rec_at: &[u64],
    rec_len: &[u64],
    parents: &[u64],
    value: u64,
    expected: u64,
    work: &mut [u64],
) -> BpAnswer
    ensures value { result ≡ assignable_told (given_by names name_at name_len rec_flags rec_class rec_at rec_len parents) value expected (length work.old) }
    ensures work_after { work.new ≡ work_after work.old }
{
    let table = TableColumns {
        names,
        name_at,
        name_len,
        rec_flags,
        rec_class,
        rec_at,
        rec_len,
        parents,
    };
    let a = ask(&table, Question::Assignable, value, expected, work);
    number_answer(a)
}

fn solved_answer(c: Counts) -> BpSolved
    ensures { result ≡ solved_answer c }
{
    BpSolved {
        refusal: c.refusal,
        bounds: c.bounds,
        turns: c.turns,
    }
}

#[unsafe(no_mangle)]
pub extern "C" fn bp_solve(
    names: &[u8],
    name_at: &[u64],
    name_len: &[u64],
    rec_flags: &[u64],
    rec_class: &[u64],
    rec_at: &[u64],
    rec_len: &[u64],
    parents: &[u64],
    components: u64,
    var_comp: &[u64],
    bnd_comp: &[u64],
    bnd_kind: &[u64],
    bnd_type: &[u64],
    flow_src: &[u64],
    flow_dst: &[u64],
    up_src: &[u64],
    up_dst: &[u64],
    read_arr: &[u64],
    read_res: &[u64],
    write_arr: &[u64],
    write_val: &[u64],
    answers: &mut [u64],
    out_comp: &mut [u64],
    out_kind: &mut [u64],
    out_type: &mut [u64],
    work: &mut [u64],
) -> BpSolved
    ensures value { result ≡ bp_solved names name_at name_len rec_flags rec_class rec_at rec_len parents components var_comp bnd_comp bnd_kind bnd_type flow_src flow_dst up_src up_dst read_arr read_res write_arr write_val answers out_comp out_kind out_type work }
    ensures solve_leaves { SolveLeaves names name_at name_len rec_flags rec_class rec_at rec_len parents components var_comp bnd_comp bnd_kind bnd_type flow_src flow_dst up_src up_dst read_arr read_res write_arr write_val answers out_comp out_kind out_type work }
{
    let table = TableColumns {
        names,
        name_at,
        name_len,
        rec_flags,
        rec_class,
        rec_at,
        rec_len,
        parents,
    };
    let c = solve_slices(
        &table, components, var_comp, bnd_comp, bnd_kind, bnd_type, flow_src, flow_dst, up_src,
        up_dst, read_arr, read_res, write_arr, write_val, answers, out_comp, out_kind, out_type,
        work,
    );
    solved_answer(c)
}

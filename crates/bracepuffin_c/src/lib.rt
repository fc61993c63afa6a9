// What C and Rust link: libbracepuffin.a, whose exports each call the function of the same name of `bracepuffin` and state its
// clauses again. A crate is a library or a static library, not both, so what other crates call stands there.
#![tactic(auto)]

ghost use Rattle.std.specs.Prelude.{◌≡◌, true, false, length};
ghost use Rattle.descriptor.specs.Read.{read_whole, read_strict};
ghost use Rattle.methods.specs.Answers.{method_of, params_after};
ghost use Rattle.names.specs.Names.{look_up};
ghost use Rattle.columns.specs.Given.{given_by};
ghost use Rattle.questions.specs.Questions.{work_after};
ghost use Rattle.bracepuffin.specs.Boundary.{type_answer, method_result, found_answer, WroteType, WroteMethod, check_told, relation_told, distance_told, ancestors_told, supertype_told, cast_told, join_told, assignable_told, bp_solved, SolveLeaves};

use bracepuffin::{
    BpAnswer, BpFound, BpMethod, BpRelation, BpSet, BpSolved, BpTable, BpType, BpWritten,
};

// ---- the version

// Its name is the version: a host refers to the name that its header has, and does not link with an archive of another.
#[unsafe(no_mangle)]
pub extern "C" fn bp_abi_1() -> u64
    ensures { result ≡ 1 }
{
    bracepuffin::bp_abi_1()
}

// ---- descriptors, read

#[unsafe(no_mangle)]
pub extern "C" fn bp_read_type(d: &[u8]) -> BpType
    ensures { result ≡ type_answer (read_whole d.now) }
{
    bracepuffin::bp_read_type(d)
}

#[unsafe(no_mangle)]
pub extern "C" fn bp_read_type_strict(d: &[u8]) -> BpType
    ensures { result ≡ type_answer (read_strict d.now) }
{
    bracepuffin::bp_read_type_strict(d)
}

#[unsafe(no_mangle)]
pub extern "C" fn bp_read_method(d: &[u8], params: &mut [u64]) -> BpMethod
    ensures { (result ≡ method_result (method_of false d.now (length params.old))) × (params.new ≡ params_after params.old (method_of false d.now (length params.old))) }
{
    bracepuffin::bp_read_method(d, params)
}

#[unsafe(no_mangle)]
pub extern "C" fn bp_read_method_strict(d: &[u8], params: &mut [u64]) -> BpMethod
    ensures { (result ≡ method_result (method_of true d.now (length params.old))) × (params.new ≡ params_after params.old (method_of true d.now (length params.old))) }
{
    bracepuffin::bp_read_method_strict(d, params)
}

// ---- descriptors, written

#[unsafe(no_mangle)]
pub extern "C" fn bp_write_type(
    names: &[u8],
    name_at: &[u64],
    name_len: &[u64],
    word: u64,
    out: &mut [u8],
) -> BpWritten
    ensures { WroteType names.now name_at.now name_len.now word out.old out.new result }
{
    bracepuffin::bp_write_type(names, name_at, name_len, word, out)
}

#[unsafe(no_mangle)]
pub extern "C" fn bp_write_method(
    names: &[u8],
    name_at: &[u64],
    name_len: &[u64],
    params: &[u64],
    res: u64,
    out: &mut [u8],
) -> BpWritten
    ensures { WroteMethod names.now name_at.now name_len.now params.now res out.old out.new result }
{
    bracepuffin::bp_write_method(names, name_at, name_len, params, res, out)
}

// ---- names

#[unsafe(no_mangle)]
pub extern "C" fn bp_lookup(names: &[u8], name_at: &[u64], name_len: &[u64], key: &[u8]) -> BpFound
    ensures { result ≡ found_answer (look_up names.now name_at.now name_len.now key.now) }
{
    bracepuffin::bp_lookup(names, name_at, name_len, key)
}

// ---- tables

#[unsafe(no_mangle)]
pub extern "C" fn bp_check_table(
    names: &[u8],
    name_at: &[u64],
    name_len: &[u64],
    rec_flags: &[u64],
    rec_class: &[u64],
    rec_at: &[u64],
    rec_len: &[u64],
    parents: &[u64],
) -> BpTable
    ensures { result ≡ check_told (given_by names name_at name_len rec_flags rec_class rec_at rec_len parents) }
{
    bracepuffin::bp_check_table(
        names, name_at, name_len, rec_flags, rec_class, rec_at, rec_len, parents,
    )
}

// ---- classes

#[unsafe(no_mangle)]
pub extern "C" fn bp_relation(
    names: &[u8],
    name_at: &[u64],
    name_len: &[u64],
    rec_flags: &[u64],
    rec_class: &[u64],
    rec_at: &[u64],
    rec_len: &[u64],
    parents: &[u64],
    value: u64,
    expected: u64,
    work: &mut [u64],
) -> BpRelation
    ensures value { result ≡ relation_told (given_by names name_at name_len rec_flags rec_class rec_at rec_len parents) value expected (length work.old) }
    ensures work_after { work.new ≡ work_after work.old }
{
    bracepuffin::bp_relation(
        names, name_at, name_len, rec_flags, rec_class, rec_at, rec_len, parents, value, expected,
        work,
    )
}

#[unsafe(no_mangle)]
pub extern "C" fn bp_distance(
    names: &[u8],
    name_at: &[u64],
    name_len: &[u64],
    rec_flags: &[u64],
    rec_class: &[u64],
    rec_at: &[u64],
    rec_len: &[u64],
    parents: &[u64],
    value: u64,
    expected: u64,
    work: &mut [u64],
) -> BpAnswer
    ensures value { result ≡ distance_told (given_by names name_at name_len rec_flags rec_class rec_at rec_len parents) value expected (length work.old) }
    ensures work_after { work.new ≡ work_after work.old }
{
    bracepuffin::bp_distance(
        names, name_at, name_len, rec_flags, rec_class, rec_at, rec_len, parents, value, expected,
        work,
    )
}

#[unsafe(no_mangle)]
pub extern "C" fn bp_ancestors(
    names: &[u8],
    name_at: &[u64],
    name_len: &[u64],
    rec_flags: &[u64],
    rec_class: &[u64],
    rec_at: &[u64],
    rec_len: &[u64],
    parents: &[u64],
    class_no: u64,
    work: &mut [u64],
) -> BpSet
    ensures value { result ≡ ancestors_told (given_by names name_at name_len rec_flags rec_class rec_at rec_len parents) class_no (length work.old) }
    ensures work_after { work.new ≡ work_after work.old }
{
    bracepuffin::bp_ancestors(
        names, name_at, name_len, rec_flags, rec_class, rec_at, rec_len, parents, class_no, work,
    )
}

#[unsafe(no_mangle)]
pub extern "C" fn bp_supertype(
    names: &[u8],
    name_at: &[u64],
    name_len: &[u64],
    rec_flags: &[u64],
    rec_class: &[u64],
    rec_at: &[u64],
    rec_len: &[u64],
    parents: &[u64],
    left: u64,
    right: u64,
    work: &mut [u64],
) -> BpAnswer
    ensures value { result ≡ supertype_told (given_by names name_at name_len rec_flags rec_class rec_at rec_len parents) left right (length work.old) }
    ensures work_after { work.new ≡ work_after work.old }
{
    bracepuffin::bp_supertype(
        names, name_at, name_len, rec_flags, rec_class, rec_at, rec_len, parents, left, right, work,
    )
}

#[unsafe(no_mangle)]
pub extern "C" fn bp_cast(
    names: &[u8],
    name_at: &[u64],
    name_len: &[u64],
    rec_flags: &[u64],
    rec_class: &[u64],
    rec_at: &[u64],
    rec_len: &[u64],
    parents: &[u64],
    source: u64,
    target: u64,
    work: &mut [u64],
) -> BpAnswer
    ensures value { result ≡ cast_told (given_by names name_at name_len rec_flags rec_class rec_at rec_len parents) source target (length work.old) }
    ensures work_after { work.new ≡ work_after work.old }
{
    bracepuffin::bp_cast(
        names, name_at, name_len, rec_flags, rec_class, rec_at, rec_len, parents, source, target,
        work,
    )
}

// ---- types

#[unsafe(no_mangle)]
pub extern "C" fn bp_join(
    names: &[u8],
    name_at: &[u64],
    name_len: &[u64],
    rec_flags: &[u64],
    rec_class: &[u64],
    rec_at: &[u64],
    rec_len: &[u64],
    parents: &[u64],
    left: u64,
    right: u64,
    work: &mut [u64],
) -> BpAnswer
    ensures value { result ≡ join_told (given_by names name_at name_len rec_flags rec_class rec_at rec_len parents) left right (length work.old) }
    ensures work_after { work.new ≡ work_after work.old }
{
    bracepuffin::bp_join(
        names, name_at, name_len, rec_flags, rec_class, rec_at, rec_len, parents, left, right, work,
    )
}

#[unsafe(no_mangle)]
pub extern "C" fn bp_assignable(
    names: &[u8],
    name_at: &[u64],
    name_len: &[u64],
    rec_flags: &[u64],
    rec_class: &[u64],
    rec_at: &[u64],
    rec_len: &[u64],
    parents: &[u64],
    value: u64,
    expected: u64,
    work: &mut [u64],
) -> BpAnswer
    ensures value { result ≡ assignable_told (given_by names name_at name_len rec_flags rec_class rec_at rec_len parents) value expected (length work.old) }
    ensures work_after { work.new ≡ work_after work.old }
{
    bracepuffin::bp_assignable(
        names, name_at, name_len, rec_flags, rec_class, rec_at, rec_len, parents, value, expected,
        work,
    )
}

#[unsafe(no_mangle)]
pub extern "C" fn bp_solve(
    names: &[u8],
    name_at: &[u64],
    name_len: &[u64],
    rec_flags: &[u64],
    rec_class: &[u64],
    rec_at: &[u64],
    rec_len: &[u64],
    parents: &[u64],
    components: u64,
    var_comp: &[u64],
    bnd_comp: &[u64],
    bnd_kind: &[u64],
    bnd_type: &[u64],
    flow_src: &[u64],
    flow_dst: &[u64],
    up_src: &[u64],
    up_dst: &[u64],
    read_arr: &[u64],
    read_res: &[u64],
    write_arr: &[u64],
    write_val: &[u64],
    answers: &mut [u64],
    out_comp: &mut [u64],
    out_kind: &mut [u64],
    out_type: &mut [u64],
    work: &mut [u64],
) -> BpSolved
    ensures value { result ≡ bp_solved names name_at name_len rec_flags rec_class rec_at rec_len parents components var_comp bnd_comp bnd_kind bnd_type flow_src flow_dst up_src up_dst read_arr read_res write_arr write_val answers out_comp out_kind out_type work }
    ensures solve_leaves { SolveLeaves names name_at name_len rec_flags rec_class rec_at rec_len parents components var_comp bnd_comp bnd_kind bnd_type flow_src flow_dst up_src up_dst read_arr read_res write_arr write_val answers out_comp out_kind out_type work }
{
    bracepuffin::bp_solve(
        names, name_at, name_len, rec_flags, rec_class, rec_at, rec_len, parents, components,
        var_comp, bnd_comp, bnd_kind, bnd_type, flow_src, flow_dst, up_src, up_dst, read_arr,
        read_res, write_arr, write_val, answers, out_comp, out_kind, out_type, work,
    )
}

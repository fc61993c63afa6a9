// Method descriptors of ty.rs, read from bytes, and the strict reading of types and methods.
#![tactic(auto)]

ghost use Rattle.std.specs.Prelude.{◌≡◌, ◌+◌, ◌-◌, ◌≤◌, ◌<◌, length};
ghost use Rattle.refusals.specs.Numbers.{number};
ghost use Rattle.descriptor.specs.Read.{Refused, read, strict_name, strictly, read_strict};
ghost use Rattle.descriptor.specs.Steps.{Placed};
ghost use Rattle.methods.specs.Strict.{stops_at, refused_at, first_bad, closing};
ghost use Rattle.methods.specs.Answers.{method_read, refused_method, method_of, method_answer, params_after};
ghost use Rattle.methods.specs.Params.{ending, method_from};
ghost use Rattle.methods.specs.Filled.{answer_from, Left};

use descriptor::{Base, TypeAt, Unread, read_last, read_type, read_whole};
use refusals::Refusal;

// How many parameters a method has at most, and how many offsets there is room for.
const PARAMETERS: usize = 255;

// A method's number of parameters, the offset of its return type, and that type.
#[derive(Clone, Copy)]
pub struct MethodAt {
    pub count: u64,
    pub return_at: usize,
    pub dims: u64,
    pub base: Base,
}

// ---- strict reading

// Whether no strict name goes on with b, after a part that has or has not begun.
#[tactic(auto, unfolding(crate::specs::Strict::stops_at))]
fn stops(begun: bool, b: u8) -> bool
    ensures { result ≡ stops_at begun b }
{
    match b {
        b'/' => !begun,
        b'.' => true,
        b'[' => true,
        _ => false,
    }
}

// Whether the name is made of parts that are not empty, with a slash between them, and has no dot and no bracket. (The byte before says whether a
// part has begun: a flag in its place makes five instructions more a byte, in the loop that `read_params` inlines.)
fn is_strict(name: &[u8]) -> bool
    ensures { result ≡ strict_name name.now }
{
    let mut last = b'/';
    for b in name {
        if stops(last != b'/', *b) {
            return false;
        }
        last = *b;
    }
    last != b'/'
}

fn not_strict(at: usize) -> Unread
    ensures { read (Err result) ≡ Refused 24 at 0 }
{
    Unread {
        refusal: Refusal::Strict,
        at,
        byte: 0,
    }
}

// The type t, or 24 where it is a class whose name is not strict.
fn judged(s: &[u8], t: Result<TypeAt, Unread>) -> Result<TypeAt, Unread>
    requires { Placed (length s.now) (read t) }
    ensures { read result ≡ strictly s.now (read t) }
{
    let found = t?;
    match found.base {
        Base::Simple(_) => t,
        Base::Class(at, n) => {
            if is_strict(&s[at..at + n]) {
                return t;
            }
            Err(not_strict(at - 1))
        }
    }
}

// The same where each class name is strict; refused 24 where it is not.
pub fn read_strict(s: &[u8]) -> Result<TypeAt, Unread>
    ensures { read result ≡ read_strict s.now }
{
    let t = read_whole(s);
    judged(s, t)
}

// ---- a method

fn refused(refusal: Refusal, at: usize) -> Result<MethodAt, Unread>
    ensures { method_read result ≡ refused_method (number refusal) at 0 }
{
    Err(Unread {
        refusal,
        at,
        byte: 0,
    })
}

// Where a refusal is; 0 for a type.
fn refused_at(t: Result<TypeAt, Unread>) -> usize
    ensures { result ≡ refused_at (read t) }
{
    match t {
        Ok(_) => 0,
        Err(unread) => unread.at,
    }
}

// The 'L' of the first name that is not strict, 0 for none: `bad` before the type t, which may have one too. An ordinary reader keeps none.
fn first_bad(s: &[u8], strict: bool, bad: usize, t: Result<TypeAt, Unread>) -> usize
    requires { Placed (length s.now) (read t) }
    ensures { result ≡ first_bad s.now strict bad (read t) }
{
    if !strict {
        return bad;
    }
    if bad == 0 {
        let j = judged(s, t);
        return refused_at(j);
    }
    bad
}

// The return type t, judged after the parameters.
fn closed(s: &[u8], strict: bool, bad: usize, t: Result<TypeAt, Unread>) -> Result<TypeAt, Unread>
    requires { Placed (length s.now) (read t) }
    ensures { read result ≡ closing s.now strict bad (read t) }
{
    if !strict {
        return t;
    }
    t?;
    if bad == 0 {
        return judged(s, t);
    }
    Err(not_strict(bad))
}

// What follows the ')' at `close`, after `count` parameters.
fn read_return(
    s: &[u8],
    close: usize,
    count: usize,
    strict: bool,
    bad: usize,
) -> Result<MethodAt, Unread>
    requires { close < length s.now }
    ensures { method_read result ≡ answer_from count (ending s.now strict bad close) }
{
    let at = close + 1;
    let f = read_last(s, at);
    let g = closed(s, strict, bad, f)?;
    Ok(MethodAt {
        count: count as u64,
        return_at: at,
        dims: g.dims,
        base: g.base,
    })
}

// The parameters from the offset `at` on, after `count` of them, and the return type. Offsets are written on the way back, so none
// is written where anything is refused.
fn read_params(
    s: &[u8],
    params: &mut [u64],
    at: usize,
    count: usize,
    strict: bool,
    bad: usize,
) -> Result<MethodAt, Unread>
    requires { (255 ≤ length params.old) × (count ≤ 255) × (1 ≤ at) }
    ensures { Left count params.old (method_from s.now strict bad at count) (method_read result) params.new }
{
    if s.len() <= at {
        return refused(Refusal::MissingMethodEnd, at);
    }
    if s[at] == b')' {
        return read_return(s, at, count, strict, bad);
    }
    if PARAMETERS <= count {
        return refused(Refusal::TooManyParameters, at);
    }
    let t = read_type(s, at, false);
    let found = t?;
    let worse = first_bad(s, strict, bad, t);
    let method = read_params(&s[0..], params, found.next, count + 1, strict, worse)?;
    params[count] = at as u64;
    Ok(method)
}

// MethodDescriptor::from_str, the parameters' offsets into `params`.
pub fn read_method(s: &[u8], params: &mut [u64], strict: bool) -> Result<MethodAt, Unread>
    ensures { (method_read result ≡ method_answer (method_of strict s.now (length params.old)))
        × (params.new ≡ params_after params.old (method_of strict s.now (length params.old))) }
{
    if params.len() < PARAMETERS {
        return refused(Refusal::Short, 0);
    }
    if s.len() == 0 {
        return refused(Refusal::MissingMethodStart, 0);
    }
    if s[0] == b'(' {
        return read_params(&s[0..], params, 1, 0, strict, 0);
    }
    refused(Refusal::MissingMethodStart, 0)
}

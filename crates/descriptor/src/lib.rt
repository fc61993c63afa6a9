// Type descriptors of ty.rs, read from bytes.
#![tactic(auto)]

ghost use Rattle.std.specs.Prelude.{◌≡◌, ◌==◌, true, ◌+◌, ◌≤◌, ◌<◌, ltb, length, drop};
ghost use Rattle.text.specs.Text.{byte};
ghost use Rattle.refusals.specs.Numbers.{number};
ghost use Rattle.descriptor.specs.Read.{read, letter_of, index_of, read_name, read_type, finish, read_whole};
ghost use Rattle.descriptor.specs.Core.{core_of, un_core, flat_of, ended_of, Sound};

use refusals::Refusal;

// Refusals: the errors of ty.rs in source order, and the limit of dimensions; as numbers, since a Core packs one into a word.
const UNEXPECTED_END: u64 = 11;

const UNEXPECTED_BYTE: u64 = 12;

const VOID_NOT_ALLOWED: u64 = 13;

const EMPTY_OBJECT: u64 = 14;

const TRAILING_INPUT: u64 = 15;

const TOO_DEEP: u64 = 18;

// A core that is no refusal: FOUND, and DIMENSION for each bracket, and the category (CLASS for a class).
const FOUND: u64 = 256;

const DIMENSION: u64 = 1024;

const CLASS: u64 = 9;

const FOUND_CLASS: u64 = FOUND + CLASS;

// What a type is made of below its dimensions: a category, or a class by the place of its name (first byte, length).
#[derive(Clone, Copy)]
pub enum Base {
    Simple(u64),
    Class(usize, usize),
}

// A type and the offset after it.
#[derive(Clone, Copy)]
pub struct TypeAt {
    pub dims: u64,
    pub base: Base,
    pub next: usize,
}

// What is refused, its offset and, for UnexpectedByte, the byte there.
#[derive(Clone, Copy)]
pub struct Unread {
    pub refusal: Refusal,
    pub at: usize,
    pub byte: u64,
}

// The same in two words, cheaper to hand back at each bracket: a refusal's code and offset; or the type without its name, and the
// offset after it. The rest follows from the bytes.
#[derive(Clone, Copy)]
struct Core {
    pub what: u64,
    pub at: usize,
}

// The refusal of a number, which is all that a core has of it: those of descriptors are the last ones.
fn numbered(code: u64) -> Refusal
    requires { (11 ≤ code) × (code ≤ 24) }
    ensures { number result ≡ code }
{
    match code {
        11 => Refusal::UnexpectedEnd,
        12 => Refusal::UnexpectedByte,
        13 => Refusal::VoidNotAllowed,
        14 => Refusal::EmptyObject,
        15 => Refusal::TrailingInput,
        16 => Refusal::MissingMethodStart,
        17 => Refusal::MissingMethodEnd,
        18 => Refusal::TooManyDimensions,
        19 => Refusal::TooManyParameters,
        20 => Refusal::Deep,
        21 => Refusal::Bounds,
        22 => Refusal::Short,
        23 => Refusal::Absent,
        _ => Refusal::Strict,
    }
}

fn refuse(code: u64, at: usize, byte: u64) -> Unread
    requires { (11 ≤ code) × (code ≤ 24) }
    ensures { (number result.refusal ≡ code) × (result.at ≡ at) × (result.byte ≡ byte) }
{
    Unread {
        refusal: numbered(code),
        at,
        byte,
    }
}

// ---- a type

// The category of a letter, 9 for a class, 10 for an array, 11 for none.
#[tactic(auto, unfolding(crate::specs::Read::letter_of))]
fn letter(b: u8) -> u64
    ensures { result ≡ letter_of b }
{
    match b {
        b'V' => 0,
        b'Z' => 1,
        b'B' => 2,
        b'S' => 3,
        b'C' => 4,
        b'I' => 5,
        b'J' => 6,
        b'F' => 7,
        b'D' => 8,
        b'L' => 9,
        b'[' => 10,
        _ => 11,
    }
}

// Whether a ';' stands among the eight bytes from i on. None ends the loop early, so that the machine tests them at once.
fn ends_in_block(s: &[u8], i: usize) -> bool
    requires { i + 8 ≤ length s.now }
    ensures { result ≡ ltb (index_of (byte ";") (drop i s.now)) 8 }
{
    let mut found = false;
    for k in 0..8 {
        if s[i + k] == b';' {
            found = true;
        }
    }
    found
}

// Passes blocks of eight bytes without a ';': the first one is the same from the result on.
fn skip_blocks(s: &[u8], from: usize) -> usize
    requires { from ≤ length s.now }
    ensures { (result ≤ length s.now)
        × (from + index_of (byte ";") (drop from s.now) ≡ result + index_of (byte ";") (drop result s.now)) }
{
    let mut i = from;
    while 8 <= s.len() - i {
        if ends_in_block(s, i) {
            return i;
        }
        i += 8;
    }
    i
}

// Where the first ';' stands at or after `from`; the length where there is none. (Measured: with `position` the frame of `read_core`, which this is
// inlined into, takes 16 bytes more a bracket.)
fn find_end(s: &[u8], from: usize) -> usize
    requires { from ≤ length s.now }
    ensures { result ≡ from + index_of (byte ";") (drop from s.now) }
{
    let mut i = skip_blocks(s, from);
    while i < s.len() {
        if s[i] == b';' {
            return i;
        }
        i += 1;
    }
    i
}

// The class whose 'L' stands at `at`.
fn name_core(s: &[u8], at: usize, dims: u64) -> Core
    requires { (at < length s.now) × (dims ≤ 255) }
    ensures { result ≡ core_of (read_name (drop (at + 1) s.now) at dims) }
{
    let from = at + 1;
    let end = find_end(s, from);
    if end == s.len() {
        Core {
            what: UNEXPECTED_END,
            at: end,
        }
    } else if end == from {
        Core {
            what: EMPTY_OBJECT,
            at,
        }
    } else {
        let valid = utf8::valid_up_to(&s[0..], from, end);
        if valid < end {
            Core {
                what: UNEXPECTED_BYTE,
                at: valid,
            }
        } else {
            Core {
                what: FOUND_CLASS + DIMENSION * dims,
                at: end + 1,
            }
        }
    }
}

// The type of one letter k that is no class and no array; 12 where it is none.
fn flat_core(k: u64, at: usize, void: bool, dims: u64) -> Core
    requires { (at < 18446744073709551615) × (dims ≤ 255) }
    ensures { result ≡ flat_of k at void dims }
{
    if k == 0 {
        if void {
            Core {
                what: FOUND + DIMENSION * dims,
                at: at + 1,
            }
        } else {
            Core {
                what: VOID_NOT_ALLOWED,
                at,
            }
        }
    } else if k < CLASS {
        Core {
            what: FOUND + k + DIMENSION * dims,
            at: at + 1,
        }
    } else {
        Core {
            what: UNEXPECTED_BYTE,
            at,
        }
    }
}

// The type at `at`, after `dims` brackets. Each '[' asks for one more type from the bytes after it, Void no longer allowed.
// Each call is lent the slice anew, `&s[0..]`: the compiler then keeps this function's own in registers.
fn read_core(s: &[u8], at: usize, void: bool, dims: u64) -> Core
    requires { dims ≤ 255 }
    ensures { result ≡ core_of (read_type (drop at s.now) at void dims) }
{
    if s.len() <= at {
        Core {
            what: UNEXPECTED_END,
            at,
        }
    } else {
        let k = letter(s[at]);
        if k == CLASS {
            name_core(&s[0..], at, dims)
        } else if k == 10 {
            if 255 <= dims {
                Core { what: TOO_DEEP, at }
            } else {
                read_core(&s[0..], at + 1, false, dims + 1)
            }
        } else {
            flat_core(k, at, void, dims)
        }
    }
}

// The type that a core stands for, read from `at` on.
fn read_of(s: &[u8], at: usize, c: Core) -> Result<TypeAt, Unread>
    requires { Sound s.now at c }
    ensures { read result ≡ un_core s.now at c }
{
    let what = c.what;
    let next = c.at;
    if what == UNEXPECTED_BYTE {
        Err(refuse(UNEXPECTED_BYTE, next, u64::from(s[next])))
    } else if what < FOUND {
        Err(refuse(what, next, 0))
    } else {
        let found = what / DIMENSION;
        let k = what % FOUND;
        if k < CLASS {
            Ok(TypeAt {
                dims: found,
                base: Base::Simple(k),
                next,
            })
        } else {
            let from = at + found as usize + 1;
            Ok(TypeAt {
                dims: found,
                base: Base::Class(from, next - from - 1),
                next,
            })
        }
    }
}

// The type at `at`.
pub fn read_type(s: &[u8], at: usize, void: bool) -> Result<TypeAt, Unread>
    ensures { read result ≡ read_type (drop at s.now) at void 0 }
{
    let c = read_core(s, at, void, 0);
    read_of(s, at, c)
}

// A type has to end where the bytes do.
fn ended(s: &[u8], c: Core) -> Core
    ensures { result ≡ ended_of (length s.now) c }
{
    if c.what < FOUND {
        c
    } else if c.at == s.len() {
        c
    } else {
        Core {
            what: TRAILING_INPUT,
            at: c.at,
        }
    }
}

// The type from `at` to the end of the bytes, Void allowed.
pub fn read_last(s: &[u8], at: usize) -> Result<TypeAt, Unread>
    ensures { read result ≡ finish s.now (read_type (drop at s.now) at true 0) }
{
    let c = read_core(s, at, true, 0);
    let e = ended(s, c);
    read_of(s, at, e)
}

// ArgType::from_str.
pub fn read_whole(s: &[u8]) -> Result<TypeAt, Unread>
    ensures { read result ≡ read_whole s.now }
{
    read_last(s, 0)
}

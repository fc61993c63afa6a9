// Types by rank, a number in the order of types, and the 64-bit keys of bounds: component, kind and type in one number.
#![tactic(auto)]

ghost use Rattle.std.specs.Prelude.{◌≡◌, ◌-◌, ◌*◌, ◌/◌, ◌%◌, ◌^◌, ◌<◌, replicate};
ghost use Rattle.ty.specs.Types.{compare};
ghost use Rattle.ty.specs.Words.{Legal, pack, type_of, word_of};
ghost use Rattle.ty.specs.Round.{list_load};
ghost use Rattle.keys.specs.Rank.{rank, unrank, members_of, key, key_component, key_kind, key_type};

use std::cmp::Ordering;
use ty::{DIMENSION, LENGTH, TAG, TypeWord, digit};

// The tag of an Unknown, in its place in a word.
const UNKNOWN: u64 = 2 << 48;

// In the rank of a known type: what one dimension adds, and where the classes begin.
const DEPTH: u64 = 1 << 11;

const CLASSES: u64 = 1 << 10;

// Where the ranks of the known types end and those of the Unknowns begin: there a dimension takes 1 << 44 away, the room of eleven digits.
const KNOWN: u64 = 1 << 19;

const LIST: u64 = 1 << 44;

// What one kind and one component add to a key.
pub const KIND: u64 = 1 << 52;

pub const COMPONENT: u64 = 1 << 55;

// A one in each of eleven hex digits.
const ONES: u64 = 0x11111111111;

// A one in each of the first n of eleven hex digits: no table, since a constant array is laid out anew wherever it is read.
fn ones(n: u64) -> u64
    requires { n < 12 }
    ensures { result ≡ pack 11 (replicate n 1) }
{
    ONES - (ONES >> (4 * n))
}

// The rank of a type: of two types the one that comes first has the lower rank.
pub fn rank_of(t: TypeWord) -> u64
    requires { Legal t.word }
    ensures { result ≡ rank (type_of t.word) }
{
    let w = t.word;
    let dims = w / DIMENSION;
    let tag = w / TAG % 256;
    let load = w % TAG;
    if tag < 2 {
        return dims * DEPTH + tag * CLASSES + load;
    }
    let n = load / LENGTH;
    KNOWN + (255 - dims) * LIST + load % LENGTH + ones(n)
}

// The payload of the Unknown that has these digits in its rank.
fn members_load(digits: u64) -> u64
    ensures { result ≡ list_load (members_of digits) }
{
    let mut sum: u64 = 0;
    for i in 0..11 {
        let d = digit(digits, i);
        if d == 0 {
            return i * LENGTH + sum;
        }
        sum += (d - 1) << (4 * (10 - i));
    }
    11 * LENGTH + sum
}

// The type of a rank.
pub fn type_of_rank(r: u64) -> TypeWord
    requires { r < 2 ^ 52 }
    ensures { result.word ≡ word_of (unrank r) }
{
    if r < KNOWN {
        let known = r / DEPTH * DIMENSION + r % DEPTH / CLASSES * TAG + r % CLASSES;
        return TypeWord { word: known };
    }
    let above = r - KNOWN;
    let load = members_load(above % LIST);
    let unknown = (255 - above / LIST) * DIMENSION + UNKNOWN + load;
    TypeWord { word: unknown }
}

// The order of two types is the order of their ranks.
pub fn compare_types(a: TypeWord, b: TypeWord) -> Ordering
    requires { Legal a.word × Legal b.word }
    ensures { result ≡ compare (type_of a.word) (type_of b.word) }
{
    rank_of(a).cmp(&rank_of(b))
}

// The key of a bound: a type of one kind on a component.
pub fn key_of(component: u64, kind: u64, t: TypeWord) -> u64
    requires { (component < 512) × (kind < 8) × Legal t.word }
    ensures { result ≡ key component kind (type_of t.word) }
{
    component * COMPONENT + (kind * KIND + rank_of(t))
}

// The parts of a key: component, kind and type.
pub fn key_component(k: u64) -> u64
    ensures { result ≡ key_component k }
{
    k / COMPONENT
}

pub fn key_kind(k: u64) -> u64
    ensures { result ≡ key_kind k }
{
    k / KIND % 8
}

pub fn key_type(k: u64) -> TypeWord
    ensures { result.word ≡ word_of (key_type k) }
{
    type_of_rank(k % KIND)
}

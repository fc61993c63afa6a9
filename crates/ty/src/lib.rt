// Types of ty.rs as words of 64 bits: which words are types, the constants, and what is asked of one type alone.
#![tactic(auto)]

ghost use Rattle.std.specs.Prelude.{◌≡◌, ◌+◌, ◌-◌, ◌*◌, ◌/◌, ◌%◌, ◌^◌, ◌≤◌, ◌<◌, take};
ghost use Rattle.order.specs.Lists.{elem};
ghost use Rattle.ty.specs.Types.{is_known, is_primitive, is_object, is_array, is_reference, wide_category, all_wide, is_wide, is_concrete, categories, concrete_hint, hint_of_list, mask_with};
ghost use Rattle.ty.specs.Words.{tag_step, dims_of, tag_of, load_of, unpack, list_of, good_unknown, type_of, legal_word, all_legal, Legal};
ghost use Rattle.ty.specs.Steps.{digit_good};
ghost use Rattle.ty.specs.Answers.{int_word, long_word, float_word, double_word, unknown_word, decode_word, element_word, array_word, maybe_word};

use refusals::Refusal;

// What one dimension adds to a word, one step of the tag, and one of the length of an Unknown's list.
pub const DIMENSION: u64 = 1 << 56;

pub const TAG: u64 = 1 << 48;

pub const LENGTH: u64 = 1 << 44;

// The least word with 255 dimensions: it has no array.
const FULL: u64 = 255 << 56;

// Categories that are asked for by name; the last of the eleven is ARRAY.
const LONG: u64 = 6;

const DOUBLE: u64 = 8;

const OBJECT: u64 = 9;

const ARRAY: u64 = 10;

// A type: dimensions (8 bits), tag (8 bits; 0 primitive, 1 class, 2 Unknown), payload (48 bits).
#[derive(Clone, Copy)]
pub struct TypeWord {
    pub word: u64,
}

// The digit i of an Unknown's list, i from 0.
pub fn digit(load: u64, i: u64) -> u64
    requires { i < 11 }
    ensures { result ≡ load / 2 ^ (4 * (10 - i)) % 16 }
{
    (load >> (4 * (10 - i))) % 16
}

// Whether d is among the digits from `from` up to n.
fn contains(load: u64, from: u64, n: u64, d: u64) -> bool
    requires { (from ≤ n) × (n ≤ 11) }
    ensures { result ≡ elem d (take (n - from) (unpack (11 - from) load)) }
{
    for i in from..n {
        if digit(load, i) == d {
            return true;
        }
    }
    false
}

// Whether the digit i is as it must be in a list of n: a category that does not come again, or 0 after the list.
fn good_digit(load: u64, n: u64, i: u64) -> bool
    requires { (i < 11) × (n ≤ 11) }
    ensures { result ≡ digit_good load n i }
{
    let d = digit(load, i);
    if n <= i {
        return d == 0;
    }
    if ARRAY < d {
        return false;
    }
    let again = contains(load, i + 1, n, d);
    !again
}

// Whether the payload is that of an Unknown: a length up to 11, that many categories with none twice, and zeros.
fn good_unknown(load: u64) -> bool
    ensures { result ≡ good_unknown load }
{
    let n = load / LENGTH;
    if 11 < n {
        return false;
    }
    for i in 0..11 {
        if !good_digit(load, n, i) {
            return false;
        }
    }
    true
}

fn wide_category(category: u64) -> bool
    ensures { result ≡ wide_category category }
{
    category == LONG || category == DOUBLE
}

// Whether every category of an Unknown's list is wide; of an empty list, too.
fn all_wide(load: u64) -> bool
    ensures { result ≡ all_wide (list_of load) }
{
    let n = (load / LENGTH).min(11);
    (0..n).all(|i| wide_category(digit(load, i)))
}

// The set of an Unknown's categories, one bit a category.
fn list_mask(load: u64) -> u64
    ensures { result ≡ mask_with 0 (list_of load) }
{
    let n = (load / LENGTH).min(11);
    let mut m: u64 = 0;
    for i in 0..n {
        m |= 1 << digit(load, i);
    }
    m
}

// Whether a word is that of a type over that many names.
pub fn is_legal(word: u64, names: u64) -> bool
    ensures { result ≡ legal_word names word }
{
    let tag = word / TAG % 256;
    let load = word % TAG;
    if tag == 0 {
        return load <= ARRAY;
    }
    if tag == 1 {
        return load < names;
    }
    if tag == 2 {
        return good_unknown(load);
    }
    false
}

// The same of each word of a slice.
pub fn are_legal(words: &[u64], names: u64) -> bool
    ensures { result ≡ all_legal names words.now }
{
    words.iter().all(|word| is_legal(*word, names))
}

// The type of a word over that many names.
pub fn decode(word: u64, names: u64) -> Result<TypeWord, Refusal>
    ensures { result ≡ decode_word names word }
{
    if is_legal(word, names) {
        Ok(TypeWord { word })
    } else {
        Err(Refusal::NoType)
    }
}

impl TypeWord {
    pub const INT: TypeWord = TypeWord { word: 5 };

    pub const LONG: TypeWord = TypeWord { word: LONG };

    pub const FLOAT: TypeWord = TypeWord { word: 7 };

    pub const DOUBLE: TypeWord = TypeWord { word: DOUBLE };

    pub const UNKNOWN: TypeWord = TypeWord {
        word: 0x0002a567813249a0,
    };

    // The constants, with what they stand for.
    pub fn int() -> TypeWord
        ensures { result.word ≡ int_word }
    {
        Self::INT
    }

    pub fn long() -> TypeWord
        ensures { result.word ≡ long_word }
    {
        Self::LONG
    }

    pub fn float() -> TypeWord
        ensures { result.word ≡ float_word }
    {
        Self::FLOAT
    }

    pub fn double() -> TypeWord
        ensures { result.word ≡ double_word }
    {
        Self::DOUBLE
    }

    pub fn unknown() -> TypeWord
        ensures { result.word ≡ unknown_word }
    {
        Self::UNKNOWN
    }

    // The class of that number.
    pub fn object(class: u64) -> TypeWord
        requires { class < 1024 }
        ensures { result.word ≡ tag_step + class }
    {
        TypeWord { word: TAG + class }
    }

    pub fn dims(self) -> u64
        ensures { result ≡ dims_of self.word }
    {
        self.word / DIMENSION
    }

    pub fn tag(self) -> u64
        ensures { result ≡ tag_of self.word }
    {
        self.word / TAG % 256
    }

    pub fn load(self) -> u64
        ensures { result ≡ load_of self.word }
    {
        self.word % TAG
    }

    pub fn is_known(self) -> bool
        ensures { result ≡ is_known (type_of self.word) }
    {
        let w = self.word;
        if DIMENSION <= w {
            return true;
        }
        w / TAG % 256 < 2
    }

    pub fn is_primitive(self) -> bool
        ensures { result ≡ is_primitive (type_of self.word) }
    {
        let w = self.word;
        if DIMENSION <= w {
            return false;
        }
        w / TAG % 256 == 0
    }

    pub fn is_object(self) -> bool
        ensures { result ≡ is_object (type_of self.word) }
    {
        let w = self.word;
        if DIMENSION <= w {
            return false;
        }
        w / TAG % 256 == 1
    }

    pub fn is_array(self) -> bool
        ensures { result ≡ is_array (type_of self.word) }
    {
        DIMENSION <= self.word
    }

    // Whether this is a class or an array.
    pub fn is_reference(self) -> bool
        ensures { result ≡ is_reference (type_of self.word) }
    {
        let w = self.word;
        if DIMENSION <= w {
            return true;
        }
        w / TAG % 256 == 1
    }

    // Whether it takes two registers.
    pub fn is_wide(self) -> bool
        ensures { result ≡ is_wide (type_of self.word) }
    {
        let w = self.word;
        if DIMENSION <= w {
            return false;
        }
        let tag = w / TAG % 256;
        let load = w % TAG;
        if tag == 0 {
            return wide_category(load);
        }
        if tag == 1 {
            return false;
        }
        all_wide(load)
    }

    // Whether no category stands for a class or an array that is not named, and nothing is Unknown.
    pub fn is_concrete(self) -> bool
        ensures { result ≡ is_concrete (type_of self.word) }
    {
        let w = self.word;
        let tag = w / TAG % 256;
        let load = w % TAG;
        if tag == 0 {
            if load == OBJECT {
                return false;
            }
            return load != ARRAY;
        }
        tag == 1
    }

    pub fn element(self) -> Option<TypeWord>
        ensures { result ≡ element_word self.word }
    {
        let w = self.word;
        if DIMENSION <= w {
            return Some(TypeWord {
                word: w - DIMENSION,
            });
        }
        None
    }

    // The array of this type; of one with 255 dimensions there is none.
    pub fn array(self) -> Option<TypeWord>
        ensures { result ≡ array_word self.word }
    {
        let w = self.word;
        if w < FULL {
            return Some(TypeWord {
                word: w + DIMENSION,
            });
        }
        None
    }

    // The set of categories, one bit each: of a class Object, of an array Array.
    pub fn categories(self) -> u64
        requires { Legal self.word }
        ensures { result ≡ mask_with 0 (categories (type_of self.word)) }
    {
        let w = self.word;
        if DIMENSION <= w {
            return 1 << ARRAY;
        }
        let tag = w / TAG % 256;
        let load = w % TAG;
        if tag == 0 {
            return 1u64 << load;
        }
        if tag == 1 {
            return 1 << OBJECT;
        }
        list_mask(load)
    }

    // The concrete type that this one hints at; `object` is the number of java/lang/Object.
    pub fn concrete_hint(self, object: u64) -> Option<TypeWord>
        requires { object < 1024 }
        ensures { result ≡ maybe_word (concrete_hint object (type_of self.word)) }
    {
        if self.is_known() {
            if self.is_concrete() {
                return Some(self);
            }
            return None;
        }
        single_hint(self.load(), object)
    }
}

// The hint of an Unknown's list: of one category alone.
fn single_hint(load: u64, object: u64) -> Option<TypeWord>
    requires { object < 1024 }
    ensures { result ≡ maybe_word (hint_of_list object (list_of load)) }
{
    if load / LENGTH != 1 {
        return None;
    }
    let c = digit(load, 0);
    if c == OBJECT {
        return Some(TypeWord { word: TAG + object });
    }
    if c == ARRAY {
        return None;
    }
    Some(TypeWord { word: c })
}

// Types and methods written as descriptors, from words over a table of names: lengths first, then the bytes.
#![tactic(auto)]

ghost use Rattle.std.specs.Prelude.{◌≡◌, true, ◌+◌, ◌≤◌, length, take, drop, replicate};
ghost use Rattle.std.proofs.lemmas.List.Edits.{sets};
ghost use Rattle.text.specs.Text.{byte};
ghost use Rattle.ty.specs.Words.{legal_base, legal_word, all_legal};
ghost use Rattle.names.specs.Table.{Checked};
ghost use Rattle.writer.specs.Print.{letter_byte, print_word, print_words, print_method_words, written, Wrote, checked_type_refusal, type_refusal, MethodWrote, CheckedMethodWrote};
ghost use Rattle.writer.specs.Store.{Put};
ghost use Rattle.writer.specs.Steps.{Short, class_bytes, print_base, word_size, words_size, method_size};

use names::check_names;
use refusals::Refusal;
use ty::{DIMENSION, TAG, are_legal, is_legal};

// How many parameters a method has at most.
const PARAMETERS: usize = 255;

// ---- lengths

fn type_length(name_len: &[u64], word: u64) -> u64
    requires { Short name_len.now × (legal_word (length name_len.now) word ≡ true) }
    ensures { (result ≡ word_size name_len.now word) × (result ≤ 512) }
{
    let dims = word / DIMENSION;
    let tag = word / TAG % 256;
    if tag == 1 {
        let class = (word % TAG) as usize;
        return dims + (name_len[class] + 2);
    }
    dims + 1
}

fn types_length(name_len: &[u64], words: &[u64]) -> u64
    requires { Short name_len.now × (all_legal (length name_len.now) words.now ≡ true) × (length words.now ≤ 255) }
    ensures { (result ≡ words_size name_len.now words.now) × (result ≤ 130560) }
{
    let mut n: u64 = 0;
    for word in words {
        n += type_length(name_len, *word);
    }
    n
}

// With the brackets around the parameters.
fn method_length(name_len: &[u64], params: &[u64], res: u64) -> u64
    requires { Short name_len.now × (all_legal (length name_len.now) params.now ≡ true) × (length params.now ≤ 255) × (legal_word (length name_len.now) res ≡ true) }
    ensures { result ≡ method_size name_len.now params.now res }
{
    types_length(name_len, params) + type_length(name_len, res) + 2
}

// ---- bytes

const LETTERS: [u8; 11] = *b"VZBSCIJFDL[";

fn letter(category: u64) -> u8
    requires { category ≤ 10 }
    ensures { result ≡ letter_byte category }
{
    LETTERS[category as usize]
}

// A '[' for each dimension.
fn put_brackets(out: &mut [u8], at: usize, dims: usize)
    requires { at + dims ≤ length out.old }
    ensures { out.new ≡ sets out.old at (replicate dims (byte "[")) }
{
    out[at..at + dims].fill(b'[');
}

fn put_bytes(bytes: &[u8], from: usize, n: usize, out: &mut [u8], at: usize)
    requires { (from + n ≤ length bytes.now) × (at + n ≤ length out.old) }
    ensures { out.new ≡ sets out.old at (take n (drop from bytes.now)) }
{
    out[at..at + n].copy_from_slice(&bytes[from..from + n]);
}

// A class by its name; what comes back here and below is the offset after it.
fn put_class(bytes: &[u8], from: usize, n: usize, out: &mut [u8], at: usize) -> usize
    requires { (from + n ≤ length bytes.now) × (at + (n + 2) ≤ length out.old) }
    ensures { Put (class_bytes (take n (drop from bytes.now))) out.old out.new at result }
{
    out[at] = b'L';
    put_bytes(bytes, from, n, out, at + 1);
    let end = at + 1 + n;
    out[end] = b';';
    end + 1
}

// What stands after the dimensions.
fn put_base(
    names: &[u8],
    name_at: &[u64],
    name_len: &[u64],
    tag: u64,
    load: u64,
    out: &mut [u8],
    at: usize,
) -> usize
    requires { Checked names.now name_at.now name_len.now × (legal_base (length name_at.now) tag load ≡ true) × (at + length (print_base names.now name_at.now name_len.now tag load) ≤ length out.old) }
    ensures { Put (print_base names.now name_at.now name_len.now tag load) out.old out.new at result }
{
    if tag == 0 {
        out[at] = letter(load);
        return at + 1;
    }
    if tag == 1 {
        let class = load as usize;
        let from = name_at[class] as usize;
        let n = name_len[class] as usize;
        return put_class(names, from, n, out, at);
    }
    out[at] = b'?';
    at + 1
}

// The descriptor of a word's type.
fn put_type(
    names: &[u8],
    name_at: &[u64],
    name_len: &[u64],
    word: u64,
    out: &mut [u8],
    at: usize,
) -> usize
    requires { Checked names.now name_at.now name_len.now × (legal_word (length name_at.now) word ≡ true) × (at + length (print_word names.now name_at.now name_len.now word) ≤ length out.old) }
    ensures { Put (print_word names.now name_at.now name_len.now word) out.old out.new at result }
{
    let dims = (word / DIMENSION) as usize;
    let tag = word / TAG % 256;
    let load = word % TAG;
    put_brackets(out, at, dims);
    put_base(names, name_at, name_len, tag, load, out, at + dims)
}

// The descriptors of the words' types, one after the other.
fn put_types(
    names: &[u8],
    name_at: &[u64],
    name_len: &[u64],
    words: &[u64],
    out: &mut [u8],
    at: usize,
) -> usize
    requires { Checked names.now name_at.now name_len.now × (all_legal (length name_at.now) words.now ≡ true) × (at + length (print_words names.now name_at.now name_len.now words.now) ≤ length out.old) }
    ensures { Put (print_words names.now name_at.now name_len.now words.now) out.old out.new at result }
{
    let mut next = at;
    for word in words {
        next = put_type(names, name_at, name_len, *word, out, next);
    }
    next
}

// The descriptor of a method.
fn put_method(
    names: &[u8],
    name_at: &[u64],
    name_len: &[u64],
    params: &[u64],
    res: u64,
    out: &mut [u8],
) -> usize
    requires { Checked names.now name_at.now name_len.now × (all_legal (length name_at.now) params.now ≡ true) × (legal_word (length name_at.now) res ≡ true) × (length (print_method_words names.now name_at.now name_len.now params.now res) ≤ length out.old) }
    ensures { Put (print_method_words names.now name_at.now name_len.now params.now res) out.old out.new 0 result }
{
    out[0] = b'(';
    let close = put_types(names, name_at, name_len, params, out, 1);
    out[close] = b')';
    put_type(names, name_at, name_len, res, out, close + 1)
}

// ---- the writers, over names that were checked

// How much was written; where a refusal comes back, nothing was.
fn write_checked_type(
    names: &[u8],
    name_at: &[u64],
    name_len: &[u64],
    word: u64,
    out: &mut [u8],
) -> Result<u64, Refusal>
    requires { Checked names.now name_at.now name_len.now }
    ensures { Wrote (checked_type_refusal names.now name_at.now name_len.now word (length out.old)) (print_word names.now name_at.now name_len.now word) out.old out.new (written result) }
{
    if !is_legal(word, name_at.len() as u64) {
        return Err(Refusal::NoType);
    }
    if (out.len() as u64) < type_length(name_len, word) {
        return Err(Refusal::Short);
    }
    let end = put_type(names, name_at, name_len, word, out, 0);
    Ok(end as u64)
}

fn write_checked_method(
    names: &[u8],
    name_at: &[u64],
    name_len: &[u64],
    params: &[u64],
    res: u64,
    out: &mut [u8],
) -> Result<u64, Refusal>
    requires { Checked names.now name_at.now name_len.now }
    ensures { CheckedMethodWrote names.now name_at.now name_len.now params.now res out.old out.new (written result) }
{
    if PARAMETERS < params.len() {
        return Err(Refusal::Room);
    }
    let n = name_at.len() as u64;
    if !are_legal(params, n) {
        return Err(Refusal::NoType);
    }
    if !is_legal(res, n) {
        return Err(Refusal::NoType);
    }
    if (out.len() as u64) < method_length(name_len, params, res) {
        return Err(Refusal::Short);
    }
    let end = put_method(names, name_at, name_len, params, res, out);
    Ok(end as u64)
}

// ---- the writers

// The descriptor of a word's type over a table of names.
pub fn write_type(
    names: &[u8],
    name_at: &[u64],
    name_len: &[u64],
    word: u64,
    out: &mut [u8],
) -> Result<u64, Refusal>
    ensures { Wrote (type_refusal names.now name_at.now name_len.now word (length out.old)) (print_word names.now name_at.now name_len.now word) out.old out.new (written result) }
{
    check_names(names, name_at, name_len)?;
    write_checked_type(names, name_at, name_len, word, out)
}

// The descriptor of a method, its parameters and its result as words.
pub fn write_method(
    names: &[u8],
    name_at: &[u64],
    name_len: &[u64],
    params: &[u64],
    res: u64,
    out: &mut [u8],
) -> Result<u64, Refusal>
    ensures { MethodWrote names.now name_at.now name_len.now params.now res out.old out.new (written result) }
{
    check_names(names, name_at, name_len)?;
    write_checked_method(names, name_at, name_len, params, res, out)
}

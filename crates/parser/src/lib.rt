// DescriptorParser of ty.rs: the caller's bytes with an offset, and thin functions over it.
#![tactic(auto)]

ghost use Rattle.std.specs.Prelude.{◌≡◌, true, drop};
ghost use Rattle.descriptor.specs.Read.{read, read_type};
ghost use Rattle.refusals.specs.Numbers.{code};
ghost use Rattle.parser.specs.Offsets.{byte_at, consume_at, finish_at};

use descriptor::{TypeAt, Unread};
use refusals::Refusal;

#[derive(Clone, Copy)]
pub struct DescriptorParser<'a> {
    pub bytes: &'a [u8],
    pub offset: usize,
}

// ---- the work, on a slice and an offset

fn byte_at(s: &[u8], at: usize) -> Option<u8>
    ensures { result ≡ byte_at s.now at }
{
    if at < s.len() { Some(s[at]) } else { None }
}

// The offset after the byte b, if it stands there; the same offset if not.
fn consume_at(s: &[u8], at: usize, b: u8) -> usize
    ensures { result ≡ consume_at s.now at b }
{
    if s.len() <= at {
        return at;
    }
    if s[at] == b {
        return at + 1;
    }
    at
}

fn type_at(s: &[u8], at: usize, void: bool) -> Result<TypeAt, Unread>
    ensures { read result ≡ read_type (drop at s.now) at void 0 }
{
    descriptor::read_type(s, at, void)
}

// Whether no bytes are left.
fn finish_at(s: &[u8], at: usize) -> Result<(), Refusal>
    ensures { code result ≡ finish_at s.now at }
{
    if at == s.len() {
        Ok(())
    } else {
        Err(Refusal::TrailingInput)
    }
}

// ---- the parser

pub fn new<'a>(bytes: &'a [u8]) -> DescriptorParser<'a>
    ensures { (result.bytes ≡ bytes.entry) × (result.offset ≡ 0) }
{
    DescriptorParser { bytes, offset: 0 }
}

// The same bytes from another offset: the one that `consume` or a type read gave.
pub fn moved<'a>(p: DescriptorParser<'a>, to: usize) -> DescriptorParser<'a>
    ensures { (result.bytes ≡ p.entry.bytes) × (result.offset ≡ to) }
{
    DescriptorParser { offset: to, ..p }
}

pub fn peek<'a>(p: DescriptorParser<'a>) -> Option<u8>
    ensures { result ≡ byte_at p.entry.bytes.now p.entry.offset }
{
    byte_at(p.bytes, p.offset)
}

pub fn consume<'a>(p: DescriptorParser<'a>, expected: u8) -> usize
    ensures { result ≡ consume_at p.entry.bytes.now p.entry.offset expected }
{
    consume_at(p.bytes, p.offset, expected)
}

pub fn ty<'a>(p: DescriptorParser<'a>, void: bool) -> Result<TypeAt, Unread>
    ensures { read result ≡ read_type (drop p.entry.offset p.entry.bytes.now) p.entry.offset void 0 }
{
    type_at(p.bytes, p.offset, void)
}

pub fn finish<'a>(p: DescriptorParser<'a>) -> Result<(), Refusal>
    ensures { code result ≡ finish_at p.entry.bytes.now p.entry.offset }
{
    finish_at(p.bytes, p.offset)
}

// The type at the front of the bytes: plain parameters, so who calls it need not know the parser.
pub fn first_type(s: &[u8]) -> Result<TypeAt, Unread>
    ensures { read result ≡ read_type s.now 0 true 0 }
{
    ty(new(s), true)
}

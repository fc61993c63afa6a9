// What is refused: one variant for each kind. The numbers are the ones that C and Rust are told.
#![tactic(auto)]

ghost use Rattle.std.specs.Prelude.{◌≡◌};
ghost use Rattle.refusals.specs.Numbers.{number};

#[derive(Clone, Copy, PartialEq, Eq, PartialOrd, Ord, Hash, Debug)]
pub enum Refusal {
    Line = 1,
    Kind = 2,
    Length = 3,
    KindOrder = 4,
    NameOrder = 5,
    Number = 6,
    NoType = 7,
    Room = 8,
    NoObject = 9,
    Utf8 = 10,
    UnexpectedEnd = 11,
    UnexpectedByte = 12,
    VoidNotAllowed = 13,
    EmptyObject = 14,
    TrailingInput = 15,
    MissingMethodStart = 16,
    MissingMethodEnd = 17,
    TooManyDimensions = 18,
    TooManyParameters = 19,
    Deep = 20,
    Bounds = 21,
    Short = 22,
    Absent = 23,
    Strict = 24,
}

impl From<Refusal> for u64 {
    ghost from_gives = { λ refusal n. n ≡ number refusal };

    fn from(refusal: Refusal) -> u64 {
        refusal as u64
    }
}

// A set of numbers below 1,024 as sixteen words of 64 bits: the number i is bit i % 64, from the low end, of word i / 64.
// A larger number is never a member: to put it in or to take it out changes nothing.
#![tactic(auto)]

ghost use Rattle.std.specs.Prelude.{◌≡◌, length, replicate};
ghost use Rattle.sets.specs.Sets.{at, member, insert, remove, unite, intersect, subtract, members, first, same_words};

use std::array;

#[derive(Clone, Copy, PartialEq, Eq)]
pub struct Set {
    pub words: [u64; 16],
}

impl Set {
    // The set with no member.
    pub fn empty() -> Set
        ensures { result.words ≡ replicate 16 0 }
    {
        Set { words: [0; 16] }
    }

    // Whether i is a member.
    pub fn has(self, i: u64) -> bool
        ensures { result ≡ member self.words i }
    {
        if i < 1024 {
            let k = (i / 64) as usize;
            let w = self.words[k];
            (w >> (i % 64)) % 2 == 1
        } else {
            false
        }
    }

    // The set with i as a member.
    pub fn with(mut self, i: u64) -> Set
        ensures { result.words ≡ insert self.words i }
    {
        if i < 1024 {
            let k = (i / 64) as usize;
            let w = self.words[k];
            self.words[k] = w | (1u64 << (i % 64));
        }
        self
    }

    // The set without i.
    pub fn without(mut self, i: u64) -> Set
        ensures { result.words ≡ remove self.words i }
    {
        if i < 1024 {
            let k = (i / 64) as usize;
            let w = self.words[k];
            self.words[k] = w ^ (w & (1u64 << (i % 64)));
        }
        self
    }

    // What is in either set.
    pub fn union(self, other: Set) -> Set
        ensures { result.words ≡ unite self.words other.words }
    {
        Set {
            words: array::from_fn(|k| self.words[k] | other.words[k]),
        }
    }

    // What is in both sets.
    pub fn intersection(self, other: Set) -> Set
        ensures { result.words ≡ intersect self.words other.words }
    {
        Set {
            words: array::from_fn(|k| self.words[k] & other.words[k]),
        }
    }

    // What is in this set and not in the other.
    pub fn difference(self, other: Set) -> Set
        ensures { result.words ≡ subtract self.words other.words }
    {
        Set {
            words: array::from_fn(|k| {
                let w = self.words[k];
                w ^ (w & other.words[k])
            }),
        }
    }

    // The number of members.
    pub fn count(self) -> u64
        ensures { result ≡ length (members (at self.words) 0 1024) }
    {
        let mut n: u64 = 0;
        for w in self.words {
            n += u64::from(w.count_ones());
        }
        n
    }

    // The least member; 1,024 where there is none.
    pub fn lowest(self) -> u64
        ensures { result ≡ first (at self.words) 1024 }
    {
        for (k, w) in self.words.iter().enumerate() {
            if *w != 0 {
                return (k as u64) * 64 + u64::from(w.trailing_zeros());
            }
        }
        1024
    }

    // Whether the sets have the same members.
    pub fn same(self, other: Set) -> bool
        ensures { result ≡ same_words self.words other.words }
    {
        self == other
    }
}

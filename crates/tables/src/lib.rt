// The class tables: their numbers, and the lengths of the two slices that hold the rest. `pairs` has room for PAIRS keys, of which the
// first `t.pairs` are used: class * NAMES + parent, ascending. `marks` is four sets of NAMES digits in MARKS words: the classes that
// are recorded, declared, interface, final.
#![tactic(auto)]

// How many names there may be.
pub const NAMES: u64 = 1024;

// How many keys there may be.
pub const PAIRS: usize = 4096;

// How many words the marks have.
pub const MARKS: usize = 64;

// How many names there are and how many bytes they have, the classes that rules speak of (u64::MAX while absent), and how many keys
// there are.
#[derive(Clone, Copy)]
pub struct Tables {
    pub names: u64,
    pub bytes: u64,
    pub object: u64,
    pub cloneable: u64,
    pub serializable: u64,
    pub pairs: usize,
}

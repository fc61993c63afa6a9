// A lent slice made zero: what a call leaves of the work that it was lent. Most of it is zero already, and to look at words costs less than
// to write them: only blocks that are not zero are written.
#![tactic(auto)]

ghost use Rattle.std.specs.Prelude.{◌≡◌, true, length, replicate};

// How many words are looked at together.
const BLOCK: usize = 16;

// Whether the words are zero. Nothing ends the loop early, so that the machine takes several at once.
fn is_zero(words: &[u64]) -> bool
    ensures { result ≡ true → words.now ≡ replicate (length words.now) 0 }
{
    let mut any: u64 = 0;
    for word in words {
        any |= *word;
    }
    any == 0
}

// Zero everywhere, and written only where it was not.
fn clear_block(block: &mut [u64])
    ensures { block.new ≡ replicate (length block.old) 0 }
{
    if !is_zero(block) {
        block.fill(0);
    }
}

// Zero everywhere.
pub fn clear(work: &mut [u64])
    ensures { work.new ≡ replicate (length work.old) 0 }
{
    let mut i: usize = 0;
    while BLOCK <= work.len() - i {
        clear_block(&mut work[i..i + BLOCK]);
        i += BLOCK;
    }
    work[i..].fill(0);
}

// Parts of a text.
ghost use Rattle.std.specs.Prelude.{◌≡◌, true, ◌↔◌};
ghost use Rattle.replaying.specs.Replaying.{Part};

// Where the part that starts at `from` ends: at the next byte b, or at the end of all.
pub fn part_end(text: &[u8], from: usize, b: u8) -> usize
    ensures { Part text.now from b result }
{
    for i in from..text.len() {
        if text[i] == b {
            return i;
        }
    }
    from.max(text.len())
}

pub fn is_same(x: &[u8], y: &[u8]) -> bool
    ensures { (result ≡ true) ↔ (x.now ≡ y.now) }
{
    x == y
}

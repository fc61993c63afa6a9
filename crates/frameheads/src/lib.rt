// The head of a frame: its kind, the length of its body, its place in the order of kinds.
#![tactic(auto)]

ghost use Rattle.std.specs.Prelude.{◌≡◌};
ghost use Rattle.frames.specs.Frames.{good_length, rank_of, bad_order};
ghost use Rattle.frameheads.specs.Heads.{head_refusal};

// Whether a body of n bytes is one of this kind, from 1 to 14. The tests stand as in `good_length`, whose laws follow them one by one.
fn is_length(kind: u64, n: usize) -> bool
    ensures { result ≡ good_length kind n }
{
    if kind == 1 {
        if n < 1 {
            return false;
        }
        return n <= 255;
    }
    if kind == 2 {
        if n < 3 {
            return false;
        }
        if n % 2 == 1 {
            return n <= 511;
        }
        return false;
    }
    if kind <= 4 {
        return n == 2;
    }
    if kind == 5 {
        return n == 11;
    }
    if kind == 10 {
        return n == 0;
    }
    if kind == 14 {
        return n == 0;
    }
    n == 4
}

// The rank of a kind: 0a to 0d are free among themselves, and 0e ranks as 02.
pub fn rank_of(kind: u64) -> u64
    ensures { result ≡ rank_of kind }
{
    match kind {
        0..=9 => kind,
        14 => 2,
        _ => 10,
    }
}

// Whether a kind comes too late: lower than one accepted before, or 03 again.
fn is_late(kind: u64, rank: u64) -> bool
    ensures { result ≡ bad_order kind rank }
{
    rank_of(kind) < rank || (kind == 3 && rank == 3)
}

// The refusal of a frame's head: 2, 3, 4; 0 where there is none.
pub fn check_head(kind: u64, n: usize, rank: u64) -> u64
    ensures { result ≡ head_refusal kind n rank }
{
    if kind == 0 {
        return 2;
    }
    if 14 < kind {
        return 2;
    }
    if is_length(kind, n) {
        if is_late(kind, rank) {
            return 4;
        }
        return 0;
    }
    3
}

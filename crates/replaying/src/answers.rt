// What a function said, beside what was recorded.
ghost use Rattle.std.specs.Prelude.{◌≡◌, true, cond, ◌↔◌, [], ◌∷◌};
ghost use Rattle.replaying.specs.Replaying.{verdict, Judges};

// Whether they agree; Unread where a line is no case or the arguments are not in the function's form.
#[derive(Clone, Copy)]
pub enum Verdict {
    Agrees,
    Differs,
    Unread,
}

// How a missing answer is written.
pub const MISSING: u64 = 0xffffffffffffffff;

pub fn flag(is_so: bool) -> u64
    ensures { result ≡ cond is_so 1 0 }
{
    u64::from(is_so)
}

pub fn judged(agrees: bool) -> Verdict
    ensures { result ≡ verdict agrees }
{
    if agrees {
        return Verdict::Agrees;
    }
    Verdict::Differs
}

// Not one function with `text::is_same`: of any type, `==` says less than that the lists are equal.
pub fn is_same(said: &[u64], recorded: &[u64]) -> bool
    ensures { (result ≡ true) ↔ (said.now ≡ recorded.now) }
{
    said == recorded
}

pub fn all(said: &[u64], recorded: &[u64]) -> Verdict
    ensures { Judges (said.now ≡ recorded.now) result }
{
    judged(is_same(said, recorded))
}

pub fn one(said: u64, recorded: &[u64]) -> Verdict
    ensures { Judges (said ∷ [] ≡ recorded.now) result }
{
    all(&[said], recorded)
}

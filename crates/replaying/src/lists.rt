// Lists among numbers: the length, then the members.
ghost use Rattle.replaying.specs.Replaying.{ListEnd, LastEnd, After};

// The end of the list at `at`; 0 where there is no whole list, as the contract `ListEnd` says, and so no Option.
pub fn end(a: &[u64], at: usize) -> usize
    ensures { ListEnd a.now at result }
{
    if a.len() <= at {
        return 0;
    }
    let n = a[at] as usize;
    if a.len() - at - 1 < n {
        return 0;
    }
    at + 1 + n
}

// The end of the list at `at` where exactly `more` numbers follow it, else 0.
pub fn end_before(a: &[u64], at: usize, more: usize) -> usize
    ensures { LastEnd a.now at more result }
{
    let e = end(a, at);
    if a.len() - e == more {
        return e;
    }
    0
}

// Where the members of a list stand; both 0 for no list, since the length of one stands before its members.
#[derive(Clone, Copy)]
pub struct Span {
    pub start: usize,
    pub end: usize,
}

// The members of the list that begins where another ends; none where there is no whole list, and after none.
pub fn after(a: &[u64], s: Span) -> Span
    ensures { After a.now s result }
{
    let at = s.end;
    if s.start == 0 {
        return Span { start: 0, end: 0 };
    }
    let e = end(a, at);
    if e <= at {
        return Span { start: 0, end: 0 };
    }
    Span {
        start: at + 1,
        end: e,
    }
}

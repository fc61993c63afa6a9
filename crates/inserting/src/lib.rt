// One bound into the table of a solve. The table is lent as a slice of 4,096 words, sorted keys at its front; the queue as its ring.
#![tactic(auto)]

ghost use Rattle.std.specs.Prelude.{◌≡◌, ◌<◌};
ghost use Rattle.keys.specs.Rank.{unrank};
ghost use Rattle.solving.specs.Solving.{bound, to_one};
ghost use Rattle.inserting.specs.Store.{store, refused_by, put_bound, put_all, sent_types, Ranked, Sendable, Ready};

use keys::{COMPONENT, KIND};
use queue::Queue;
use sorted::Put;

// The numbers of a solve at work: 0 or its refusal, how many bounds there are, and who waits.
#[derive(Clone, Copy)]
pub struct State {
    pub refusal: u64,
    pub count: usize,
    pub queue: Queue,
}

// What a rule sends: no type, the type of a rank, or an array of more dimensions than a type can have.
#[derive(Clone, Copy)]
pub enum Sent {
    Nothing,
    Rank(u64),
    Deep,
}

fn refused(s: State, k: u64) -> State
    ensures { result ≡ refused_by k s }
{
    State { refusal: k, ..s }
}

// Puts a bound into the table and its component into the queue, where it is new; 21 where there is no room.
pub fn insert_bound(
    a: &mut [u64],
    ring: &mut [u64],
    s: State,
    component: u64,
    kind: u64,
    rank: u64,
) -> State
    requires { Ready (store a.old ring.old s) × (component < 512) × (kind < 5) × Ranked rank }
    ensures { store a.new ring.new result ≡ put_bound (bound component kind (unrank rank)) (store a.old ring.old s) }
{
    let key = component * COMPONENT + (kind * KIND + rank);
    let p = sorted::insert(a, s.count, key);
    match p {
        Put::Old => s,
        Put::New => {
            let q = queue::offer(ring, s.queue, component);
            State {
                count: s.count + 1,
                queue: q,
                ..s
            }
        }
        Put::Full => refused(s, 21),
    }
}

// The same of what a rule sends; 20, which comes before 21, where it is too deep.
pub fn insert_sent(
    a: &mut [u64],
    ring: &mut [u64],
    s: State,
    component: u64,
    kind: u64,
    t: Sent,
) -> State
    requires { Ready (store a.old ring.old s) × (component < 512) × (kind < 5) × Sendable t }
    ensures { store a.new ring.new result ≡ put_all (to_one 0 kind (sent_types t) component) (store a.old ring.old s) }
{
    match t {
        Sent::Nothing => s,
        Sent::Rank(rank) => insert_bound(a, ring, s, component, kind, rank),
        Sent::Deep => refused(s, 20),
    }
}

// A queue of components in a ring of 512 words in a lent slice, and a set of those that stand in it: nobody stands in it twice.
#![tactic(auto)]

ghost use Rattle.std.specs.Prelude.{◌≡◌, false, ◌++◌, ◌≤◌, ◌<◌, length, drop};
ghost use Rattle.sets.specs.Sets.{member};
ghost use Rattle.view.specs.View.{numbers};
ghost use Rattle.queue.specs.Ring.{line, first_set, offered, ring_offered, popped};

use sets::Set;

// `len` entries from place `head` on, around the ring; `queued` has the same members.
#[derive(Clone, Copy)]
pub struct Queue {
    pub head: u64,
    pub len: u64,
    pub queued: Set,
}

// What is taken from the front: the first component, and the queue without it. (A pair would be no plainer: it would not name them.)
#[derive(Clone, Copy)]
pub struct Popped {
    pub front: u64,
    pub rest: Queue,
}

// The first n components, ascending.
pub fn fill(ring: &mut [u64], n: u64) -> Queue
    requires { (length ring.old ≡ 512) × (n ≤ 512) }
    ensures { (result ≡ line 0 n (first_set n)) × (ring.new ≡ numbers 0 n ++ drop n ring.old) }
{
    let mut queued = Set::empty();
    for i in 0..n {
        ring[i as usize] = i;
        queued = queued.with(i);
    }
    Queue {
        head: 0,
        len: n,
        queued,
    }
}

// Puts c at the back unless it is queued.
pub fn offer(ring: &mut [u64], q: Queue, c: u64) -> Queue
    requires { (length ring.old ≡ 512) × (q.head < 512) × (member q.queued.words c ≡ false → q.len < 512) }
    ensures { (result ≡ offered q c) × (ring.new ≡ ring_offered ring.old q c) }
{
    if q.queued.has(c) {
        return q;
    }
    let at = ((q.head + q.len) % 512) as usize;
    ring[at] = c;
    Queue {
        len: q.len + 1,
        queued: q.queued.with(c),
        ..q
    }
}

// Takes the front of a queue that is not empty; it is no longer queued then.
pub fn pop(ring: &[u64], q: Queue) -> Popped
    requires { (length ring.now ≡ 512) × (q.head < 512) × (0 < q.len) }
    ensures { result ≡ popped ring.now q }
{
    let front = ring[q.head as usize];
    let queued = q.queued.without(front);
    Popped {
        front,
        rest: Queue {
            head: (q.head + 1) % 512,
            len: q.len - 1,
            queued,
        },
    }
}

// Turn by turn: the first queue, and the front that has the next turn. (The loop stands above the turn.)
#![tactic(auto)]

ghost use Rattle.std.specs.Prelude.{◌≡◌, ◌++◌, ◌≤◌, ◌<◌, length, drop};
ghost use Rattle.view.specs.View.{numbers};
ghost use Rattle.running.specs.Running.{started, taken};

use inserting::State;
use queue::{fill, pop};

// Whose turn it is, and the solve without it in the queue. (A pair would be no plainer: it would not name them.)
#[derive(Clone, Copy)]
pub struct Taken {
    pub root: u64,
    pub state: State,
}

// The given bounds, which are only read, at the front of the table.
pub fn load(given: &[u64], a: &mut [u64])
    requires { length given.now ≤ length a.old }
    ensures { a.new ≡ given.now ++ drop (length given.now) a.old }
{
    a[..given.len()].copy_from_slice(given);
}

// A solve of so many bounds: all components wait, ascending.
pub fn start(ring: &mut [u64], count: usize, components: u64) -> State
    requires { (length ring.old ≡ 512) × (components ≤ 512) }
    ensures { (result ≡ started count components) × (ring.new ≡ numbers 0 components ++ drop components ring.old) }
{
    State {
        refusal: 0,
        count,
        queue: fill(ring, components),
    }
}

// The front of a queue that is not empty.
pub fn take_front(ring: &[u64], s: State) -> Taken
    requires { (length ring.now ≡ 512) × (s.queue.head < 512) × (0 < s.queue.len) }
    ensures { result ≡ taken ring.now s }
{
    let p = pop(ring, s.queue);
    Taken {
        root: p.front,
        state: State { queue: p.rest, ..s },
    }
}

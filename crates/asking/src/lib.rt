// What a turn asks of its component's state: what is produced only where a flow or an array constraint takes it on, the element only where the
// component is an array that is read or written. Both cost joins, and most components have no such link.
#![tactic(auto)]

ghost use Rattle.std.specs.Prelude.{◌≡◌, ◌||◌, map, ◌/◌, ◌%◌, eqb};
ghost use Rattle.sorted.specs.Sorted.{Sorted};
ghost use Rattle.solving.specs.LinkKeys.{pair_of};
ghost use Rattle.asking.specs.Asking.{begins, touches, asks_produced, asks_element, asked_of};

// Whether what is produced is asked for, and whether the element is.
#[derive(Clone, Copy)]
pub struct Asked {
    pub produced: bool,
    pub element: bool,
}

// Whether a link begins with the root; by bisection.
fn has_target(flows: &[u64], root: u64) -> bool
    requires { Sorted flows.now }
    ensures { result ≡ begins root (map pair_of flows.now) }
{
    let of = sorted::run(flows, flows.len(), 512, root);
    of.first < of.past
}

// Whether a link begins with the root.
fn is_array(links: &[u64], root: u64) -> bool
    ensures { result ≡ begins root (map pair_of links.now) }
{
    links.iter().any(|link| *link / 512 == root)
}

// Whether a link has the root on a side.
fn has_side(link: u64, root: u64) -> bool
    ensures { result ≡ (eqb (link / 512) root || eqb (link % 512) root) }
{
    link / 512 == root || link % 512 == root
}

// Whether some link does.
fn is_touched(links: &[u64], root: u64) -> bool
    ensures { result ≡ touches root (map pair_of links.now) }
{
    links.iter().any(|link| has_side(*link, root))
}

fn asks_produced(flows: &[u64], reads: &[u64], writes: &[u64], root: u64) -> bool
    requires { Sorted flows.now }
    ensures { result ≡ asks_produced flows.now reads.now writes.now root }
{
    has_target(flows, root) || is_touched(reads, root) || is_touched(writes, root)
}

fn asks_element(reads: &[u64], writes: &[u64], root: u64) -> bool
    ensures { result ≡ asks_element reads.now writes.now root }
{
    is_array(reads, root) || is_array(writes, root)
}

// Of the turn of a component.
pub fn asks(flows: &[u64], reads: &[u64], writes: &[u64], root: u64) -> Asked
    requires { Sorted flows.now }
    ensures { result ≡ asked_of flows.now reads.now writes.now root }
{
    Asked {
        produced: asks_produced(flows, reads, writes, root),
        element: asks_element(reads, writes, root),
    }
}

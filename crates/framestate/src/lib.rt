// The state that hex frames build up, as lent slices and one struct of numbers, and what a frame comes to.
#![tactic(auto)]

ghost use Rattle.std.specs.Prelude.{◌≡◌};
ghost use Rattle.framestate.specs.declared.Said.TheVariants.{Accepted, Refused};
ghost use Rattle.framestate.specs.FrameState.{name_numbers, record_numbers, count_numbers, variable_numbers, bound_numbers, flow_numbers, upper_numbers, read_numbers, write_numbers, ask_numbers, framed};

use layers::StackTables;
use tables::Tables;

// The numbers of a state: of the layers of class tables, how long the last name is, how many components and entries there are, the highest kind accepted.
#[derive(Clone, Copy)]
pub struct Numbers {
    pub stack: StackTables,
    pub last: usize,
    pub components: u64,
    pub variables: usize,
    pub bounds: usize,
    pub flows: usize,
    pub uppers: usize,
    pub reads: usize,
    pub writes: usize,
    pub rank: u64,
}

// What a frame says; a relation is 0 Yes, 1 No, 2 Unknown, a missing supertype all ones, a cast 0 or 1. Answers stand in a lent slice.
// These stay numbers, since one function prints all three: an option or a bool would be turned into a number before it.
#[derive(Clone, Copy)]
pub enum Said {
    Accepted,
    Solved,
    Related(u64),
    Supertyped(u64),
    Castable(u64),
    Refused(u64),
}

// What a frame comes to.
#[derive(Clone, Copy)]
pub struct Framed {
    pub said: Said,
    pub numbers: Numbers,
}

pub fn refuse(n: Numbers, refusal: u64) -> Framed
    ensures { result ≡ framed (Refused refusal) n }
{
    Framed {
        said: Said::Refused(refusal),
        numbers: n,
    }
}

pub fn accept(n: Numbers) -> Framed
    ensures { result ≡ framed Accepted n }
{
    Framed {
        said: Said::Accepted,
        numbers: n,
    }
}

// The numbers after a row that was taken, by its kind.
impl Numbers {
    pub fn named(self, last: usize, tables: Tables) -> Numbers
        ensures { result ≡ name_numbers self last tables }
    {
        let stack = StackTables {
            tables,
            ..self.stack
        };
        Numbers {
            stack,
            last,
            rank: 1,
            ..self
        }
    }

    pub fn recorded(self, stack: StackTables) -> Numbers
        ensures { result ≡ record_numbers self stack }
    {
        Numbers {
            stack,
            rank: 2,
            ..self
        }
    }

    pub fn counted(self, components: u64) -> Numbers
        ensures { result ≡ count_numbers self components }
    {
        Numbers {
            components,
            rank: 3,
            ..self
        }
    }

    pub fn with_variables(self, count: usize) -> Numbers
        ensures { result ≡ variable_numbers self count }
    {
        Numbers {
            variables: count,
            rank: 4,
            ..self
        }
    }

    pub fn with_bounds(self, count: usize) -> Numbers
        ensures { result ≡ bound_numbers self count }
    {
        Numbers {
            bounds: count,
            rank: 5,
            ..self
        }
    }

    pub fn with_flows(self, count: usize) -> Numbers
        ensures { result ≡ flow_numbers self count }
    {
        Numbers {
            flows: count,
            rank: 6,
            ..self
        }
    }

    pub fn with_uppers(self, count: usize) -> Numbers
        ensures { result ≡ upper_numbers self count }
    {
        Numbers {
            uppers: count,
            rank: 7,
            ..self
        }
    }

    pub fn with_reads(self, count: usize) -> Numbers
        ensures { result ≡ read_numbers self count }
    {
        Numbers {
            reads: count,
            rank: 8,
            ..self
        }
    }

    pub fn with_writes(self, count: usize) -> Numbers
        ensures { result ≡ write_numbers self count }
    {
        Numbers {
            writes: count,
            rank: 9,
            ..self
        }
    }

    pub fn asked(self) -> Numbers
        ensures { result ≡ ask_numbers self }
    {
        Numbers { rank: 10, ..self }
    }
}

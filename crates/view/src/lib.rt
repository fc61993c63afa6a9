// What the queries on a class table mean, over any view of it, and the laws of that; code stands in the crate hierarchy.
// The answer of subtype_relation.
#![tactic(auto)]

#[derive(Clone, Copy)]
pub enum Relation {
    Yes,
    No,
    Unknown,
}

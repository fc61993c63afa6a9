// The questions of the boundary over a table of eight columns.
use crate::cutting;
use bracepuffin::{BpAnswer, BpSet, BpTable};
use replaying::parts;

// What is asked of two classes, and of two types.
#[derive(Clone, Copy)]
pub(crate) enum Question {
    Relation,
    Distance,
    Supertype,
    Cast,
    Join,
    Assignable,
}

fn answer(
    question: Question,
    names: &[u8],
    name_at: &[u64],
    name_len: &[u64],
    rec_flags: &[u64],
    rec_class: &[u64],
    rec_at: &[u64],
    rec_len: &[u64],
    parents: &[u64],
    x: u64,
    y: u64,
    work: &mut [u64],
) -> BpAnswer {
    match question {
        Question::Relation => {
            let a = bracepuffin::bp_relation(
                names, name_at, name_len, rec_flags, rec_class, rec_at, rec_len, parents, x, y,
                work,
            );
            BpAnswer {
                refusal: a.refusal,
                value: a.relation,
            }
        }
        Question::Distance => bracepuffin::bp_distance(
            names, name_at, name_len, rec_flags, rec_class, rec_at, rec_len, parents, x, y, work,
        ),
        Question::Supertype => bracepuffin::bp_supertype(
            names, name_at, name_len, rec_flags, rec_class, rec_at, rec_len, parents, x, y, work,
        ),
        Question::Cast => bracepuffin::bp_cast(
            names, name_at, name_len, rec_flags, rec_class, rec_at, rec_len, parents, x, y, work,
        ),
        Question::Join => bracepuffin::bp_join(
            names, name_at, name_len, rec_flags, rec_class, rec_at, rec_len, parents, x, y, work,
        ),
        Question::Assignable => bracepuffin::bp_assignable(
            names, name_at, name_len, rec_flags, rec_class, rec_at, rec_len, parents, x, y, work,
        ),
    }
}

// The same over a table among numbers.
pub(crate) fn ask(
    question: Question,
    t: &[u64],
    store: &[u8],
    x: u64,
    y: u64,
    work: &mut [u64],
) -> BpAnswer {
    answer(
        question,
        cutting::names(t, store),
        parts::list(t, 3, 0),
        parts::list(t, 3, 1),
        parts::list(t, 3, 3),
        parts::list(t, 3, 4),
        parts::list(t, 3, 5),
        parts::list(t, 3, 6),
        parts::list(t, 3, 7),
        x,
        y,
        work,
    )
}

// The ancestors of a class.
pub(crate) fn ancestors(t: &[u64], store: &[u8], x: u64, work: &mut [u64]) -> BpSet {
    bracepuffin::bp_ancestors(
        cutting::names(t, store),
        parts::list(t, 3, 0),
        parts::list(t, 3, 1),
        parts::list(t, 3, 3),
        parts::list(t, 3, 4),
        parts::list(t, 3, 5),
        parts::list(t, 3, 6),
        parts::list(t, 3, 7),
        x,
        work,
    )
}

// Where the table is refused.
pub(crate) fn check(t: &[u64], store: &[u8]) -> BpTable {
    bracepuffin::bp_check_table(
        cutting::names(t, store),
        parts::list(t, 3, 0),
        parts::list(t, 3, 1),
        parts::list(t, 3, 3),
        parts::list(t, 3, 4),
        parts::list(t, 3, 5),
        parts::list(t, 3, 6),
        parts::list(t, 3, 7),
    )
}

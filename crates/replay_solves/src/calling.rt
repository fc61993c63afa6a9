// The one call of the boundary.
use crate::cutting;
use bracepuffin::BpSolved;
use replaying::parts;

// The solve of a problem over a table, into the first entries of these slices.
pub(crate) fn solve(
    t: &[u64],
    store: &[u8],
    q: &[u64],
    answers: &mut [u64],
    out_comp: &mut [u64],
    out_kind: &mut [u64],
    out_type: &mut [u64],
    work: &mut [u64],
) -> BpSolved {
    let answers_room = cutting::room(q, 0, answers.len());
    let components_room = cutting::room(q, 1, out_comp.len());
    let kinds_room = cutting::room(q, 2, out_kind.len());
    let types_room = cutting::room(q, 3, out_type.len());
    let work_room = cutting::room(q, 4, work.len());
    bracepuffin::bp_solve(
        cutting::names(t, store),
        parts::list(t, 2, 0),
        parts::list(t, 2, 1),
        parts::list(t, 2, 2),
        parts::list(t, 2, 3),
        parts::list(t, 2, 4),
        parts::list(t, 2, 5),
        parts::list(t, 2, 6),
        parts::number_at(q, 5),
        parts::list(q, 6, 0),
        parts::list(q, 6, 1),
        parts::list(q, 6, 2),
        parts::list(q, 6, 3),
        parts::list(q, 6, 4),
        parts::list(q, 6, 5),
        parts::list(q, 6, 6),
        parts::list(q, 6, 7),
        parts::list(q, 6, 8),
        parts::list(q, 6, 9),
        parts::list(q, 6, 10),
        parts::list(q, 6, 11),
        &mut answers[..answers_room],
        &mut out_comp[..components_room],
        &mut out_kind[..kinds_room],
        &mut out_type[..types_room],
        &mut work[..work_room],
    )
}

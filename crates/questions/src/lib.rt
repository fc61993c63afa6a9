// Questions over slices: the class table is built from its columns, its pairs in the work that a caller lends, or, where a row opens a layer, in a
// local array with room for four layers; the two numbers are checked over its names, and the question is put to the crate that answers it. The work
// may come with any words, and is zero afterwards.
#![tactic(auto)]

ghost use Rattle.std.specs.Prelude.{◌≡◌, true, cond, [], ◌∷◌, length};
ghost use Rattle.checks.specs.Checks.{first_refusal};
ghost use Rattle.ty.specs.Words.{all_legal};
ghost use Rattle.view.specs.View.{relation_number};
ghost use Rattle.tables.specs.Table.{marks_room, view_of};
ghost use Rattle.lattice.specs.World.{world_of};
ghost use Rattle.joins.specs.Joins.{Fits};
ghost use Rattle.rows.specs.Rows.{no_tables, all_below};
ghost use Rattle.columns.specs.Given.{no_marks, given_of};
ghost use Rattle.layercolumns.specs.LayerColumns.{RoomFor};
ghost use Rattle.questions.specs.Questions.{of_types, good_numbers, value_of, gathered, Asked, Gathers};
ghost use Rattle.questions.specs.Inside.{Builds, ran_checks, table_answer, table_ancestors, no_ancestors, Opens, NoRows, Single, Askable, TellsOver, Tells};

use clearing::clear;
use columns::TableColumns;
use layercolumns::{build_shown, first_open};
use layers::SHOWN;
use rows::Outcome;
use sets::Set;
use tables::{MARKS, PAIRS, Tables};
use ty::{TypeWord, is_legal};
use view::Relation;

// The least length of the work.
const ROOM: usize = 8192;

// What is asked: four questions about two classes, two about two types.
#[derive(Clone, Copy)]
pub enum Question {
    Relation,
    Distance,
    Supertype,
    Cast,
    Join,
    Assignable,
}

// A number; or a refusal, and 0.
#[derive(Clone, Copy)]
pub struct Answer {
    pub refusal: u64,
    pub value: u64,
}

// A set, how many are in it and the least of them; or a refusal, and zeros.
#[derive(Clone, Copy)]
pub struct Ancestors {
    pub refusal: u64,
    pub count: u64,
    pub lowest: u64,
    pub set: Set,
}

// One of the two, by what was asked.
#[derive(Clone, Copy)]
struct Told {
    answer: Answer,
    ancestors: Ancestors,
}

// ---- the table

// Unequal columns.
fn no_table() -> Outcome
    ensures { result ≡ record { refusal = 3; tables = no_tables } }
{
    Outcome {
        refusal: 3,
        tables: Tables {
            names: 0,
            bytes: 0,
            object: u64::MAX,
            cloneable: u64::MAX,
            serializable: u64::MAX,
            pairs: 0,
        },
    }
}

// The table from columns of any length, into two slices without entries that have room for its layers: 3, or what the rows come to.
pub fn build_table(columns: &TableColumns, pairs: &mut [u64], marks: &mut [u64]) -> Outcome
    requires { RoomFor columns.now.rec_flags.now pairs.old × (marks.old ≡ no_marks) }
    ensures { Builds (given_of columns.now) pairs.new marks.new result }
{
    if columns.is_even() {
        return build_shown(columns, pairs, marks);
    }
    no_table()
}

// ---- the checks after the rows

// Whether a question is about types.
fn of_types(q: Question) -> bool
    ensures { result ≡ of_types q }
{
    match q {
        Question::Relation => false,
        Question::Distance => false,
        Question::Supertype => false,
        Question::Cast => false,
        Question::Join => true,
        Question::Assignable => true,
    }
}

fn are_types(a: u64, b: u64, names: u64) -> bool
    ensures { result ≡ all_legal names (a ∷ b ∷ []) }
{
    if is_legal(a, names) {
        return is_legal(b, names);
    }
    false
}

fn are_classes(a: u64, b: u64, names: u64) -> bool
    ensures { result ≡ all_below names (a ∷ b ∷ []) }
{
    if a < names {
        return b < names;
    }
    false
}

fn are_good(types: bool, a: u64, b: u64, names: u64) -> bool
    ensures { result ≡ good_numbers types names (a ∷ b ∷ []) }
{
    if types {
        return are_types(a, b, names);
    }
    are_classes(a, b, names)
}

// The refusal of a table, of two numbers over it, of the lack of java/lang/Object.
fn check_numbers(o: Outcome, types: bool, a: u64, b: u64) -> u64
    ensures { result ≡ first_refusal (ran_checks o.refusal o.tables types (a ∷ b ∷ [])) }
{
    if o.refusal != 0 {
        return o.refusal;
    }
    let t = o.tables;
    if are_good(types, a, b, t.names) {
        if t.object == u64::MAX {
            return 9;
        }
        return 0;
    }
    if types {
        return 7;
    }
    6
}

// The same table, with the refusal of all these checks.
fn with_checks(o: Outcome, types: bool, a: u64, b: u64) -> Outcome
    ensures { (result.refusal ≡ first_refusal (ran_checks o.refusal o.tables types (a ∷ b ∷ []))) × (result.tables ≡ o.tables) }
{
    Outcome {
        refusal: check_numbers(o, types, a, b),
        ..o
    }
}

// The table for a question about two numbers.
fn open_table(
    columns: &TableColumns,
    types: bool,
    a: u64,
    b: u64,
    pairs: &mut [u64],
    marks: &mut [u64],
) -> Outcome
    requires { RoomFor columns.now.rec_flags.now pairs.old × (marks.old ≡ no_marks) }
    ensures { Opens (given_of columns.now) types a b pairs.new marks.new result }
{
    let o = build_table(columns, pairs, marks);
    with_checks(o, types, a, b)
}

// ---- the answer to a question

fn relation_number(r: Relation) -> u64
    ensures { result ≡ relation_number r }
{
    match r {
        Relation::Yes => 0,
        Relation::No => 1,
        Relation::Unknown => 2,
    }
}

fn flag(b: bool) -> u64
    ensures { result ≡ cond b 1 0 }
{
    u64::from(b)
}

fn number(t: TypeWord) -> u64
    ensures { result ≡ t.word }
{
    t.word
}

fn value_of(pairs: &[u64], marks: &[u64], t: Tables, q: Question, a: u64, b: u64) -> u64
    requires { (length marks.now ≡ marks_room) × Fits t × (good_numbers (of_types q) t.names (a ∷ b ∷ []) ≡ true) × NoRows pairs.now }
    ensures { result ≡ value_of (view_of pairs.now marks.now t) (world_of pairs.now marks.now t) q a b }
{
    let l = TypeWord { word: a };
    let r = TypeWord { word: b };
    match q {
        Question::Relation => relation_number(hierarchy::subtype_relation(pairs, marks, t, a, b)),
        Question::Distance => hierarchy::distance(pairs, marks, t, a, b),
        Question::Supertype => supertype::supertype(pairs, marks, t, a, b),
        Question::Cast => flag(hierarchy::cast(pairs, marks, t, a, b)),
        Question::Join => number(joins::join(pairs, marks, t, l, r)),
        Question::Assignable => flag(assignable::is_assignable(pairs, marks, t, l, r)),
    }
}

// In two slices, of which the marks are empty.
fn ask_over(
    columns: &TableColumns,
    q: Question,
    a: u64,
    b: u64,
    pairs: &mut [u64],
    marks: &mut [u64],
) -> Answer
    requires { RoomFor columns.now.rec_flags.now pairs.old × (marks.old ≡ no_marks) }
    ensures { result ≡ table_answer (given_of columns.now) q a b }
{
    let types = of_types(q);
    let o = open_table(columns, types, a, b, pairs, marks);
    if o.refusal != 0 {
        return Answer {
            refusal: o.refusal,
            value: 0,
        };
    }
    let value = value_of(pairs, marks, o.tables, q, a, b);
    Answer { refusal: 0, value }
}

// ---- the ancestors of a class

fn gather(s: Set) -> Ancestors
    ensures { result ≡ gathered 0 s.words }
{
    Ancestors {
        refusal: 0,
        count: s.count(),
        lowest: s.lowest(),
        set: s,
    }
}

fn none_gathered(code: u64) -> Ancestors
    ensures { result ≡ no_ancestors code }
{
    Ancestors {
        refusal: code,
        count: 0,
        lowest: 0,
        set: Set::empty(),
    }
}

// In two slices, of which the marks are empty.
fn ancestors_over(
    columns: &TableColumns,
    class: u64,
    pairs: &mut [u64],
    marks: &mut [u64],
) -> Ancestors
    requires { RoomFor columns.now.rec_flags.now pairs.old × (marks.old ≡ no_marks) }
    ensures { result ≡ table_ancestors (given_of columns.now) class }
{
    let o = open_table(columns, false, class, class, pairs, marks);
    if o.refusal != 0 {
        return none_gathered(o.refusal);
    }
    gather(hierarchy::ancestors(pairs, marks, o.tables, class))
}

// ---- both, over a table with layers

// What an opened table tells: the ancestors of the first number, or the answer.
fn tell(o: Outcome, pairs: &[u64], marks: &[u64], set: bool, q: Question, a: u64, b: u64) -> Told
    requires { Askable o q a b pairs.now marks.now }
    ensures { TellsOver o (view_of pairs.now marks.now o.tables) (world_of pairs.now marks.now o.tables) set q a b result.answer result.ancestors }
{
    if o.refusal != 0 {
        return Told {
            answer: Answer {
                refusal: o.refusal,
                value: 0,
            },
            ancestors: none_gathered(o.refusal),
        };
    }
    if set {
        return Told {
            answer: Answer {
                refusal: 0,
                value: 0,
            },
            ancestors: gather(hierarchy::ancestors(pairs, marks, o.tables, a)),
        };
    }
    let value = value_of(pairs, marks, o.tables, q, a, b);
    Told {
        answer: Answer { refusal: 0, value },
        ancestors: none_gathered(0),
    }
}

// Over a table with layers. It opens the table itself and serves both, so that it stands by itself and its array is in no other's frame.
fn ask_layers(columns: &TableColumns, set: bool, q: Question, a: u64, b: u64) -> Told
    requires { Single set q a b }
    ensures { Tells (given_of columns.now) set q a b result.answer result.ancestors }
{
    let mut pairs = [0u64; SHOWN];
    let mut marks = [0u64; MARKS];
    let types = of_types(q);
    let o = open_table(columns, types, a, b, &mut pairs, &mut marks);
    tell(o, &pairs, &marks, set, q, a, b)
}

// The answer to a question about two classes, or two types.
pub fn ask(columns: &TableColumns, q: Question, a: u64, b: u64, work: &mut [u64]) -> Answer
    ensures { Asked (given_of columns.now) q a b work.old work.new result }
{
    if work.len() < ROOM {
        return Answer {
            refusal: 22,
            value: 0,
        };
    }
    if first_open(columns.rec_flags) < columns.rec_flags.len() {
        let told = ask_layers(columns, false, q, a, b);
        clear(work);
        return told.answer;
    }
    let mut marks = [0u64; MARKS];
    let answer = ask_over(columns, q, a, b, &mut work[0..PAIRS], &mut marks);
    clear(work);
    answer
}

// The ancestors of a class.
pub fn ancestors_of(columns: &TableColumns, class: u64, work: &mut [u64]) -> Ancestors
    ensures { Gathers (given_of columns.now) class work.old work.new result }
{
    if work.len() < ROOM {
        return none_gathered(22);
    }
    if first_open(columns.rec_flags) < columns.rec_flags.len() {
        let told = ask_layers(columns, true, Question::Relation, class, class);
        clear(work);
        return told.ancestors;
    }
    let mut marks = [0u64; MARKS];
    let found = ancestors_over(columns, class, &mut work[0..PAIRS], &mut marks);
    clear(work);
    found
}

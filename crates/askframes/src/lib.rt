// The frames of questions about two classes, 0b to 0d: the numbers of a body, 6 and 9, the answer over the class tables.
#![tactic(auto)]

ghost use Rattle.std.specs.Prelude.{◌≡◌, cond, ◌-◌, ◌^◌, ◌≤◌, ◌<◌, length};
ghost use Rattle.view.specs.View.{relation, relation_number, supertype, number_of, cast};
ghost use Rattle.tables.specs.Table.{names_room, marks_room, view_of};
ghost use Rattle.layers.specs.Layers.{layers_room};
ghost use Rattle.hexline.specs.Hex.{number_at};
ghost use Rattle.framestate.specs.declared.Said.TheVariants.{Related, Supertyped, Castable};
ghost use Rattle.framestate.specs.FrameState.{framed, ask_numbers};
ghost use Rattle.askframes.specs.AskFrames.{ask_refusal, asked};

use framestate::{Framed, Numbers, Said, refuse};
use hexline::number_at;
use tables::Tables;
use view::Relation;

// A number that is no class, or no java/lang/Object among the names.
fn check_ask(t: Tables, a: u64, b: u64) -> u64
    ensures { result ≡ ask_refusal t a b }
{
    if t.names <= a {
        return 6;
    }
    if t.names <= b {
        return 6;
    }
    if t.object == u64::MAX {
        return 9;
    }
    0
}

// What is said, with the numbers after a question.
fn say(n: Numbers, said: Said) -> Framed
    ensures { result ≡ framed said (ask_numbers n) }
{
    let m = n.asked();
    Framed { said, numbers: m }
}

// No `From`: that would have to stand in `view`, beside the enum.
fn relation_number(r: Relation) -> u64
    ensures { result ≡ relation_number r }
{
    match r {
        Relation::Yes => 0,
        Relation::No => 1,
        Relation::Unknown => 2,
    }
}

// 0b: the relation of a value to what is expected.
pub fn relation_frame(body: &[u8], pairs: &[u64], marks: &[u64], n: Numbers) -> Framed
    requires { (length body.now ≡ 4) × (length marks.now ≡ marks_room) }
    ensures { result ≡ asked (ask_refusal n.stack.tables (number_at 0 body.now) (number_at 2 body.now)) (Related (relation_number (relation (view_of pairs.now marks.now n.stack.tables) (number_at 0 body.now) (number_at 2 body.now)))) n }
{
    let a = number_at(body, 0);
    let b = number_at(body, 2);
    let s = n.stack;
    let t = s.tables;
    let refusal = check_ask(t, a, b);
    if refusal != 0 {
        return refuse(n, refusal);
    }
    let r = relation_number(hierarchy::subtype_relation(pairs, marks, t, a, b));
    say(n, Said::Related(r))
}

// 0c: the least common supertype.
pub fn supertype_frame(body: &[u8], pairs: &[u64], marks: &[u64], n: Numbers) -> Framed
    requires { (length body.now ≡ 4) × (n.stack.tables.names ≤ names_room) × ((n.stack.tables.object ≡ 2 ^ 64 - 1 → ⊥) → n.stack.tables.object < n.stack.tables.names) × (length marks.now ≡ marks_room) × (length pairs.now ≡ layers_room) }
    ensures { result ≡ asked (ask_refusal n.stack.tables (number_at 0 body.now) (number_at 2 body.now)) (Supertyped (number_of (supertype (view_of pairs.now marks.now n.stack.tables) (number_at 0 body.now) (number_at 2 body.now)))) n }
{
    let a = number_at(body, 0);
    let b = number_at(body, 2);
    let s = n.stack;
    let t = s.tables;
    let refusal = check_ask(t, a, b);
    if refusal != 0 {
        return refuse(n, refusal);
    }
    let c = supertype::supertype(pairs, marks, t, a, b);
    say(n, Said::Supertyped(c))
}

// 0d: the cast test.
pub fn cast_frame(body: &[u8], pairs: &[u64], marks: &[u64], n: Numbers) -> Framed
    requires { (length body.now ≡ 4) × (length marks.now ≡ marks_room) }
    ensures { result ≡ asked (ask_refusal n.stack.tables (number_at 0 body.now) (number_at 2 body.now)) (Castable (cond (cast (view_of pairs.now marks.now n.stack.tables) (number_at 0 body.now) (number_at 2 body.now)) 1 0)) n }
{
    let a = number_at(body, 0);
    let b = number_at(body, 2);
    let s = n.stack;
    let t = s.tables;
    let refusal = check_ask(t, a, b);
    if refusal != 0 {
        return refuse(n, refusal);
    }
    let r = u64::from(hierarchy::cast(pairs, marks, t, a, b));
    say(n, Said::Castable(r))
}

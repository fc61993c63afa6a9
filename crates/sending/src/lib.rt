// How what a component's state gives is sent: the type that is produced, its element, its array. A type goes by its rank, so that a pass makes
// keys without asking for it again.
#![tactic(auto)]

ghost use Rattle.std.specs.Prelude.{◌≡◌};
ghost use Rattle.ty.specs.Types.{Array};
ghost use Rattle.ty.specs.Words.{Legal, type_of};
ghost use Rattle.inserting.specs.Store.{sent_of};
ghost use Rattle.sending.specs.Sending.{sent_maybe, sent_element, sent_array, LegalMaybe};

use inserting::Sent;
use keys::rank_of;
use ty::TypeWord;

// A type.
fn send_word(t: TypeWord) -> Sent
    requires { Legal t.word }
    ensures { result ≡ sent_of (type_of t.word) }
{
    Sent::Rank(rank_of(t))
}

// The array of a type.
fn send_array_of(t: TypeWord) -> Sent
    requires { Legal t.word }
    ensures { result ≡ sent_of (Array (type_of t.word)) }
{
    let a = t.array();
    match a {
        Some(w) => Sent::Rank(rank_of(w)),
        None => Sent::Deep,
    }
}

// What is produced, if anything is.
pub fn send_type(m: Option<TypeWord>) -> Sent
    requires { LegalMaybe m }
    ensures { result ≡ sent_maybe m }
{
    match m {
        Some(t) => send_word(t),
        None => Sent::Nothing,
    }
}

// The element of a type, if it has one.
pub fn send_element(m: Option<TypeWord>) -> Sent
    requires { LegalMaybe m }
    ensures { result ≡ sent_element m }
{
    match m {
        Some(t) => send_type(t.element()),
        None => Sent::Nothing,
    }
}

// The array of a type that is concrete.
pub fn send_array(m: Option<TypeWord>) -> Sent
    requires { LegalMaybe m }
    ensures { result ≡ sent_array m }
{
    match m {
        Some(t) => {
            if t.is_concrete() {
                send_array_of(t)
            } else {
                Sent::Nothing
            }
        }
        None => Sent::Nothing,
    }
}

//! One token: what each goal makes of it.

ghost use Rattle.std.specs.Prelude.{◌≡◌, ℕ};
ghost use Rattle.wanted_tokens.specs.Takings.{effect};
ghost use Rattle.wanted_tokens.specs.Tokens.{symbol, reserved, name, take_number, done, as_word, truth, two};

use crate::looks::{Look, PlaceWord};
use crate::takings::{NOTHING, Taking, takes};
use aioc_tokens::{Punctuator, Word};

/// This symbol.
pub fn symbol(wanted: Punctuator, look: Look) -> Taking
    ensures { effect result ≡ symbol wanted look }
{
    match look {
        Look::Symbol(found) if found.spelling() == wanted.spelling() => takes(NOTHING.as_slice()),
        _ => Taking::Stops,
    }
}

/// This reserved word.
pub fn reserved(wanted: Word, look: Look) -> Taking
    ensures { effect result ≡ reserved wanted look }
{
    match look {
        Look::Reserved(found) if found.spelling() == wanted.spelling() => {
            takes(NOTHING.as_slice())
        }
        _ => Taking::Stops,
    }
}

/// A name.
pub fn name(look: Look) -> Taking
    ensures { effect result ≡ name look }
{
    match look {
        Look::Name(_) => takes(NOTHING.as_slice()),
        _ => Taking::Stops,
    }
}

/// A number that is at most this one.
pub fn number(most: u64, look: Look) -> Taking
    ensures { effect result ≡ take_number most look }
{
    match look {
        Look::Number(Some(number)) if number <= most => takes(NOTHING.as_slice()),
        _ => Taking::Stops,
    }
}

/// `done`
pub fn done(look: Look) -> Taking
    ensures { effect result ≡ done look }
{
    match look {
        Look::Name(Some(PlaceWord::Done)) => takes(NOTHING.as_slice()),
        _ => Taking::Stops,
    }
}

/// `as`
pub fn as_word(look: Look) -> Taking
    ensures { effect result ≡ as_word look }
{
    match look {
        Look::Name(Some(PlaceWord::As)) => takes(NOTHING.as_slice()),
        _ => Taking::Stops,
    }
}

/// `true` or `false`.
pub fn truth(look: Look) -> Taking
    ensures { effect result ≡ truth look }
{
    match look {
        Look::Reserved(Word::True | Word::False) => takes(NOTHING.as_slice()),
        _ => Taking::Stops,
    }
}

/// The number of the second version.
pub fn two(look: Look) -> Taking
    ensures { effect result ≡ two look }
{
    match look {
        Look::Number(Some(2)) => takes(NOTHING.as_slice()),
        _ => Taking::Stops,
    }
}

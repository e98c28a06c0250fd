//! Why a text is not read on.

ghost use Rattle.std.specs.Prelude.{◌≡◌, ◌≢◌, List, Err, Some};
ghost use Rattle.aioc_tokens.specs.declared.kinds.Token.{Token};
ghost use Rattle.aioc_tokens.specs.Lexing.{Lexes, place_of};
ghost use Rattle.aioc_tokens.specs.Lexemes.{lexemes};
ghost use Rattle.bundle_text.specs.Stops.{named_place};

use aioc_tokens::{Lexed, Token, TokenFault, place, tokens};
use dioc_terms::{Memory, SyntaxFault};
use std::alloc::{AllocError, AllocFailed, Global};
use wanted_tokens::{Goal, first_unwanted};

/// Why a text is not read on: at a place of its tokens something else was wanted, or memory ran
/// out.
#[derive(Clone, Copy)]
pub enum Stop {
    At(usize),
    Memory,
}

impl From<Memory> for Stop {
    ghost use Rattle.bundle_text.specs.declared.stops.Stop.TheVariants as stop;

    ghost from_gives = { λ _ e. e ≡ stop.Memory };

    fn from(_error: Memory) -> Stop {
        Stop::Memory
    }
}

impl From<AllocError> for Stop {
    ghost use Rattle.bundle_text.specs.declared.stops.Stop.TheVariants as stop;

    ghost from_gives = { λ _ e. e ≡ stop.Memory };

    fn from(_error: AllocError) -> Stop {
        Stop::Memory
    }
}

impl<T: Drop> From<AllocFailed<T>> for Stop {
    ghost use Rattle.bundle_text.specs.declared.stops.Stop.TheVariants as stop;

    ghost from_gives = { λ _ e. e ≡ stop.Memory };

    fn from(_error: AllocFailed<T>) -> Stop {
        Stop::Memory
    }
}

/// Puts a value into a slot, and lets go of what was there.
pub fn fill<T: Drop>(slot: &mut Option<T>, value: T)
    ensures { slot.new ≡ Some value }
{
    *slot = Some(value);
}

/// Lets go of a value, for a stop.
pub fn lost<T: Drop, U: Drop>(_value: T, stop: Stop) -> Result<U, Stop>
    ensures { result ≡ Err stop }
{
    Err(stop)
}

/// The fault of a text whose reading ended at a place of its tokens. It names the first token that
/// may not stand there, or the end where more is wanted; where each may stand, that place.
fn fault(alloc: Global, bytes: &[u8], tokens: &[Token], whole: Goal, at: usize) -> SyntaxFault
    requires { Lexes 0 bytes.now tokens.now }
    ensures { result ≢ SyntaxFault.Memory → result ≡ SyntaxFault.Syntax (place_of bytes.now
        tokens.now (named_place whole (lexemes bytes.now tokens.now) at)) }
{
    match first_unwanted(alloc, &Lexed::new(bytes, tokens), whole) {
        Ok(first) => SyntaxFault::Syntax(place(bytes, tokens, first.unwrap_or(at))),
        Err(Memory) => SyntaxFault::Memory,
    }
}

/// The fault of a text that has tokens, and whose reading ended at a place of them. Only here they
/// are cut a second time, with their ends: the readers go over packed ones.
#[inline(never)]
pub fn refusal(alloc: Global, bytes: &[u8], whole: Goal, at: usize) -> SyntaxFault
    requires { (tokens : List Token) × Lexes 0 bytes.now tokens }
    ensures { (tokens : List Token) → Lexes 0 bytes.now tokens → result ≢ SyntaxFault.Memory
        → result ≡ SyntaxFault.Syntax (place_of bytes.now tokens (named_place whole (lexemes
        bytes.now tokens) at)) }
{
    match tokens(alloc, bytes) {
        Ok(tokens) => fault(alloc, bytes, &tokens, whole, at),
        Err(TokenFault::BadByte(_at)) => unreachable!(),
        Err(TokenFault::Memory) => SyntaxFault::Memory,
    }
}

//! The tokens of a text that is known to have some.

ghost use Rattle.std.specs.Prelude.{IfOk};
ghost use Rattle.aioc_tokens.specs.Lexing.{Lexes};
ghost use Rattle.text_places.specs.Laws.{HasTokens};

use aioc_tokens::{Token, TokenFault, tokens};
use std::alloc::{AllocError, Global};

/// The tokens of a text of which each byte is in a token, a space or a comment. The error says that
/// memory ran out.
pub fn tokens_of(alloc: Global, bytes: &[u8]) -> Result<Vec<Token>, AllocError>
    requires { HasTokens bytes.now }
    ensures { IfOk result (λ found. Lexes 0 bytes.now found.items) }
{
    match tokens(alloc, bytes) {
        Ok(found) => Ok(found),
        Err(TokenFault::BadByte(_)) => unreachable!(),
        Err(TokenFault::Memory) => Err(AllocError),
    }
}

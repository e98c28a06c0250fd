//! The layout of a text.

ghost use Rattle.std.specs.Prelude.{◌≡◌, ℕ, ◌≤◌, length, vec_len, IfOk, Err};
ghost use Rattle.std.specs.List.{All};
ghost use Rattle.limits.specs.Limits.{most_bytes};
ghost use Rattle.aioc_tokens.specs.Lexing.{Breaks};
ghost use Rattle.aioc_tokens.specs.Packed.{ArePacked};
ghost use Rattle.dioc_terms.specs.Plain.{PlainBundle};
ghost use Rattle.bundle_text.specs.Grammar.{Spells};
ghost use Rattle.bundle_layout.specs.Pieces.{HasPieces, SamePieces};
ghost use Rattle.bundle_layout.specs.Parts.{pieces_of, LiesIn};

use crate::gaps::Pen;
use crate::parts::{Part, cut};
use crate::shapes::units;
use crate::written::written;
use aioc_tokens::{Packed, TokenFault, packed_tokens};
use dioc_terms::Memory;
use std::alloc::{AllocError, Global};
use thiserror::Error;

/// The most bytes of a text whose places fit into 32 bits.
const MOST_PLACES: usize = 4_294_967_295;

/// Why a text isn't laid out.
#[derive(Clone, Copy, Debug, PartialEq, Eq, Error)]
pub enum LayoutFault {
    /// The first byte that is in no token, space or comment stands at this place.
    #[error("the byte at {0} is in no token")]
    BadByte(usize),
    /// Laid out the text would have more bytes than a bundle may have.
    #[error("the laid-out text is too long")]
    TooLong,
    /// Memory ran out.
    #[error("out of memory")]
    Memory,
}

impl From<Memory> for LayoutFault {
    ghost use Rattle.bundle_layout.specs.declared.layout.LayoutFault.TheVariants as fault;

    ghost from_gives = { λ _ e. e ≡ fault.Memory };

    fn from(_: Memory) -> LayoutFault {
        LayoutFault::Memory
    }
}

impl From<AllocError> for LayoutFault {
    ghost use Rattle.bundle_layout.specs.declared.layout.LayoutFault.TheVariants as fault;

    ghost from_gives = { λ _ e. e ≡ fault.Memory };

    fn from(_: AllocError) -> LayoutFault {
        LayoutFault::Memory
    }
}

/// The text of a bundle in its layout, with a line feed at its end.
///
/// It has the tokens and the comments of the text, byte for byte and in the same order, and at most
/// as many bytes as a bundle may have; so it spells the bundle that the text spells. A text that is
/// no bundle is laid out as well, as far as its brackets and separators tell. `BadByte` names the
/// first byte that is in no token, space or comment, counted from 0; `TooLong` comes where the
/// text, laid out, would have too many bytes, or where its places don't fit into 32 bits.
pub fn lay_out(alloc: Global, bytes: &[u8]) -> Result<Vec<u8>, LayoutFault>
    ensures same { IfOk result (λ v. SamePieces bytes.now v.items) }
    ensures bundle { IfOk result (λ v. (b : PlainBundle) → Spells bytes.now b → Spells v.items b) }
    ensures short { IfOk result (λ v. vec_len v ≤ most_bytes) }
    ensures bad { (at : ℕ) → result ≡ Err (LayoutFault.BadByte at) → Breaks 0 bytes.now at }
{
    if bytes.len() > MOST_PLACES {
        return Err(LayoutFault::TooLong);
    }
    let tokens = match packed_tokens(alloc, bytes) {
        Ok(packed) => packed,
        Err(TokenFault::BadByte(at)) => return Err(LayoutFault::BadByte(at)),
        Err(TokenFault::Memory) => return Err(LayoutFault::Memory),
    };
    lay_out_tokens(alloc, bytes, tokens)
}

/// The parts of a text, whose tokens are let go.
fn parts_of(alloc: Global, bytes: &[u8], tokens: Packed) -> Result<Vec<Part>, AllocError>
    requires packed { ArePacked bytes.now tokens.starts.items tokens.sorts.items }
    requires short { length bytes.now ≤ 4294967295 }
    ensures pieces { IfOk result (λ v. HasPieces bytes.now (pieces_of bytes.now v.items)) }
    ensures lie { IfOk result (λ v. All (LiesIn bytes.now) v.items) }
{
    cut(alloc, bytes, &tokens.starts, &tokens.sorts)
}

/// `lay_out` of a text whose tokens are known.
pub fn lay_out_tokens(alloc: Global, bytes: &[u8], tokens: Packed) -> Result<Vec<u8>, LayoutFault>
    requires { ArePacked bytes.now tokens.starts.items tokens.sorts.items }
    ensures same { IfOk result (λ v. SamePieces bytes.now v.items) }
    ensures bundle { IfOk result (λ v. (b : PlainBundle) → Spells bytes.now b → Spells v.items b) }
    ensures short { IfOk result (λ v. vec_len v ≤ most_bytes) }
    ensures bad { (at : ℕ) → result ≡ Err (LayoutFault.BadByte at) → ⊥ }
{
    if bytes.len() > MOST_PLACES {
        return Err(LayoutFault::TooLong);
    }
    let parts = parts_of(alloc, bytes, tokens)?;
    let units = units(alloc, bytes, &parts)?;
    let mut pen = Pen::new(alloc, &units)?;
    let text = written(alloc, bytes, &parts, &mut pen)?;
    Ok(text)
}

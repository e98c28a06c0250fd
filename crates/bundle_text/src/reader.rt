//! From the bytes of a text to its bundle.

ghost use Rattle.std.specs.Prelude.{◌≡◌, ◌≢◌, ◌≤◌, ℕ, [], length, drop, Err, IfOk, IfErr};
ghost use Rattle.dioc_terms.specs.Bundles.{IsFormed};
ghost use Rattle.aioc_tokens.specs.Packed.{ArePacked};
ghost use Rattle.limits.specs.Limits.{greatest_place};
ghost use Rattle.dioc_terms.specs.Plain.{plain};
ghost use Rattle.bundle_text.specs.Grammar.{IsBundle, Spells, SpellsNone};
ghost use Rattle.bundle_text.specs.Readers.{FindsVersion};
ghost use Rattle.bundle_text.specs.Stops.{place_in, EndsAt, EndsAtByte};

use crate::bundles::bundle_of;
use crate::sections::sections_at;
use crate::stops::{Stop, refusal};
use aioc_tokens::{Lexed, Packed, TokenFault, packed_tokens};
use dioc_syntax::Reader;
use dioc_terms::{Bundle, SyntaxFault};
use expr_syntax::number_at;
use limits::MOST_BYTES;
use std::alloc::Global;
use wanted_tokens::Goal;

/// The bundle that the bytes spell.
///
/// The error is `Syntax` exactly where they spell none. Its number is a byte: the limit of bytes
/// where there are more, the first byte that is in no token, or the first of the token that may not
/// stand where it does, however deep inside, or the end of the text where more is wanted. Where
/// each token may stand and a limit of brackets or depths is passed, it is that of the item inside
/// which it is, or the token behind the longest choreography. The error is `Memory` where memory
/// runs out.
pub fn read_bundle(alloc: Global, bytes: &[u8]) -> Result<Bundle, SyntaxFault>
    ensures found { IfOk result (λ b. Spells bytes.now (plain b)) }
    ensures syntax { IfErr result (λ fault. fault ≢ SyntaxFault.Memory → SpellsNone bytes.now) }
    ensures byte { (byte : ℕ) → result ≡ Err (SyntaxFault.Syntax byte) →
        EndsAtByte bytes.now byte }
    ensures formed { IfOk result (λ b. IsFormed (plain b)) }
{
    match read_bundle_with_tokens(alloc, bytes) {
        Ok((bundle, _)) => Ok(bundle),
        Err(fault) => Err(fault),
    }
}

/// The bundle that the bytes spell, and their tokens. An error is that of `read_bundle`.
pub fn read_bundle_with_tokens(alloc: Global, bytes: &[u8]) -> Result<(Bundle, Packed), SyntaxFault>
    ensures found { IfOk result (λ read. Spells bytes.now (plain read.0)) }
    ensures syntax { IfErr result (λ fault. fault ≢ SyntaxFault.Memory → SpellsNone bytes.now) }
    ensures byte { (byte : ℕ) → result ≡ Err (SyntaxFault.Syntax byte) →
        EndsAtByte bytes.now byte }
    ensures formed { IfOk result (λ read. IsFormed (plain read.0)) }
    ensures tokens { IfOk result (λ read.
        ArePacked bytes.now read.1.starts.items read.1.sorts.items) }
{
    if bytes.len() > MOST_BYTES {
        return Err(SyntaxFault::Syntax(MOST_BYTES));
    }
    let packed = match packed_tokens(alloc, bytes) {
        Ok(packed) => packed,
        Err(TokenFault::BadByte(at)) => return Err(SyntaxFault::Syntax(at)),
        Err(TokenFault::Memory) => return Err(SyntaxFault::Memory),
    };
    match bundle_at(alloc, &Lexed::packed(bytes, &packed)) {
        Ok(bundle) => Ok((bundle, packed)),
        Err(Stop::At(at)) => Err(refusal(alloc, bytes, Goal::Bundle, at)),
        Err(Stop::Memory) => Err(SyntaxFault::Memory),
    }
}

/// The bundle that is the whole text:
///
/// ```text
/// bundle = [ "version" "2" ] section { section }
/// ```
fn bundle_at(alloc: Global, text: &Lexed<'_>) -> Result<Bundle, Stop>
    requires { length text.now ≤ greatest_place }
    ensures found { IfOk result (λ b. IsBundle text.now (plain b) []) }
    ensures stopped { IfErr result (λ stop. stop ≢ Stop.Memory →
        EndsAt text.now (place_in stop)) }
{
    let (version, at) = version_at(text, 0);
    let reader = Reader {
        alloc,
        text,
        version,
    };
    let parts = sections_at(&reader, at)?;
    bundle_of(alloc, version, parts, text.len())
}

/// The version of the bundle that begins at a place of the text, 1 where none is written, and how
/// many tokens it takes:
///
/// ```text
/// [ "version" "2" ]
/// ```
pub fn version_at(text: &Lexed<'_>, at: usize) -> (u32, usize)
    requires few { length text.now ≤ greatest_place }
    requires within { at ≤ length text.now }
    ensures { FindsVersion (drop at text.now) result.0 result.1 }
{
    if !text.named(at, b"version") {
        return (1, 0);
    }
    match number_at(text, at + 1, 2) {
        Some(2) => (2, 2),
        _ => (1, 0),
    }
}

//! Whether anything is wrong with a text, and what.

ghost use Rattle.std.specs.Prelude.{◌≡◌, ◌≢◌, IfOk, IfSome};
ghost use Rattle.dioc_terms.specs.Bundles.{IsFormed};
ghost use Rattle.dioc_terms.specs.Plain.{plain};
ghost use Rattle.bundle_text.specs.Grammar.{Spells};
ghost use Rattle.rule_checks.specs.Answers.{IsRefusalOf};
ghost use Rattle.rule_checks.specs.Refusals.{refusal as refusal_of};
ghost use Rattle.diagnostics.specs.Traces.{IsReplayed, IsStrayAt};
ghost use Rattle.diagnostics.specs.Verdicts.{IsSound, is_memory};

use crate::diagnostic::{Diagnostic, told};
use crate::refusals::of_refusal;
use crate::syntax::of_syntax;
use crate::traces::of_trace;
use bundle_text::{one_bundle, read_bundle};
use dioc_terms::{Bundle, Memory, SyntaxFault};
use rule_checks::{Refusal, accept};
use std::alloc::Global;

/// Whether memory ran out, so that nothing is said of the bundle.
fn is_memory(refusal: &Refusal) -> bool
    ensures { result ≡ is_memory refusal.now }
{
    match refusal {
        Refusal::Memory => true,
        _ => false,
    }
}

/// What is wrong with a bundle that is refused.
#[tactic(auto, using(crate::proofs::Sound::spelled_tokens))]
fn of_refused(
    alloc: Global,
    bytes: &[u8],
    bundle: &Bundle,
    refusal: Refusal,
) -> Result<Option<Diagnostic>, Memory>
    requires formed { IsFormed (plain bundle.now) }
    requires spells { Spells bytes.now (plain bundle.now) }
    requires refused { IsRefusalOf (refusal_of (plain bundle.now)) refusal }
    ensures silent { IfOk result (λ found. found ≡ None → IsSound bytes.now) }
    ensures told { IfOk result (λ found. found ≢ None → IsSound bytes.now → ⊥) }
{
    one_bundle();
    if is_memory(&refusal) {
        return Err(Memory);
    }
    told(of_refusal(alloc, bytes, bundle, &refusal))
}

/// What is wrong with a bundle that the bytes spell.
fn of_bundle(alloc: Global, bytes: &[u8], bundle: &Bundle) -> Result<Option<Diagnostic>, Memory>
    requires formed { IsFormed (plain bundle.now) }
    requires spells { Spells bytes.now (plain bundle.now) }
    ensures silent { IfOk result (λ found. found ≡ None → IsSound bytes.now) }
    ensures told { IfOk result (λ found. found ≢ None → IsSound bytes.now → ⊥) }
{
    match accept(alloc, bundle) {
        Ok(()) => Ok(None),
        Err(refusal) => of_refused(alloc, bytes, bundle, refusal),
    }
}

/// What is wrong with the text of a bundle: `None` exactly where the bytes spell a bundle that
/// `accept` accepts, else the first fault. The error says that memory ran out.
#[tactic(auto, using(crate::proofs::Sound::spells_none))]
pub fn examine(alloc: Global, bytes: &[u8]) -> Result<Option<Diagnostic>, Memory>
    ensures silent { IfOk result (λ found. found ≡ None → IsSound bytes.now) }
    ensures told { IfOk result (λ found. found ≢ None → IsSound bytes.now → ⊥) }
{
    match read_bundle(alloc, bytes) {
        Ok(bundle) => of_bundle(alloc, bytes, &bundle),
        Err(SyntaxFault::Syntax(byte)) => told(of_syntax(alloc, bytes, byte)),
        Err(SyntaxFault::Memory) => Err(Memory),
    }
}

/// What is wrong with the trace section of a sound bundle that the bytes spell.
#[tactic(auto, using(crate::proofs::Sound::spelled_tokens))]
fn of_section(alloc: Global, bytes: &[u8], bundle: &Bundle) -> Result<Option<Diagnostic>, Memory>
    requires formed { IsFormed (plain bundle.now) }
    requires spells { Spells bytes.now (plain bundle.now) }
    requires sound { IsSound bytes.now }
    ensures silent { IfOk result (λ found. found ≡ None → IsReplayed bytes.now) }
    ensures told { IfOk result (λ found. found ≢ None → IsReplayed bytes.now → ⊥) }
    ensures place { IfOk result (λ found. IfSome found (λ diagnostic. IsStrayAt bytes.now
        diagnostic.span.start)) }
{
    one_bundle();
    of_trace(alloc, bytes, bundle)
}

/// What is wrong with a bundle that the bytes spell, or with its trace section.
#[tactic(auto, using(crate::proofs::Sound::sound_of, crate::proofs::Sound::unsound_at))]
fn of_traced(alloc: Global, bytes: &[u8], bundle: &Bundle) -> Result<Option<Diagnostic>, Memory>
    requires formed { IsFormed (plain bundle.now) }
    requires spells { Spells bytes.now (plain bundle.now) }
    ensures silent { IfOk result (λ found. found ≡ None → IsReplayed bytes.now) }
    ensures told { IfOk result (λ found. found ≢ None → IsReplayed bytes.now → ⊥) }
    ensures place { IfOk result (λ found. IfSome found (λ diagnostic. IsStrayAt bytes.now
        diagnostic.span.start)) }
{
    match of_bundle(alloc, bytes, bundle)? {
        None => of_section(alloc, bytes, bundle),
        Some(diagnostic) => Ok(Some(diagnostic)),
    }
}

/// As `examine`, and then what is wrong with the trace section: `None` exactly where nothing is
/// wrong with the bundle and the choreography plays the section. Where only the section is wrong,
/// the place is that of the first entry that isn't played, or of the last line.
#[tactic(auto, using(crate::proofs::Sound::spells_none, crate::proofs::Sound::sound_of))]
pub fn examine_trace(alloc: Global, bytes: &[u8]) -> Result<Option<Diagnostic>, Memory>
    ensures silent { IfOk result (λ found. found ≡ None → IsReplayed bytes.now) }
    ensures told { IfOk result (λ found. found ≢ None → IsReplayed bytes.now → ⊥) }
    ensures place { IfOk result (λ found. IfSome found (λ diagnostic. IsStrayAt bytes.now
        diagnostic.span.start)) }
{
    match read_bundle(alloc, bytes) {
        Ok(bundle) => of_traced(alloc, bytes, &bundle),
        Err(SyntaxFault::Syntax(byte)) => told(of_syntax(alloc, bytes, byte)),
        Err(SyntaxFault::Memory) => Err(Memory),
    }
}

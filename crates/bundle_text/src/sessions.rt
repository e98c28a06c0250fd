//! From the bytes of a text to its sessions, each a bundle in brackets.

ghost use Rattle.std.specs.Prelude.{◌≡◌, ◌≢◌, ◌<◌, ◌≤◌, ◌+◌, ℕ, All, [], drop, length, map, Err, IfOk, IfErr};
ghost use Rattle.dioc_terms.specs.Bundles.{IsFormed};
ghost use Rattle.dioc_terms.specs.Plain.{plain};
ghost use Rattle.limits.specs.Limits.{greatest_place, most_sessions};
ghost use Rattle.bundle_text.specs.Readers.{found_in};
ghost use Rattle.bundle_text.specs.SessionReaders.{TakesBundle, TakesClosed, TakesSession};
ghost use Rattle.bundle_text.specs.Sessions.{EndsAmongSessions, EndsBeforeClose, EndsInBrackets, EndsInSession, IsSession, SessionsEndAtByte, SpellsNoSessions, SpellsSessions};
ghost use Rattle.bundle_text.specs.Many.{Many};
ghost use Rattle.bundle_text.specs.Stops.{place_in};

use crate::bundles::bundle_of;
use crate::parts::Parts;
use crate::reader::version_at;
use crate::sections::section_at;
use crate::stops::{Stop, lost, refusal};
use aioc_tokens::{Lexed, Punctuator, Sort, TokenFault, packed_tokens};
use dioc_syntax::Reader;
use dioc_terms::{Bundle, SyntaxFault};
use limits::{MOST_BYTES, MOST_SESSIONS};
use std::alloc::Global;
use wanted_tokens::Goal;

/// `{`
const OPENING: Sort = Sort::Symbol(Punctuator::LeftBrace);

/// `}`
const CLOSING: Sort = Sort::Symbol(Punctuator::RightBrace);

/// The bundles of the sessions that the bytes spell, from 1 to 1,000 of them, in their order. Each
/// has a version of its own, and brackets open at once are counted inside each.
///
/// ```text
/// sessions = session { session }
/// session  = "session" "{" bundle "}"
/// ```
///
/// The error is `Syntax` exactly where they spell none. Its number is a byte, as `read_bundle` has
/// it, and that of the first session too many where there are more than 1,000. It is `Memory` where
/// memory runs out.
pub fn read_sessions(alloc: Global, bytes: &[u8]) -> Result<Vec<Bundle>, SyntaxFault>
    ensures found { IfOk result (λ sessions.
        SpellsSessions bytes.now (map plain sessions.items)) }
    ensures syntax { IfErr result (λ fault. fault ≢ SyntaxFault.Memory →
        SpellsNoSessions bytes.now) }
    ensures byte { (byte : ℕ) → result ≡ Err (SyntaxFault.Syntax byte) →
        SessionsEndAtByte bytes.now byte }
    ensures formed { IfOk result (λ sessions. All (λ b. IsFormed (plain b)) sessions.items) }
    ensures few { IfOk result (λ sessions. length sessions.items ≤ most_sessions) }
{
    if bytes.len() > MOST_BYTES {
        return Err(SyntaxFault::Syntax(MOST_BYTES));
    }
    let packed = match packed_tokens(alloc, bytes) {
        Ok(packed) => packed,
        Err(TokenFault::BadByte(at)) => return Err(SyntaxFault::Syntax(at)),
        Err(TokenFault::Memory) => return Err(SyntaxFault::Memory),
    };
    match sessions_of(alloc, &Lexed::packed(bytes, &packed)) {
        Ok(sessions) => Ok(sessions),
        Err(Stop::At(at)) => Err(refusal(alloc, bytes, Goal::Sessions, at)),
        Err(Stop::Memory) => Err(SyntaxFault::Memory),
    }
}

/// The sessions that are the whole text.
fn sessions_of(alloc: Global, text: &Lexed<'_>) -> Result<Vec<Bundle>, Stop>
    requires { length text.now ≤ greatest_place }
    ensures stand { IfOk result (λ sessions.
        Many IsSession text.now (map plain sessions.items) []) }
    ensures some { IfOk result (λ sessions. 0 < length sessions.items) }
    ensures few { IfOk result (λ sessions. length sessions.items ≤ most_sessions) }
    ensures stopped { IfErr result (λ stop. stop ≢ Stop.Memory →
        EndsAmongSessions text.now (place_in stop)) }
{
    let mut sessions = Vec::new(alloc);
    let mut next = 0;
    'sessions: loop {
        match session_at(alloc, text, next) {
            Ok((bundle, behind)) => {
                sessions.push(bundle)?;
                next = behind;
            }
            Err(stop) => return lost(sessions, stop),
        }
        if next >= text.len() {
            return Ok(sessions);
        }
        if sessions.len() >= MOST_SESSIONS {
            return lost(sessions, Stop::At(next));
        }
    }
}

/// The bundle of the session at a place of the text, and the place behind the session.
pub fn session_at(alloc: Global, text: &Lexed<'_>, at: usize) -> Result<(Bundle, usize), Stop>
    requires few { length text.now ≤ greatest_place }
    requires within { at ≤ length text.now }
    ensures found { IfOk result (λ read. TakesSession text.now at (plain read.0) read.1) }
    ensures stopped { IfErr result (λ stop. stop ≢ Stop.Memory →
        EndsInSession text.now at (place_in stop)) }
{
    if !text.named(at, b"session") || !text.has(at + 1, OPENING) {
        return Err(Stop::At(at));
    }
    let (version, skipped) = version_at(text, at + 2);
    let reader = Reader {
        alloc,
        text,
        version,
    };
    bundle_up_to_close(&reader, at + 2 + skipped)
}

/// The bundle of that version whose sections stand from a place of the text up to a `}`, and the
/// place behind that.
fn bundle_up_to_close(reader: &Reader<'_>, at: usize) -> Result<(Bundle, usize), Stop>
    requires few { length reader.now.text.now ≤ greatest_place }
    requires within { at ≤ length reader.now.text.now }
    ensures found { IfOk result (λ read.
        TakesBundle reader.now.version reader.now.text.now at (plain read.0) read.1) }
    ensures stopped { IfErr result (λ stop. stop ≢ Stop.Memory →
        EndsInBrackets reader.now.version reader.now.text.now at (place_in stop)) }
{
    let (parts, closes) = sections_up_to_close(reader, at)?;
    match bundle_of(reader.alloc, reader.version, parts, closes) {
        Ok(bundle) => Ok((bundle, closes + 1)),
        Err(stop) => Err(stop),
    }
}

/// The sections from a place of the text up to a `}`, joined, and the place of that.
fn sections_up_to_close(reader: &Reader<'_>, at: usize) -> Result<(Parts, usize), Stop>
    requires few { length reader.now.text.now ≤ greatest_place }
    requires within { at ≤ length reader.now.text.now }
    ensures found { IfOk result (λ read.
        TakesClosed reader.now.version reader.now.text.now at (found_in read.0) read.1) }
    ensures stopped { IfErr result (λ stop. stop ≢ Stop.Memory →
        EndsBeforeClose reader.now.version reader.now.text.now at (place_in stop)) }
{
    let mut parts = Parts::new(reader.alloc);
    let mut next = at;
    'sections: while !reader.text.has(next, CLOSING) {
        if next >= reader.text.len() {
            return lost(parts, Stop::At(next));
        }
        match section_at(reader, next, &mut parts) {
            Ok(behind) => next = behind,
            Err(stop) => return lost(parts, stop),
        }
    }
    Ok((parts, next))
}

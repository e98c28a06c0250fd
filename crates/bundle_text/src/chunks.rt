//! Sessions that are read by several threads, each of which reads a chunk of neighbours.

ghost use Rattle.std.specs.Prelude.{◌≡◌, ◌≢◌, ◌<◌, ◌≤◌, ℕ, All, [], length, map, Err, IfOk, IfErr};
ghost use Rattle.std.specs.List.{AllByRecursion};
ghost use Rattle.dioc_terms.specs.Bundles.{IsFormed};
ghost use Rattle.dioc_terms.specs.Plain.{plain};
ghost use Rattle.limits.specs.Limits.{greatest_place, most_sessions};
ghost use Rattle.bundle_text.specs.Many.{Many};
ghost use Rattle.bundle_text.specs.SessionReaders.{IsChunkIn};
ghost use Rattle.bundle_text.specs.Sessions.{IsSession, SessionsEndAtByte, SpellsNoSessions, SpellsSessions};

use crate::sessions::{read_sessions, session_at};
use crate::stops::{Stop, lost};
use aioc_tokens::{Lexed, Punctuator, Sort, TokenFault, packed_tokens};
use dioc_terms::{Bundle, SyntaxFault};
use limits::{MOST_BYTES, MOST_SESSIONS};
use std::alloc::Global;
use std::thread::{self, Threads};

/// `}`
const CLOSING: Sort = Sort::Symbol(Punctuator::RightBrace);

/// `session {`, if the name is that.
const SESSION: [Sort; 2] = [Sort::Name, Sort::Symbol(Punctuator::LeftBrace)];

/// Sessions that stand one behind another, and the places of the text between which they do.
#[derive(Drop)]
pub struct Chunk {
    pub from: usize,
    pub to: usize,
    pub sessions: Vec<Bundle>,
}

/// What `read_sessions` answers, read by at most so many threads.
///
/// The tokens are cut into as many parts, and each thread reads the sessions that begin in its own.
/// Where the first of them begins it guesses, so a text whose parts don't join, or that spells no
/// sessions, is read again by this thread alone, from its front.
pub fn read_sessions_by<R: Threads + Sync>(
    rt: &R,
    alloc: Global,
    bytes: &[u8],
    workers: usize,
) -> Result<Vec<Bundle>, SyntaxFault>
    ensures found { IfOk result (λ sessions.
        SpellsSessions bytes.now (map plain sessions.items)) }
    ensures syntax { IfErr result (λ fault. fault ≢ SyntaxFault.Memory →
        SpellsNoSessions bytes.now) }
    ensures byte { (byte : ℕ) → result ≡ Err (SyntaxFault.Syntax byte) →
        SessionsEndAtByte bytes.now byte }
    ensures formed { IfOk result (λ sessions. All (λ b. IsFormed (plain b)) sessions.items) }
    ensures few { IfOk result (λ sessions. length sessions.items ≤ most_sessions) }
{
    if workers > 1 {
        match read_in_chunks(rt, alloc, bytes, workers) {
            Ok(sessions) => return Ok(sessions),
            Err(Stop::At(_)) => {}
            Err(Stop::Memory) => return Err(SyntaxFault::Memory),
        }
    }
    read_sessions(alloc, bytes)
}

/// The sessions that the bytes spell, of which each thread reads a chunk. `At` says nothing of the
/// bytes.
fn read_in_chunks<R: Threads + Sync>(
    rt: &R,
    alloc: Global,
    bytes: &[u8],
    workers: usize,
) -> Result<Vec<Bundle>, Stop>
    requires { 0 < workers }
    ensures found { IfOk result (λ sessions.
        SpellsSessions bytes.now (map plain sessions.items)) }
    ensures formed { IfOk result (λ sessions. All (λ b. IsFormed (plain b)) sessions.items) }
    ensures few { IfOk result (λ sessions. length sessions.items ≤ most_sessions) }
{
    if bytes.len() > MOST_BYTES {
        return Err(Stop::At(0));
    }
    let packed = match packed_tokens(alloc, bytes) {
        Ok(packed) => packed,
        Err(TokenFault::BadByte(_)) => return Err(Stop::At(0)),
        Err(TokenFault::Memory) => return Err(Stop::Memory),
    };
    sessions_in_chunks(rt, alloc, &Lexed::packed(bytes, &packed), workers)
}

/// The sessions that are the whole text. `At` says nothing of the text.
fn sessions_in_chunks<R: Threads + Sync>(
    rt: &R,
    alloc: Global,
    text: &Lexed<'_>,
    workers: usize,
) -> Result<Vec<Bundle>, Stop>
    requires some { 0 < workers }
    requires few { length text.now ≤ greatest_place }
    ensures stand { IfOk result (λ sessions.
        Many IsSession text.now (map plain sessions.items) []) }
    ensures some { IfOk result (λ sessions. 0 < length sessions.items) }
    ensures few { IfOk result (λ sessions. length sessions.items ≤ most_sessions) }
{
    let size = text.len().div_ceil(workers);
    let chunks = thread::map_indices(
        rt,
        alloc,
        workers,
        &|number| read_chunk(alloc, text, number.saturating_mul(size), size),
    )?;
    join_chunks(alloc, text, chunks)
}

/// The sessions that begin at one of so many places from the first on.
fn read_chunk(alloc: Global, text: &Lexed<'_>, first: usize, size: usize) -> Result<Chunk, Stop>
    requires { length text.now ≤ greatest_place }
    ensures { IfOk result (IsChunkIn text.now) }
{
    let end = first.saturating_add(size).min(text.len());
    let from = guessed_start(text, first, end);
    let mut sessions = Vec::new(alloc);
    let mut to = from;
    'sessions: while to < end {
        if sessions.len() >= MOST_SESSIONS {
            return lost(sessions, Stop::At(to));
        }
        match session_at(alloc, text, to) {
            Ok((bundle, behind)) => {
                sessions.push(bundle)?;
                to = behind;
            }
            Err(stop) => return lost(sessions, stop),
        }
    }
    Ok(Chunk { from, to, sessions })
}

/// The first place before the end at which a session seems to begin, or the end. In sessions one
/// begins at the front or behind a `}`, and inside one no `session {` stands behind a `}`.
fn guessed_start(text: &Lexed<'_>, first: usize, end: usize) -> usize {
    for at in first..end {
        if text.begins(at, &SESSION)
            && (at == 0 || text.has(at - 1, CLOSING))
            && text.named(at, b"session")
        {
            return at;
        }
    }
    end
}

/// The sessions of chunks that join, where those are the whole text.
fn join_chunks(
    alloc: Global,
    text: &Lexed<'_>,
    chunks: Vec<Result<Chunk, Stop>>,
) -> Result<Vec<Bundle>, Stop>
    requires { AllByRecursion (λ chunk. IfOk chunk (IsChunkIn text.now)) chunks.items }
    ensures stand { IfOk result (λ sessions.
        Many IsSession text.now (map plain sessions.items) []) }
    ensures some { IfOk result (λ sessions. 0 < length sessions.items) }
    ensures few { IfOk result (λ sessions. length sessions.items ≤ most_sessions) }
{
    let mut sessions = Vec::new(alloc);
    let mut next = 0;
    for chunk in chunks {
        let mut chunk = chunk?;
        if chunk.from != next {
            continue;
        }
        sessions.append(&mut chunk.sessions)?;
        next = chunk.to;
    }
    if next < text.len() || sessions.is_empty() || sessions.len() > MOST_SESSIONS {
        return Err(Stop::At(next));
    }
    Ok(sessions)
}

//! What is wrong with the trace section of a bundle: the first entry that the choreography doesn't
//! play.

ghost use Rattle.std.specs.Prelude.{◌≡◌, ◌≢◌, ◌<◌, ◌≤◌, ◌-◌, length, None, Some, true, IfOk, IfSome};
ghost use Rattle.std.specs.List.{All};
ghost use Rattle.aioc_tokens.specs.Lexing.{Lexes};
ghost use Rattle.dioc_terms.specs.Bundles.{IsFormed};
ghost use Rattle.dioc_terms.specs.Messages.{visible};
ghost use Rattle.dioc_terms.specs.Plain.{plain};
ghost use Rattle.global_follower.specs.KeptPlays.{setting_of, state_of};
ghost use Rattle.global_steps.specs.Follow.{play_from, stray_from};
ghost use Rattle.text_places.specs.Laws.{HasTokens};
ghost use Rattle.diagnostics.specs.Traces.{IsPlayed, IsJudged, IsBehind, MayCome, IsShownAt, IsToldAt, is_cut_short};

use crate::diagnostic::{Code, Diagnostic, Span};
use crate::lines::find_line;
use crate::places::span_at;
use crate::standing::Standing;
use crate::wording::{Piece, line_of};
use aioc_tokens::{Lexed, Token, sorts};
use dioc_terms::{Bundle, Entry, Last, Memory, give_up};
use global_follower::Follower;
use std::alloc::Global;
use text_pieces::write_bytes;
use text_places::tokens_of;
use trace_text::write_line;

/// So many entries are told at most that may come at a place.
const MOST_ENTRIES: usize = 8;

/// How a trace section is judged.
#[derive(Clone, Copy)]
enum Judgement {
    /// The choreography plays it.
    Played,
    /// The entry of this number, counted from 1, is the first that it doesn't play.
    Stray(u64),
    /// It plays all of them, and hasn't ended where the section says so.
    Short,
}

/// Whether the section says that the run has ended, and it has not.
fn is_cut_short(last: &Option<Last>, is_over: bool) -> bool
    ensures { result ≡ is_cut_short last.now is_over }
{
    match last {
        Some(Last::Ended(_)) => !is_over,
        _ => false,
    }
}

/// The judgement of the trace section.
fn judged(alloc: Global, bundle: &Bundle) -> Result<Judgement, Memory>
    requires { IsFormed (plain bundle.now) }
    ensures { IfOk result (IsJudged (plain bundle.now)) }
{
    let mut follower = Follower::new(alloc, bundle)?;
    let stray = follower.first_stray(alloc, bundle.trace.entries.as_slice())?;
    let is_over = follower.is_ended();
    match stray {
        Some(number) => Ok(Judgement::Stray(number)),
        None if is_cut_short(&bundle.trace.last, is_over) => Ok(Judgement::Short),
        None => Ok(Judgement::Played),
    }
}

/// A follower behind entries that the choreography plays, `None` where it doesn't play them.
fn follower_behind<'a>(
    alloc: Global,
    bundle: &'a Bundle,
    before: &[Entry],
) -> Result<Option<Follower<'a>>, Memory>
    requires { IsFormed (plain bundle.now) }
    ensures { IfOk result (λ found. IfSome found (λ follower. IsBehind (plain bundle.now) before.now
        (setting_of follower) (state_of follower))) }
{
    let mut follower = Follower::new(alloc, bundle)?;
    match follower.first_stray(alloc, before)? {
        Some(_) => Ok(None),
        None => Ok(Some(follower)),
    }
}

/// Whether the choreography plays an entry where the follower stands, behind the entries before it;
/// and a follower that stands there again.
fn tried<'a>(
    alloc: Global,
    bundle: &'a Bundle,
    before: &[Entry],
    mut follower: Follower<'a>,
    entry: &Entry,
) -> Result<(bool, Option<Follower<'a>>), Memory>
    requires formed { IsFormed (plain bundle.now) }
    requires stands { IsBehind (plain bundle.now) before.now (setting_of follower)
        (state_of follower) }
    ensures comes { IfOk result (λ tried. tried.0 ≡ true
        → MayCome (plain bundle.now) before.now entry.now) }
    ensures stands { IfOk result (λ tried. IfSome tried.1 (λ follower. IsBehind (plain bundle.now)
        before.now (setting_of follower) (state_of follower))) }
{
    if follower.plays(alloc, entry)? {
        Ok((true, follower_behind(alloc, bundle, before)?))
    } else {
        Ok((false, Some(follower)))
    }
}

/// Those of some entries that the choreography plays behind the ones before them, each once, and at
/// most one more than are told.
fn playable(
    alloc: Global,
    bundle: &Bundle,
    before: &[Entry],
    candidates: Vec<Entry>,
) -> Result<Vec<Entry>, Memory>
    requires { IsFormed (plain bundle.now) }
    ensures { IfOk result (λ found. All (MayCome (plain bundle.now) before.now) found.items) }
{
    let mut found = Vec::new(alloc);
    let mut standing = follower_behind(alloc, bundle, before)?;
    for candidate in candidates {
        let follower = match standing {
            Some(follower) if found.len() <= MOST_ENTRIES => follower,
            _ => return Ok(found),
        };
        let (comes, again) = tried(alloc, bundle, before, follower, &candidate)?;
        standing = again;
        if comes && !found.contains(&candidate) {
            found.push(candidate)?;
        }
    }
    Ok(found)
}

/// Which entries the choreography plays behind these.
fn help_behind(alloc: Global, bundle: &Bundle, before: &[Entry]) -> Result<Vec<u8>, Memory>
    requires { IsFormed (plain bundle.now) }
{
    let candidates = Standing::behind(alloc, bundle, before)?.candidates(alloc)?;
    let entries = playable(alloc, bundle, before, candidates)?;
    if entries.is_empty() {
        return line_of(alloc, &[Piece::Bytes(b"it plays nothing more here")]);
    }
    let mut help = line_of(alloc, &[Piece::Bytes(b"it plays here: ")])?;
    for (number, entry) in entries.iter().enumerate() {
        if number > 0 {
            write_bytes(b", ", &mut help)?;
        }
        if number == MOST_ENTRIES {
            write_bytes(b"..", &mut help)?;
        } else {
            write_line(entry, &mut help)?;
        }
    }
    Ok(help)
}

/// The bytes of the line behind so many entries of a text's trace section, of which so many are
/// left, or the front of the text where its place isn't known.
#[tactic(auto, using(crate::proofs::Played::shown_known, crate::proofs::Played::shown_unknown))]
fn span_among(
    alloc: Global,
    bytes: &[u8],
    tokens: &[Token],
    lines: usize,
    left: usize,
) -> Result<Span, Memory>
    requires { Lexes 0 bytes.now tokens.now }
    ensures { IfOk result (λ span. IsShownAt bytes.now left span.start) }
{
    let known = sorts(alloc, bytes, tokens)?;
    let text = Lexed::with_sorts(bytes, tokens, &known);
    match find_line(alloc, &text, lines, left)? {
        Some(line) => Ok(Span {
            start: span_at(bytes, tokens, line.0).start,
            end: span_at(bytes, tokens, line.1.saturating_sub(1)).end,
        }),
        None => Ok(Span::at(0)),
    }
}

/// The bytes of the line behind so many entries of the section, or the front of the text where its
/// place isn't known.
fn span_behind(alloc: Global, bytes: &[u8], bundle: &Bundle, lines: usize) -> Result<Span, Memory>
    requires { HasTokens bytes.now }
    ensures { IfOk result (λ span. IsShownAt bytes.now
        (length (plain bundle.now).trace.entries - lines) span.start) }
{
    let found = tokens_of(alloc, bytes)?;
    let left = bundle.trace.entries.len().saturating_sub(lines);
    span_among(alloc, bytes, &found, lines, left)
}

/// What is told of the line behind so many entries of the section.
fn told_behind(
    alloc: Global,
    bytes: &[u8],
    bundle: &Bundle,
    lines: usize,
    code: Code,
    message: &[u8],
) -> Result<Option<Diagnostic>, Memory>
    requires formed { IsFormed (plain bundle.now) }
    requires tokens { HasTokens bytes.now }
    ensures some { IfOk result (λ found. found ≢ None) }
    ensures place { IfOk result (λ found. IfSome found (λ diagnostic. IsShownAt bytes.now
        (length (plain bundle.now).trace.entries - lines) diagnostic.span.start)) }
{
    let entries = bundle.trace.entries.as_slice();
    let span = span_behind(alloc, bytes, bundle, lines)?;
    let message = line_of(alloc, &[Piece::Bytes(message)])?;
    match help_behind(alloc, bundle, &entries[..lines.min(entries.len())]) {
        Ok(help) => Ok(Some(Diagnostic {
            code,
            span,
            message,
            help,
        })),
        Err(fault) => give_up(message, fault),
    }
}

/// What is wrong with the trace section of a bundle: `None` exactly where the choreography plays
/// all its visible entries, and has ended where the section says so. Else the place is that of the
/// first entry that isn't played, or of the last line.
#[tactic(auto, using(crate::proofs::Played::judging_rules))]
pub(crate) fn of_trace(
    alloc: Global,
    bytes: &[u8],
    bundle: &Bundle,
) -> Result<Option<Diagnostic>, Memory>
    requires formed { IsFormed (plain bundle.now) }
    requires tokens { HasTokens bytes.now }
    ensures silent { IfOk result (λ found. found ≡ None → IsPlayed (plain bundle.now)) }
    ensures told { IfOk result (λ found. found ≢ None → IsPlayed (plain bundle.now) → ⊥) }
    ensures place { IfOk result (λ found. IfSome found (λ diagnostic. IsToldAt bytes.now
        (plain bundle.now) diagnostic.span.start)) }
{
    match judged(alloc, bundle)? {
        Judgement::Played => Ok(None),
        Judgement::Stray(number) => told_behind(
            alloc,
            bytes,
            bundle,
            (number as usize).saturating_sub(1),
            Code::Stray,
            b"the choreography doesn't play this entry here",
        ),
        Judgement::Short => told_behind(
            alloc,
            bytes,
            bundle,
            bundle.trace.entries.len(),
            Code::Unfinished,
            b"the choreography hasn't ended here",
        ),
    }
}

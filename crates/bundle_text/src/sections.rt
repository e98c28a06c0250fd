//! The sections of a bundle.

ghost use Rattle.std.specs.Prelude.{◌≡◌, ◌≢◌, ℕ, ◌+◌, ◌<◌, ◌≤◌, ◌∷◌, length, drop, codes, IfOk, IfErr};
ghost use Rattle.aioc_tokens.specs.declared.words.Punctuator.{Punctuator};
ghost use Rattle.aioc_tokens.specs.declared.words.Sort.{Sort};
ghost use Rattle.aioc_tokens.specs.Lexemes.{Lexeme, sort_of};
ghost use Rattle.limits.specs.Limits.{greatest_place};
ghost use Rattle.bundle_text.specs.Readers.{found_in, TakesSection, TakesSections, ChoreographyTaken, TraceTaken, NoTrace};
ghost use Rattle.bundle_text.specs.Stops.{place_in, EndsInChoreography, EndsInSection, EndsAmongSections};

use crate::items::{INSIDE_LIMIT, environment_at, inputs_at, rules_at, script_at};
use crate::parts::Parts;
use crate::stops::{Stop, fill, lost};
use aioc_tokens::{Lexed, Punctuator, Sort, Word};
use dioc_syntax::{Place, Reader, choreo_at};
use dioc_terms::{Choreo, Trace};
use std::alloc::Global;
use trace_syntax::{TraceFault, trace_at};

/// `aioc {`
const CHOREOGRAPHY: [Sort; 2] = [
    Sort::Reserved(Word::Aioc),
    Sort::Symbol(Punctuator::LeftBrace),
];

/// The choreography at a place of the text up to a `}`, and the place behind that.
fn choreography_at(reader: &Reader<'_>, at: usize) -> Result<(Choreo, usize), Stop>
    requires { length reader.now.text.now ≤ greatest_place }
    ensures found { IfOk result (λ read.
        ChoreographyTaken reader.now.version reader.now.text.now at read.0 read.1) }
    ensures stopped { IfErr result (λ stop. stop ≢ Stop.Memory →
        EndsInChoreography reader.now.version reader.now.text.now at (place_in stop)) }
{
    let found = match choreo_at(reader, Place::front(at, INSIDE_LIMIT))? {
        Some(found) => found,
        None => return Err(Stop::At(at)),
    };
    if !reader
        .text
        .has(found.at, Sort::Symbol(Punctuator::RightBrace))
    {
        let stop = Stop::At(found.at);
        return lost(found, stop);
    }
    Ok((Box::into_inner(found.choreo), found.at + 1))
}

/// The section at a place of the text, joined to those before it. The answer is the place behind
/// it.
///
/// ```text
/// section = "aioc" "{" choreo "}"
///         | "rules" "{" { rule } "}"
///         | "env" "{" { bind ";" } "}"
///         | "inputs" "{" { name ":" value { "," value } ";" } "}"
///         | "script" "{" { "after" number change } "}"
///         | "trace" "{" { line } [ last ] "}"
/// ```
pub fn section_at(reader: &Reader<'_>, at: usize, parts: &mut Parts) -> Result<usize, Stop>
    requires few { length reader.now.text.now ≤ greatest_place }
    requires within { at < length reader.now.text.now }
    ensures found { IfOk result (λ next. TakesSection reader.now.version reader.now.text.now at
        (found_in parts.old) (found_in parts.new) next) }
    ensures stopped { IfErr result (λ stop. stop ≢ Stop.Memory →
        EndsInSection reader.now.version reader.now.text.now at (found_in parts.old)
        (place_in stop)) }
{
    let (alloc, text) = (reader.alloc, reader.text);
    if text.begins(at, &CHOREOGRAPHY) {
        if parts.choreo.is_some() {
            return Err(Stop::At(at));
        }
        return match choreography_at(reader, at + 2) {
            Ok((choreo, next)) => {
                fill(&mut parts.choreo, choreo);
                Ok(next)
            }
            Err(stop) => Err(stop),
        };
    }
    if !text.has(at + 1, Sort::Symbol(Punctuator::LeftBrace)) {
        return Err(Stop::At(at));
    }
    if text.named(at, b"rules") {
        rules_at(alloc, text, reader.version, at + 2, &mut parts.rules)
    } else if text.named(at, b"env") {
        environment_at(alloc, text, at + 2, &mut parts.env)
    } else if text.named(at, b"inputs") {
        inputs_at(alloc, text, at + 2, &mut parts.inputs)
    } else if text.named(at, b"script") {
        script_at(alloc, text, reader.version, at + 2, &mut parts.script)
    } else if text.named(at, b"trace") {
        trace_section_at(alloc, text, at, parts)
    } else {
        Err(Stop::At(at))
    }
}

/// The lines of a trace at a place of the text up to a `}`, and the place behind that.
fn lines_at(alloc: Global, text: &Lexed<'_>, at: usize) -> Result<(Trace, usize), Stop>
    requires { length text.now ≤ greatest_place }
    ensures found { IfOk result (λ read. TraceTaken text.now at read.0 read.1) }
    ensures stopped { IfErr result (λ stop. stop ≢ Stop.Memory →
        (place_in stop ≡ at) × NoTrace (drop at text.now)) }
{
    match trace_at(alloc, text, at) {
        Ok((trace, closes)) => Ok((trace, closes + 1)),
        Err(TraceFault::BadLine(_)) => Err(Stop::At(at)),
        Err(TraceFault::Memory) => Err(Stop::Memory),
    }
}

/// The trace section at a place of the text, joined to the sections before it. The answer is the
/// place behind it. A bundle has one such section alone, also where it has no line.
fn trace_section_at(
    alloc: Global,
    text: &Lexed<'_>,
    at: usize,
    parts: &mut Parts,
) -> Result<usize, Stop>
    requires few { length text.now ≤ greatest_place }
    requires named { drop at text.now ≡ Lexeme.Name (codes "trace") ∷ drop (at + 1) text.now }
    requires opens { sort_of (drop (at + 1) text.now) ≡ Sort.Symbol Punctuator.LeftBrace }
    ensures found { IfOk result (λ next. (version : ℕ) →
        TakesSection version text.now at (found_in parts.old) (found_in parts.new) next) }
    ensures stopped { IfErr result (λ stop. stop ≢ Stop.Memory → (version : ℕ) →
        EndsInSection version text.now at (found_in parts.old) (place_in stop)) }
{
    if parts.trace.is_some() {
        return Err(Stop::At(at));
    }
    match lines_at(alloc, text, at + 2) {
        Ok((trace, next)) => {
            fill(&mut parts.trace, trace);
            Ok(next)
        }
        Err(stop) => Err(stop),
    }
}

/// The sections from a place of the text up to its end, joined.
pub fn sections_at(reader: &Reader<'_>, at: usize) -> Result<Parts, Stop>
    requires { length reader.now.text.now ≤ greatest_place }
    ensures found { IfOk result (λ parts.
        TakesSections reader.now.version (drop at reader.now.text.now) (found_in parts)) }
    ensures stopped { IfErr result (λ stop. stop ≢ Stop.Memory →
        EndsAmongSections reader.now.version reader.now.text.now at (place_in stop)) }
{
    let mut parts = Parts::new(reader.alloc);
    let mut next = at;
    while next < reader.text.len() {
        match section_at(reader, next, &mut parts) {
            Ok(behind) => next = behind,
            Err(stop) => return lost(parts, stop),
        }
    }
    Ok(parts)
}

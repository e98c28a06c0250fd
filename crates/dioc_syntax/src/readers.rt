//! The readers of choreographies.

ghost use Rattle.std.specs.Prelude.{◌≡◌, ◌+◌, ◌-◌, ◌<◌, ◌≤◌, ◌^◌, drop, length, IfOk};
ghost use Rattle.aioc_tokens.specs.declared.words.Sort.{Sort};
ghost use Rattle.aioc_tokens.specs.declared.words.Word.{Word};
ghost use Rattle.aioc_tokens.specs.declared.words.Punctuator.{Punctuator};
ghost use Rattle.aioc_tokens.specs.Lexemes.{sort_of};
ghost use Rattle.limits.specs.Limits.{greatest_place};
ghost use Rattle.dioc_terms.specs.Terms.{term, Skip};
ghost use Rattle.dioc_syntax.specs.Choreographies.{Choreography, Sequence, Step, Block};
ghost use Rattle.dioc_syntax.specs.Readers.{one_behind, FormStandsAt, OtherwiseAt, ScopePartsAt};

use crate::extras::{properties_at, roles_at};
use crate::found::{
    FoundChoreo, ScopeParts, choice_of, loop_of, nothing_found, parallel_of, scope_of, sequence_of,
};
use crate::guards::guard_at;
use crate::heads::leader_at;
use crate::places::{Place, Reader};
use crate::steps::named_step_at;
use aioc_tokens::{Punctuator, Sort, Word};
use dioc_terms::{Choreo, Memory, Role, give_up, new_box};
use std::alloc::Global;

/// The longest choreography at a place of the text that goes no further than it may, or `None`
/// where none stands there. It is marked as its text is. The error says that memory ran out.
///
/// ```text
/// choreo = seq { "|" seq }
/// ```
#[cycle(reading)]
pub fn choreo_at(reader: &Reader<'_>, place: Place) -> Result<Option<FoundChoreo>, Memory>
    requires { place.earlier + (length reader.now.text.now - place.at) ≤ greatest_place }
    ensures { IfOk result (λ found. FormStandsAt reader.now Choreography place found) }
{
    let first = match sequence_at(reader, place)? {
        Some(first) => first,
        None => return Ok(None),
    };
    if !reader.text.has(first.at, Sort::Symbol(Punctuator::Bar)) || first.depth == place.deep {
        return Ok(Some(first));
    }
    match choreo_at(reader, place.part(first.at + 1, first.next)) {
        Ok(Some(second)) => {
            let both = parallel_of(reader.alloc, first, second)?;
            Ok(Some(both))
        }
        Ok(None) => Ok(Some(first)),
        Err(fault) => give_up(first, fault),
    }
}

/// ```text
/// seq = step { ";" step } [ ";" ]
/// ```
#[cycle(reading)]
fn sequence_at(reader: &Reader<'_>, place: Place) -> Result<Option<FoundChoreo>, Memory>
    requires { place.earlier + (length reader.now.text.now - place.at) ≤ greatest_place }
    ensures { IfOk result (λ found. FormStandsAt reader.now Sequence place found) }
{
    let text = reader.text;
    let first = match step_at(reader, place)? {
        Some(first) => first,
        None => return Ok(None),
    };
    if !text.has(first.at, Sort::Symbol(Punctuator::Semicolon)) {
        return Ok(Some(first));
    }
    if first.depth == place.deep {
        return Ok(Some(one_behind(first)));
    }
    match sequence_at(reader, place.part(first.at + 1, first.next)) {
        Ok(Some(second)) => {
            let both = sequence_of(reader.alloc, first, second)?;
            Ok(Some(both))
        }
        Ok(None) => Ok(Some(one_behind(first))),
        Err(fault) => give_up(first, fault),
    }
}

/// What was read, with one token more: the `;` or the bracket behind it.
fn one_behind(found: FoundChoreo) -> FoundChoreo
    requires { found.at < 2 ^ 63 }
    ensures { result ≡ one_behind found }
{
    FoundChoreo {
        choreo: found.choreo,
        depth: found.depth,
        at: found.at + 1,
        next: found.next,
    }
}

/// One step: what stands between two `;`.
#[cycle(reading)]
fn step_at(reader: &Reader<'_>, place: Place) -> Result<Option<FoundChoreo>, Memory>
    requires { place.earlier + (length reader.now.text.now - place.at) ≤ greatest_place }
    ensures { IfOk result (λ found. FormStandsAt reader.now Step place found) }
{
    if place.deep == 0 {
        return Ok(None);
    }
    match reader.text.sort(place.at) {
        Sort::Name => named_step_at(reader, place),
        Sort::Symbol(Punctuator::LeftParen) => group_at(reader, place),
        Sort::Reserved(Word::Skip) => {
            let skip = nothing(reader.alloc, place.at + 1, place.earlier)?;
            Ok(Some(skip))
        }
        Sort::Reserved(Word::If) => branch_at(reader, place),
        Sort::Reserved(Word::While) => loop_at(reader, place),
        Sort::Reserved(Word::Scope) => scope_at(reader, place),
        _ => Ok(None),
    }
}

/// A `skip` that ends before this place.
fn nothing(alloc: Global, at: usize, earlier: u32) -> Result<FoundChoreo, Memory>
    ensures choreo { IfOk result (λ found. term found.choreo.value ≡ Skip) }
    ensures depth { IfOk result (λ found. found.depth ≡ 1) }
    ensures at { IfOk result (λ found. found.at ≡ at) }
    ensures next { IfOk result (λ found. found.next ≡ earlier) }
{
    let choreo = new_box(alloc, Choreo::Skip)?;
    Ok(FoundChoreo {
        choreo,
        depth: 1,
        at,
        next: earlier,
    })
}

/// ```text
/// "(" choreo ")"
/// ```
#[cycle(reading)]
fn group_at(reader: &Reader<'_>, place: Place) -> Result<Option<FoundChoreo>, Memory>
    requires sort { sort_of (drop place.at reader.now.text.now) ≡ Sort.Symbol Punctuator.LeftParen }
    requires within { place.at < length reader.now.text.now }
    requires small { length reader.now.text.now < 2 ^ 63 }
    requires few { place.earlier + (length reader.now.text.now - place.at) ≤ greatest_place }
    ensures { IfOk result (λ found. FormStandsAt reader.now Step place found) }
{
    let text = reader.text;
    if place.room == 0 {
        return Ok(None);
    }
    let inner = match choreo_at(reader, place.inside())? {
        Some(inner) => inner,
        None => return Ok(None),
    };
    if text.has(inner.at, Sort::Symbol(Punctuator::RightParen)) {
        Ok(Some(one_behind(inner)))
    } else {
        Ok(nothing_found(inner))
    }
}

/// ```text
/// "{" choreo "}"
/// ```
#[cycle(reading)]
fn block_at(reader: &Reader<'_>, place: Place) -> Result<Option<FoundChoreo>, Memory>
    requires { place.earlier + (length reader.now.text.now - place.at) ≤ greatest_place }
    ensures { IfOk result (λ found. FormStandsAt reader.now Block place found) }
{
    let text = reader.text;
    if !text.has(place.at, Sort::Symbol(Punctuator::LeftBrace)) || place.room == 0 {
        return Ok(None);
    }
    let inner = match choreo_at(reader, place.inside())? {
        Some(inner) => inner,
        None => return Ok(None),
    };
    if text.has(inner.at, Sort::Symbol(Punctuator::RightBrace)) {
        Ok(Some(one_behind(inner)))
    } else {
        Ok(nothing_found(inner))
    }
}

/// The second branch of a choice; a missing one is a `skip`:
///
/// ```text
/// [ "else" "{" choreo "}" ]
/// ```
#[cycle(reading)]
fn otherwise_at(reader: &Reader<'_>, place: Place) -> Result<FoundChoreo, Memory>
    requires few { place.earlier + (length reader.now.text.now - place.at) ≤ greatest_place }
    requires some { 0 < place.deep }
    requires within { place.at ≤ length reader.now.text.now }
    ensures { IfOk result (λ found. OtherwiseAt reader.now place found) }
{
    if reader.text.has(place.at, Sort::Reserved(Word::Else)) {
        if let Some(found) = block_at(reader, place.behind())? {
            return Ok(found);
        }
    }
    let skip = nothing(reader.alloc, place.at, place.earlier)?;
    Ok(skip)
}

/// ```text
/// "if" expr "@" name "{" choreo "}" [ "else" "{" choreo "}" ]
/// ```
#[cycle(reading)]
fn branch_at(reader: &Reader<'_>, place: Place) -> Result<Option<FoundChoreo>, Memory>
    requires sort { sort_of (drop place.at reader.now.text.now) ≡ Sort.Reserved Word.If }
    requires within { place.at < length reader.now.text.now }
    requires small { length reader.now.text.now < 2 ^ 63 }
    requires some { 0 < place.deep }
    requires few { place.earlier + (length reader.now.text.now - place.at) ≤ greatest_place }
    ensures { IfOk result (λ found. FormStandsAt reader.now Step place found) }
{
    let guard = match guard_at(reader, place.room, place.at + 1)? {
        Some(guard) => guard,
        None => return Ok(None),
    };
    let first = match block_at(reader, place.part(guard.at, place.earlier + 1)) {
        Ok(Some(first)) => first,
        Ok(None) => return Ok(nothing_found(guard)),
        Err(fault) => return give_up(guard, fault),
    };
    let second = match otherwise_at(reader, place.part(first.at, first.next)) {
        Ok(second) => second,
        Err(fault) => return give_up((guard, first), fault),
    };
    let whole = choice_of(reader.alloc, guard, place.earlier, first, second)?;
    Ok(Some(whole))
}

/// ```text
/// "while" expr "@" name "{" choreo "}"
/// ```
#[cycle(reading)]
fn loop_at(reader: &Reader<'_>, place: Place) -> Result<Option<FoundChoreo>, Memory>
    requires sort { sort_of (drop place.at reader.now.text.now) ≡ Sort.Reserved Word.While }
    requires within { place.at < length reader.now.text.now }
    requires small { length reader.now.text.now < 2 ^ 63 }
    requires some { 0 < place.deep }
    requires few { place.earlier + (length reader.now.text.now - place.at) ≤ greatest_place }
    ensures { IfOk result (λ found. FormStandsAt reader.now Step place found) }
{
    let guard = match guard_at(reader, place.room, place.at + 1)? {
        Some(guard) => guard,
        None => return Ok(None),
    };
    match block_at(reader, place.part(guard.at, place.earlier + 1)) {
        Ok(Some(inner)) => {
            let whole = loop_of(reader.alloc, guard, place.earlier, inner)?;
            Ok(Some(whole))
        }
        Ok(None) => Ok(nothing_found(guard)),
        Err(fault) => give_up(guard, fault),
    }
}

/// ```text
/// "scope" "@" name "{" choreo "}"
///     [ "roles" "{" name { "," name } "}" ] [ "prop" "{" [ props ] "}" ]
/// ```
#[cycle(reading)]
fn scope_at(reader: &Reader<'_>, place: Place) -> Result<Option<FoundChoreo>, Memory>
    requires sort { sort_of (drop place.at reader.now.text.now) ≡ Sort.Reserved Word.Scope }
    requires within { place.at < length reader.now.text.now }
    requires small { length reader.now.text.now < 2 ^ 63 }
    requires some { 0 < place.deep }
    requires few { place.earlier + (length reader.now.text.now - place.at) ≤ greatest_place }
    ensures { IfOk result (λ found. FormStandsAt reader.now Step place found) }
{
    let leader = match leader_at(reader.alloc, reader.text, place.at + 1)? {
        Some(leader) => leader,
        None => return Ok(None),
    };
    let inner = match block_at(reader, place.part(place.at + 3, place.earlier + 1)) {
        Ok(Some(inner)) => inner,
        Ok(None) => return Ok(nothing_found(leader)),
        Err(fault) => return give_up(leader, fault),
    };
    let parts = match scope_parts_at(reader, inner.at, leader) {
        Ok(parts) => parts,
        Err(fault) => return give_up(inner, fault),
    };
    let whole = scope_of(reader.alloc, parts, place.earlier, inner)?;
    Ok(Some(whole))
}

/// What a scope has behind its body.
fn scope_parts_at(reader: &Reader<'_>, at: usize, leader: Role) -> Result<ScopeParts, Memory>
    requires within { at ≤ length reader.now.text.now }
    requires small { length reader.now.text.now < 2 ^ 63 }
    ensures parts { IfOk result (λ parts.
        ScopePartsAt reader.now.version reader.now.text.now at parts) }
    ensures leader { IfOk result (λ parts. parts.leader ≡ leader) }
{
    let (extra, behind) = roles_at(reader.alloc, reader.text, reader.version, at)?;
    let (props, next) = properties_at(reader.alloc, reader.text, behind)?;
    Ok(ScopeParts {
        leader,
        extra,
        props,
        at: next,
    })
}

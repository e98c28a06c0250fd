//! Steps with no choreography inside.

ghost use Rattle.std.specs.Prelude.{◌≡◌, ◌≢◌, ◌+◌, ◌-◌, ◌<◌, ◌≤◌, ◌^◌, drop, length, IfOk};
ghost use Rattle.aioc_tokens.specs.declared.words.Sort.{Sort};
ghost use Rattle.aioc_tokens.specs.declared.words.Word.{Word};
ghost use Rattle.aioc_tokens.specs.Lexemes.{sort_of};
ghost use Rattle.limits.specs.Limits.{greatest_place};
ghost use Rattle.dioc_syntax.specs.Choreographies.{Step};
ghost use Rattle.dioc_syntax.specs.Readers.{sent_by, set_by, FormStandsAt};

use crate::found::{FoundChoreo, nothing_found};
use crate::heads::{receiver_at, sender_at, target_at};
use crate::places::{Place, Reader};
use aioc_tokens::{Punctuator, Sort, Word};
use dioc_terms::{Choreo, Index, Memory, Name, Role, give_up, new_box};
use expr_syntax::{ExprKind, expr_at};

/// `( )`
const BRACKETS: [Sort; 2] = [
    Sort::Symbol(Punctuator::LeftParen),
    Sort::Symbol(Punctuator::RightParen),
];

/// The step at a place of the text that begins with a name there: an interaction, an input or an
/// assignment.
pub fn named_step_at(reader: &Reader<'_>, place: Place) -> Result<Option<FoundChoreo>, Memory>
    requires sort { sort_of (drop place.at reader.now.text.now) ≡ Sort.Name }
    requires within { place.at < length reader.now.text.now }
    requires small { length reader.now.text.now < 2 ^ 63 }
    requires some { 0 < place.deep }
    requires few { place.earlier + (length reader.now.text.now - place.at) ≤ greatest_place }
    ensures { IfOk result (λ found. FormStandsAt reader.now Step place found) }
{
    if let Some((operation, sender)) = sender_at(reader.alloc, reader.text, place.at)? {
        return interaction_at(reader, place, operation, sender);
    }
    let (variable, owner) = match target_at(reader.alloc, reader.text, place.at)? {
        Some(names) => names,
        None => return Ok(None),
    };
    if reader.text.has(place.at + 4, Sort::Reserved(Word::Input)) {
        input_at(reader, place, variable, owner)
    } else {
        assignment_at(reader, place, variable, owner)
    }
}

/// ```text
/// name ":" name "(" expr ")" "->" name "(" name ")"
/// ```
fn interaction_at(
    reader: &Reader<'_>,
    place: Place,
    operation: Name,
    sender: Name,
) -> Result<Option<FoundChoreo>, Memory>
    requires head { drop place.at reader.now.text.now
        ≡ sent_by operation sender (drop (place.at + 4) reader.now.text.now) }
    requires within { place.at + 4 ≤ length reader.now.text.now }
    requires small { length reader.now.text.now < 2 ^ 63 }
    requires some { 0 < place.deep }
    requires few { place.earlier + (length reader.now.text.now - place.at) ≤ greatest_place }
    ensures { IfOk result (λ found. FormStandsAt reader.now Step place found) }
{
    if place.room == 0 {
        return Ok(None);
    }
    let (alloc, text) = (reader.alloc, reader.text);
    let (value, next) = match expr_at(alloc, text, ExprKind::Step, place.room - 1, place.at + 4)? {
        Some(sent) => sent,
        None => return Ok(None),
    };
    let (receiver, variable) = match receiver_at(alloc, text, next) {
        Ok(Some(names)) => names,
        Ok(None) => return Ok(nothing_found(value)),
        Err(fault) => return give_up(value, fault),
    };
    let interaction = Choreo::Com {
        index: Index {
            epoch: 0,
            place: place.earlier,
        },
        op: operation,
        from: Role(sender),
        expr: value,
        to: Role(receiver),
        var: variable,
    };
    let choreo = new_box(alloc, interaction)?;
    Ok(Some(FoundChoreo {
        choreo,
        depth: 1,
        at: next + 6,
        next: place.earlier + 1,
    }))
}

/// ```text
/// name "@" name "=" "input" "(" ")"
/// ```
fn input_at(
    reader: &Reader<'_>,
    place: Place,
    variable: Name,
    owner: Name,
) -> Result<Option<FoundChoreo>, Memory>
    requires head { drop place.at reader.now.text.now
        ≡ set_by variable owner (drop (place.at + 4) reader.now.text.now) }
    requires within { place.at + 4 ≤ length reader.now.text.now }
    requires input { sort_of (drop (place.at + 4) reader.now.text.now) ≡ Sort.Reserved Word.Input }
    requires small { length reader.now.text.now < 2 ^ 63 }
    requires some { 0 < place.deep }
    requires few { place.earlier + (length reader.now.text.now - place.at) ≤ greatest_place }
    ensures { IfOk result (λ found. FormStandsAt reader.now Step place found) }
{
    if place.room == 0 || !reader.text.begins(place.at + 5, &BRACKETS) {
        return Ok(None);
    }
    let input = Choreo::Input {
        index: Index {
            epoch: 0,
            place: place.earlier,
        },
        var: variable,
        role: Role(owner),
    };
    let choreo = new_box(reader.alloc, input)?;
    Ok(Some(FoundChoreo {
        choreo,
        depth: 1,
        at: place.at + 7,
        next: place.earlier + 1,
    }))
}

/// ```text
/// name "@" name "=" expr
/// ```
fn assignment_at(
    reader: &Reader<'_>,
    place: Place,
    variable: Name,
    owner: Name,
) -> Result<Option<FoundChoreo>, Memory>
    requires head { drop place.at reader.now.text.now
        ≡ set_by variable owner (drop (place.at + 4) reader.now.text.now) }
    requires within { place.at + 4 ≤ length reader.now.text.now }
    requires other { sort_of (drop (place.at + 4) reader.now.text.now) ≢ Sort.Reserved Word.Input }
    requires small { length reader.now.text.now < 2 ^ 63 }
    requires some { 0 < place.deep }
    requires few { place.earlier + (length reader.now.text.now - place.at) ≤ greatest_place }
    ensures { IfOk result (λ found. FormStandsAt reader.now Step place found) }
{
    let (alloc, text) = (reader.alloc, reader.text);
    let read = match expr_at(alloc, text, ExprKind::Step, place.room, place.at + 4)? {
        Some(read) => read,
        None => return Ok(None),
    };
    let (expr, next) = read;
    let assignment = Choreo::Set {
        index: Index {
            epoch: 0,
            place: place.earlier,
        },
        var: variable,
        role: Role(owner),
        expr,
    };
    let choreo = new_box(alloc, assignment)?;
    Ok(Some(FoundChoreo {
        choreo,
        depth: 1,
        at: next,
        next: place.earlier + 1,
    }))
}

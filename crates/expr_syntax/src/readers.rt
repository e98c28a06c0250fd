//! The readers of the levels.

ghost use Rattle.std.specs.Prelude.{◌≡◌, ◌≢◌, ◌≤◌, ◌<◌, ◌^◌, ◌+◌, ◌-◌, suc, max, drop, length, true, false, None, IfOk, IsTrue, ◌↔◌};
ghost use Rattle.dioc_terms.specs.Expressions.{expression, Bin};
ghost use Rattle.aioc_tokens.specs.declared.words.Sort.{Sort};
ghost use Rattle.aioc_tokens.specs.declared.words.Punctuator.{Punctuator};
ghost use Rattle.aioc_tokens.specs.declared.words.Word.{Word};
ghost use Rattle.aioc_tokens.specs.Lexemes.{sort_of};
ghost use Rattle.expr_syntax.specs.Grammar.{begins_with_number};
ghost use Rattle.expr_syntax.specs.Levels.{is_chain, is_inside, looseness, tighter};
ghost use Rattle.expr_syntax.specs.Readers.{prefixed, LevelAt, IsNoted, Finds, FollowedBy};
ghost use Rattle.expr_syntax.specs.declared.levels.Level.{Level};

use crate::leaves::{is_number, leaf_at};
use crate::levels::{Level, is_inside, joined_level, looseness, operator, tighter};
use crate::places::{Place, Reader};
use aioc_tokens::{Lexed, Punctuator, Sort, Word};
use dioc_terms::{Expr, Memory, Oper, give_up, new_box};
use std::alloc::Global;

/// An expression that was read, its depth and the place behind it.
#[derive(Drop)]
pub struct Found {
    pub expr: Expr,
    pub depth: usize,
    pub at: usize,
    /// The sort of the token at that place. Each level looks at it, so that it is found once.
    pub behind: Sort,
}

/// Two operands with an operator between them.
fn two_sided(alloc: Global, oper: Oper, left: Found, right: Found) -> Result<Found, Memory>
    requires left { left.depth < 2 ^ 64 - 1 }
    requires right { right.depth < 2 ^ 64 - 1 }
    ensures expr { IfOk result (λ found. expression found.expr ≡ Bin oper (expression left.expr)
        (expression right.expr)) }
    ensures depth { IfOk result (λ found. found.depth ≡ suc (max left.depth right.depth)) }
    ensures at { IfOk result (λ found. found.at ≡ right.at) }
    ensures behind { IfOk result (λ found. found.behind ≡ right.behind) }
{
    let depth = left.depth.max(right.depth) + 1;
    let (at, behind) = (right.at, right.behind);
    let left = new_box(alloc, left.expr)?;
    let right = new_box(alloc, right.expr)?;
    Ok(Found {
        expr: Expr::Bin(oper, left, right),
        depth,
        at,
        behind,
    })
}

/// What may stand before an operand.
#[derive(Clone, Copy)]
pub enum Prefix {
    Not,
    Minus,
}

/// An operand with a `not` or a `-` before it.
fn one_sided(alloc: Global, prefix: Prefix, inner: Found) -> Result<Found, Memory>
    requires { inner.depth < 2 ^ 64 - 1 }
    ensures expr { IfOk result (λ found. expression found.expr
        ≡ prefixed prefix (expression inner.expr)) }
    ensures depth { IfOk result (λ found. found.depth ≡ suc inner.depth) }
    ensures at { IfOk result (λ found. found.at ≡ inner.at) }
    ensures behind { IfOk result (λ found. found.behind ≡ inner.behind) }
{
    let inside = new_box(alloc, inner.expr)?;
    let expr = match prefix {
        Prefix::Not => Expr::Not(inside),
        Prefix::Minus => Expr::Neg(inside),
    };
    Ok(Found {
        expr,
        depth: inner.depth + 1,
        at: inner.at,
        behind: inner.behind,
    })
}

/// Whether one operator at most may stand between operands of this level.
fn is_comparison(level: Level) -> bool
    ensures { IsTrue result ↔ (level ≡ Level.Comparison) }
{
    level == Level::Comparison
}

/// Whether a `not` stands at a place of the text where an expression of this level may begin so.
fn is_denied(text: &Lexed<'_>, level: Level, at: usize) -> bool
    ensures level { IsTrue result → is_inside level ≡ false }
    ensures sort { IsTrue result → sort_of (drop at text.now) ≡ Sort.Reserved Word.Not }
    ensures plain { result ≡ false → is_inside level ≡ false
        → sort_of (drop at text.now) ≢ Sort.Reserved Word.Not }
    ensures within { IsTrue result → at < length text.now }
    ensures small { length text.now < 2 ^ 63 }
{
    let denied = matches!(text.sort(at), Sort::Reserved(Word::Not));
    !is_inside(level) && denied
}

/// Whether a token of this sort closes a bracket.
fn is_right_paren(sort: Sort) -> bool
    ensures { IsTrue result ↔ (sort ≡ Sort.Symbol Punctuator.RightParen) }
{
    sort == Sort::Symbol(Punctuator::RightParen)
}

/// Lets go of an expression that is no part of one.
fn nothing_found(_inner: Found) -> Option<Found>
    ensures { result ≡ None }
{
    None
}

/// The leaf at a place of the text where no unary of another form stands.
fn shallow_leaf_at(reader: &Reader<'_>, place: Place) -> Result<Option<Found>, Memory>
    requires minus { sort_of (drop place.at reader.now.text.now) ≡ Sort.Symbol Punctuator.Minus
        → begins_with_number (drop (place.at + 1) reader.now.text.now) ≡ true }
    requires bracket { sort_of (drop place.at reader.now.text.now)
        ≢ Sort.Symbol Punctuator.LeftParen }
    ensures { IfOk result (λ found. LevelAt reader.now Level.Unary place found) }
{
    if place.deep == 0 {
        return Ok(None);
    }
    match leaf_at(reader, place.at)? {
        Some((expr, next)) => Ok(Some(Found {
            expr,
            depth: 1,
            at: next,
            behind: reader.text.sort(next),
        })),
        None => Ok(None),
    }
}

/// The longest expression of a level at a place of the text that goes no further than it may.
///
/// It begins with a `not` or with a unary. Each operator behind it says at which level it goes on,
/// so a level whose operator doesn't stand there takes no time.
#[cycle(reading)]
pub fn level_at(reader: &Reader<'_>, level: Level, place: Place) -> Result<Option<Found>, Memory>
    ensures { IfOk result (λ found. LevelAt reader.now level place found) }
{
    if is_denied(reader.text, level, place.at) {
        return denied_at(reader, level, place);
    }
    match unary_at(reader, place)? {
        Some(first) => {
            let whole = climb(reader, level, Level::Unary, place, first)?;
            Ok(Some(whole))
        }
        None => Ok(None),
    }
}

/// An expression that begins with a `not`.
#[cycle(reading)]
fn denied_at(reader: &Reader<'_>, level: Level, place: Place) -> Result<Option<Found>, Memory>
    requires sort { sort_of (drop place.at reader.now.text.now) ≡ Sort.Reserved Word.Not }
    requires within { place.at < length reader.now.text.now }
    requires small { length reader.now.text.now < 2 ^ 63 }
    requires level { is_inside level ≡ false }
    ensures { IfOk result (λ found. LevelAt reader.now level place found) }
{
    if place.deep == 0 {
        return Ok(None);
    }
    match level_at(reader, Level::Negation, place.operand(place.at + 1))? {
        Some(inner) => {
            let denied = one_sided(reader.alloc, Prefix::Not, inner)?;
            let whole = climb(reader, level, Level::Negation, place, denied)?;
            Ok(Some(whole))
        }
        None => Ok(None),
    }
}

/// An expression of a level that begins at a place with one of another level, which binds no looser
/// and was read: operators and operands are added as long as they follow.
#[cycle(reading)]
fn climb(
    reader: &Reader<'_>,
    level: Level,
    from: Level,
    place: Place,
    first: Found,
) -> Result<Found, Memory>
    requires found { Finds reader.now.kind from place.room place.deep reader.now.text.now place.at
        first }
    requires below { looseness from ≤ looseness level }
    requires plain { is_inside from ≡ true → is_inside level ≡ false
        → sort_of (drop place.at reader.now.text.now) ≢ Sort.Reserved Word.Not }
    ensures { IfOk result (λ found. Finds reader.now.kind level place.room place.deep
        reader.now.text.now place.at found) }
{
    let next = match joined_level(reader.kind, first.behind) {
        Some(next) => next,
        None => return Ok(first),
    };
    if looseness(next) <= looseness(from) {
        return Ok(first);
    }
    if looseness(level) < looseness(next) {
        return Ok(first);
    }
    let whole = joined(reader, next, place, first)?;
    climb(reader, level, next, place, whole)
}

/// An operand of a level, with the operators and operands of that level that follow it.
#[cycle(reading)]
fn joined(reader: &Reader<'_>, level: Level, place: Place, first: Found) -> Result<Found, Memory>
    requires found { Finds reader.now.kind (tighter level) place.room place.deep
        reader.now.text.now place.at first }
    requires joins { level ≢ Level.Comparison → is_chain level ≡ true }
    ensures found { IfOk result (λ found. Finds reader.now.kind level place.room place.deep
        reader.now.text.now place.at found) }
    ensures after { IfOk result (λ found. first.at ≤ found.at) }
{
    if is_comparison(level) {
        compared(reader, place, first)
    } else {
        follow(reader, level, place, first)
    }
}

/// An expression that begins at a place, with as many operators and operands behind it as follow.
#[cycle(reading)]
fn follow(reader: &Reader<'_>, level: Level, place: Place, first: Found) -> Result<Found, Memory>
    requires { IsNoted place.deep reader.now.text.now first }
    ensures { IfOk result (λ found. FollowedBy reader.now.kind level place.room place.deep
        reader.now.text.now first found) }
{
    let oper = match operator(reader.kind, level, first.behind) {
        Some(oper) => oper,
        None => return Ok(first),
    };
    if first.depth == place.deep {
        return Ok(first);
    }
    match level_at(reader, tighter(level), place.operand(first.at + 1)) {
        Ok(Some(second)) => {
            let both = two_sided(reader.alloc, oper, first, second)?;
            follow(reader, level, place, both)
        }
        Ok(None) => Ok(first),
        Err(fault) => give_up(first, fault),
    }
}

/// The left side of a comparison, with the operator and the right side that follow it, if they do.
#[cycle(reading)]
fn compared(reader: &Reader<'_>, place: Place, left: Found) -> Result<Found, Memory>
    requires { Finds reader.now.kind Level.Sum place.room place.deep reader.now.text.now place.at
        left }
    ensures found { IfOk result (λ found. Finds reader.now.kind Level.Comparison place.room
        place.deep reader.now.text.now place.at found) }
    ensures after { IfOk result (λ found. left.at ≤ found.at) }
{
    let oper = match operator(reader.kind, Level::Comparison, left.behind) {
        Some(oper) => oper,
        None => return Ok(left),
    };
    if left.depth == place.deep {
        return Ok(left);
    }
    match level_at(reader, Level::Sum, place.operand(left.at + 1)) {
        Ok(Some(right)) => two_sided(reader.alloc, oper, left, right),
        Ok(None) => Ok(left),
        Err(fault) => give_up(left, fault),
    }
}

/// A leaf or a bracket with any number of `-` before it.
#[cycle(reading)]
fn unary_at(reader: &Reader<'_>, place: Place) -> Result<Option<Found>, Memory>
    ensures { IfOk result (λ found. LevelAt reader.now Level.Unary place found) }
{
    match reader.text.sort(place.at) {
        Sort::Symbol(Punctuator::LeftParen) => bracket_at(reader, place),
        Sort::Symbol(Punctuator::Minus) => minus_at(reader, place),
        _ => shallow_leaf_at(reader, place),
    }
}

/// A negative constant, or a unary behind a `-`.
#[cycle(reading)]
fn minus_at(reader: &Reader<'_>, place: Place) -> Result<Option<Found>, Memory>
    requires sort { sort_of (drop place.at reader.now.text.now) ≡ Sort.Symbol Punctuator.Minus }
    requires within { place.at < length reader.now.text.now }
    requires small { length reader.now.text.now < 2 ^ 63 }
    ensures { IfOk result (λ found. LevelAt reader.now Level.Unary place found) }
{
    if is_number(reader.text, place.at + 1) {
        return shallow_leaf_at(reader, place);
    }
    if place.deep == 0 {
        return Ok(None);
    }
    match unary_at(reader, place.operand(place.at + 1))? {
        Some(inner) => {
            let whole = one_sided(reader.alloc, Prefix::Minus, inner)?;
            Ok(Some(whole))
        }
        None => Ok(None),
    }
}

/// An expression in brackets.
#[cycle(reading)]
fn bracket_at(reader: &Reader<'_>, place: Place) -> Result<Option<Found>, Memory>
    requires sort { sort_of (drop place.at reader.now.text.now)
        ≡ Sort.Symbol Punctuator.LeftParen }
    requires within { place.at < length reader.now.text.now }
    requires small { length reader.now.text.now < 2 ^ 63 }
    ensures { IfOk result (λ found. LevelAt reader.now Level.Unary place found) }
{
    if place.room == 0 {
        return Ok(None);
    }
    let inner = match level_at(reader, Level::Disjunction, place.inside())? {
        Some(inner) => inner,
        None => return Ok(None),
    };
    if is_right_paren(inner.behind) {
        let at = inner.at + 1;
        Ok(Some(Found {
            expr: inner.expr,
            depth: inner.depth,
            at,
            behind: reader.text.sort(at),
        }))
    } else {
        Ok(nothing_found(inner))
    }
}

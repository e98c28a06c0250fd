//! The parts of a rule that are trees.

ghost use Rattle.std.specs.Prelude.{◌≡◌, ◌≤◌, length, None, IfOk};
ghost use Rattle.limits.specs.Limits.{greatest_place};
ghost use Rattle.rule_syntax.specs.Readers.{ConditionAt, BodyAt};

use aioc_tokens::Punctuator::{LeftBrace, RightBrace};
use aioc_tokens::Sort::{self, Reserved, Symbol};
use aioc_tokens::Word;
use dioc_syntax::{Place, Reader, choreo_at};
use dioc_terms::{Choreo, Expr, Memory};
use expr_syntax::{ExprKind, expr_at};

/// `} do {`
const DOING: [Sort; 3] = [Symbol(RightBrace), Reserved(Word::Do), Symbol(LeftBrace)];

/// `} }`
const CLOSING: [Sort; 2] = [Symbol(RightBrace), Symbol(RightBrace)];

/// What was read with the place behind it, or `None` where it doesn't stand there. The error says
/// that memory ran out.
pub type ReadPart<T> = Result<Option<(T, usize)>, Memory>;

/// Lets go of what turned out to be no part of a rule.
pub fn no_part<T: Drop, U: Drop>(_value: T) -> Option<U>
    ensures { result ≡ None }
{
    None
}

/// The condition at a place of the text with `} do {` behind it, and the place behind both.
pub fn condition_at(reader: &Reader<'_>, room: usize, at: usize) -> ReadPart<Expr>
    requires { length reader.now.text.now ≤ greatest_place }
    ensures { IfOk result (λ found. ConditionAt room reader.now.text.now at found) }
{
    let read = expr_at(reader.alloc, reader.text, ExprKind::Condition, room, at)?;
    let (cond, next) = match read {
        Some(read) => read,
        None => return Ok(None),
    };
    if !reader.text.begins(next, &DOING) {
        return Ok(no_part(cond));
    }
    Ok(Some((cond, next + 3)))
}

/// The body at a place of the text with `} }` behind it, and the place behind both.
pub fn body_at(reader: &Reader<'_>, room: usize, at: usize) -> ReadPart<Choreo>
    requires { length reader.now.text.now ≤ greatest_place }
    ensures { IfOk result (λ found.
        BodyAt reader.now.version room reader.now.text.now at found) }
{
    let found = match choreo_at(reader, Place::front(at, room))? {
        Some(found) => found,
        None => return Ok(None),
    };
    if !reader.text.begins(found.at, &CLOSING) {
        return Ok(no_part(found));
    }
    Ok(Some((Box::into_inner(found.choreo), found.at + 2)))
}

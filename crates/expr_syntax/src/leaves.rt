//! The leaves of the grammar.

ghost use Rattle.std.specs.Prelude.{◌≡◌, ◌∷◌, ◌+◌, ◌<◌, ◌≤◌, ◌^◌, drop, length, IfOk};
ghost use Rattle.dioc_terms.specs.Expressions.{expression};
ghost use Rattle.aioc_tokens.specs.declared.words.Sort.{Sort};
ghost use Rattle.aioc_tokens.specs.declared.words.Word.{Word};
ghost use Rattle.aioc_tokens.specs.Lexemes.{Lexeme, HasSpelling, sort_of};
ghost use Rattle.expr_syntax.specs.Grammar.{begins_with_number};
ghost use Rattle.expr_syntax.specs.declared.levels.ExprKind.{ExprKind};
ghost use Rattle.expr_syntax.specs.Readers.{LeafAt, ConstantLeafAt, MemberAt};

use crate::constants::constant_at;
use crate::levels::ExprKind;
use crate::places::Reader;
use aioc_tokens::{Lexed, Punctuator, Sort, Word};
use dioc_terms::{Expr, Memory, Name};
use std::alloc::Global;

/// `. x`
const MEMBER: [Sort; 2] = [Sort::Symbol(Punctuator::Dot), Sort::Name];

/// The name at a place of the text, which the caller knows to be one. The error says that memory
/// ran out.
pub fn name_at(alloc: Global, text: &Lexed<'_>, at: usize) -> Result<Name, Memory>
    requires { sort_of (drop at text.now) ≡ Sort.Name }
    ensures value { IfOk result (λ name. drop at text.now
        ≡ Lexeme.Name name ∷ drop (at + 1) text.now) }
    ensures valid { IfOk result (λ name. HasSpelling (Lexeme.Name name)) }
{
    Name::of(alloc, text.name(at))
}

/// Whether a number stands at a place of the text.
pub fn is_number(text: &Lexed<'_>, at: usize) -> bool
    ensures { result ≡ begins_with_number (drop at text.now) }
{
    matches!(text.sort(at), Sort::Number)
}

fn variable_at(reader: &Reader<'_>, at: usize) -> Result<Option<(Expr, usize)>, Memory>
    requires sort { sort_of (drop at reader.now.text.now) ≡ Sort.Name }
    requires within { at < length reader.now.text.now }
    requires small { length reader.now.text.now < 2 ^ 63 }
    ensures { IfOk result (λ found. LeafAt reader.now.kind reader.now.text.now at found) }
{
    let name = name_at(reader.alloc, reader.text, at)?;
    Ok(Some((Expr::Var(name), at + 1)))
}

/// Behind `N` or `E`: the name at a place of the text with a `.` before it, and the place behind
/// it.
fn member_at(reader: &Reader<'_>, at: usize) -> Result<Option<(Name, usize)>, Memory>
    requires { at < 2 ^ 63 }
    ensures { IfOk result (λ found. MemberAt reader.now.text.now at found) }
{
    if !reader.text.begins(at, &MEMBER) {
        return Ok(None);
    }
    let name = name_at(reader.alloc, reader.text, at + 1)?;
    Ok(Some((name, at + 2)))
}

fn constant_leaf_at(reader: &Reader<'_>, at: usize) -> Result<Option<(Expr, usize)>, Memory>
    ensures { IfOk result (λ found. ConstantLeafAt reader.now.text.now at found) }
{
    let found = constant_at(reader.alloc, reader.text, at)?;
    Ok(found.map(|(value, next)| (Expr::Const(value), next)))
}

/// The leaf at a place of the text of a condition where a reserved word stands.
fn word_leaf_at(reader: &Reader<'_>, at: usize, word: Word) -> Result<Option<(Expr, usize)>, Memory>
    requires sort { sort_of (drop at reader.now.text.now) ≡ Sort.Reserved word }
    requires within { at < length reader.now.text.now }
    requires small { length reader.now.text.now < 2 ^ 63 }
    ensures { IfOk result (λ found. LeafAt ExprKind.Condition reader.now.text.now at found) }
{
    match word {
        Word::N => {
            let property = member_at(reader, at + 1)?;
            Ok(property.map(|(name, next)| (Expr::Prop(name), next)))
        }
        Word::E => {
            let key = member_at(reader, at + 1)?;
            Ok(key.map(|(name, next)| (Expr::Env(name), next)))
        }
        _ => constant_leaf_at(reader, at),
    }
}

/// The leaf at a place of the text, and the place behind it, or `None` where no leaf stands there.
pub fn leaf_at(reader: &Reader<'_>, at: usize) -> Result<Option<(Expr, usize)>, Memory>
    ensures { IfOk result (λ found. LeafAt reader.now.kind reader.now.text.now at found) }
{
    match reader.text.sort(at) {
        Sort::Name => variable_at(reader, at),
        Sort::Reserved(word) => match reader.kind {
            ExprKind::Step => constant_leaf_at(reader, at),
            ExprKind::Condition => word_leaf_at(reader, at, word),
        },
        _ => constant_leaf_at(reader, at),
    }
}

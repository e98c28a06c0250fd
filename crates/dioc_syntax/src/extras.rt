//! What a scope may have behind its body: further roles, and properties.

ghost use Rattle.std.specs.Prelude.{◌≡◌, [], ◌≤◌, ◌<◌, ◌^◌, length, IfOk};
ghost use Rattle.dioc_syntax.specs.Readers.{NamesAt, RolesAt, PairAt, PairsAt, PropertiesAt};

use crate::names::role_at;
use aioc_tokens::Punctuator::{Comma, Dot, Equal, LeftBrace, RightBrace};
use aioc_tokens::Sort::{self, Reserved, Symbol};
use aioc_tokens::{Lexed, Word};
use dioc_terms::{Bindings, Items, Memory, Name, Role, Roles, Value};
use expr_syntax::{constant_at, name_at};
use std::alloc::Global;

/// `, r`
const ANOTHER: [Sort; 2] = [Symbol(Comma), Sort::Name];

/// `prop {`
const PROPERTIES: [Sort; 2] = [Reserved(Word::Prop), Symbol(LeftBrace)];

/// `N . k =`
const PAIR: [Sort; 4] = [Reserved(Word::N), Symbol(Dot), Sort::Name, Symbol(Equal)];

/// The further roles at a place of the text, and the place behind them. Version 2 alone has them:
///
/// ```text
/// [ "roles" "{" name { "," name } "}" ]
/// ```
pub fn roles_at(
    alloc: Global,
    text: &Lexed<'_>,
    version: u32,
    at: usize,
) -> Result<(Roles, usize), Memory>
    requires within { at ≤ length text.now }
    requires small { length text.now < 2 ^ 63 }
    ensures { IfOk result (λ found. RolesAt version text.now at found) }
{
    if version != 2 || !text.named(at, b"roles") {
        return Ok(none_at(alloc, at));
    }
    if !text.has(at + 1, Symbol(LeftBrace)) {
        return Ok(none_at(alloc, at));
    }
    match names_at(alloc, text, at + 2)? {
        Some((roles, next)) if text.has(next, Symbol(RightBrace)) => Ok((roles, next + 1)),
        Some(_) => Ok(none_at(alloc, at)),
        None => Ok(none_at(alloc, at)),
    }
}

/// Nothing, which ends where it begins.
fn none_at<T: Drop>(alloc: Global, at: usize) -> (Items<T>, usize)
    ensures none { result.0 ≡ [] }
    ensures at { result.1 ≡ at }
{
    (Items::new(Vec::new(alloc)), at)
}

/// As many roles as are named at a place of the text with a `,` between two, and the place behind
/// them.
fn names_at(alloc: Global, text: &Lexed<'_>, at: usize) -> Result<Option<(Roles, usize)>, Memory>
    ensures { IfOk result (λ found. NamesAt text.now at found) }
{
    if !text.has(at, Sort::Name) {
        return Ok(None);
    }
    let mut roles = Vec::new(alloc);
    roles.push(role_at(alloc, text, at)?)?;
    let mut next = at + 1;
    while text.begins(next, &ANOTHER) {
        roles.push(role_at(alloc, text, next + 1)?)?;
        next += 2;
    }
    Ok(Some((Items::new(roles), next)))
}

/// The properties at a place of the text, and the place behind them:
///
/// ```text
/// [ "prop" "{" [ props ] "}" ]
/// ```
pub fn properties_at(
    alloc: Global,
    text: &Lexed<'_>,
    at: usize,
) -> Result<(Bindings, usize), Memory>
    requires within { at ≤ length text.now }
    requires small { length text.now < 2 ^ 63 }
    ensures { IfOk result (λ found. PropertiesAt text.now at found) }
{
    if !text.begins(at, &PROPERTIES) {
        return Ok(none_at(alloc, at));
    }
    if text.has(at + 2, Symbol(RightBrace)) {
        return Ok(none_at(alloc, at + 3));
    }
    match pairs_at(alloc, text, at + 2)? {
        Some((props, next)) if text.has(next, Symbol(RightBrace)) => Ok((props, next + 1)),
        Some(_) => Ok(none_at(alloc, at)),
        None => Ok(none_at(alloc, at)),
    }
}

/// As many properties as stand at a place of the text with a `,` between two, and the place behind
/// them.
fn pairs_at(alloc: Global, text: &Lexed<'_>, at: usize) -> Result<Option<(Bindings, usize)>, Memory>
    requires { at < 2 ^ 63 }
    ensures { IfOk result (λ found. PairsAt text.now at found) }
{
    let (first, mut next) = match pair_at(alloc, text, at)? {
        Some(pair) => pair,
        None => return Ok(None),
    };
    let mut props = Vec::new(alloc);
    props.push(first)?;
    while text.has(next, Symbol(Comma)) {
        match pair_at(alloc, text, next + 1)? {
            Some((pair, behind)) => {
                props.push(pair)?;
                next = behind;
            }
            None => return Ok(Some((Items::new(props), next))),
        }
    }
    Ok(Some((Items::new(props), next)))
}

/// One property at a place of the text, and the place behind it: `N . k = v`.
fn pair_at(
    alloc: Global,
    text: &Lexed<'_>,
    at: usize,
) -> Result<Option<((Name, Value), usize)>, Memory>
    requires { at < 2 ^ 63 }
    ensures { IfOk result (λ found. PairAt text.now at found) }
{
    if !text.begins(at, &PAIR) {
        return Ok(None);
    }
    let key = name_at(alloc, text, at + 2)?;
    match constant_at(alloc, text, at + 4)? {
        Some((value, next)) => Ok(Some(((key, value), next))),
        None => Ok(None),
    }
}

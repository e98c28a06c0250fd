//! The fixed beginnings and ends of steps.

ghost use Rattle.std.specs.Prelude.{◌≡◌, ◌<◌, ◌^◌, IfOk};
ghost use Rattle.dioc_syntax.specs.Readers.{sent_by, received_by, set_by, led_by, HeadAt, LeaderAt};

use crate::names::role_at;
use aioc_tokens::{Lexed, Punctuator, Sort};
use dioc_terms::{Memory, Name, Role};
use expr_syntax::name_at;
use std::alloc::Global;

/// `o : a (`
const SENDER: [Sort; 4] = [
    Sort::Name,
    Sort::Symbol(Punctuator::Colon),
    Sort::Name,
    Sort::Symbol(Punctuator::LeftParen),
];

/// `) -> b ( x )`
const RECEIVER: [Sort; 6] = [
    Sort::Symbol(Punctuator::RightParen),
    Sort::Symbol(Punctuator::Arrow),
    Sort::Name,
    Sort::Symbol(Punctuator::LeftParen),
    Sort::Name,
    Sort::Symbol(Punctuator::RightParen),
];

/// `x @ r =`
const TARGET: [Sort; 4] = [
    Sort::Name,
    Sort::Symbol(Punctuator::At),
    Sort::Name,
    Sort::Symbol(Punctuator::Equal),
];

/// `@ r`
const LEADER: [Sort; 2] = [Sort::Symbol(Punctuator::At), Sort::Name];

/// The operation and the sender at a place of the text: `o : a (`.
pub fn sender_at(alloc: Global, text: &Lexed<'_>, at: usize) -> Result<Option<(Name, Name)>, Memory>
    requires { at < 2 ^ 63 }
    ensures { IfOk result (λ found. HeadAt sent_by 4 text.now at found) }
{
    if !text.begins(at, &SENDER) {
        return Ok(None);
    }
    let operation = name_at(alloc, text, at)?;
    let sender = name_at(alloc, text, at + 2)?;
    Ok(Some((operation, sender)))
}

/// The receiver and its variable at a place of the text: `) -> b ( x )`.
pub fn receiver_at(
    alloc: Global,
    text: &Lexed<'_>,
    at: usize,
) -> Result<Option<(Name, Name)>, Memory>
    requires { at < 2 ^ 63 }
    ensures { IfOk result (λ found. HeadAt received_by 6 text.now at found) }
{
    if !text.begins(at, &RECEIVER) {
        return Ok(None);
    }
    let receiver = name_at(alloc, text, at + 2)?;
    let variable = name_at(alloc, text, at + 4)?;
    Ok(Some((receiver, variable)))
}

/// The variable and its owner at a place of the text: `x @ r =`.
pub fn target_at(alloc: Global, text: &Lexed<'_>, at: usize) -> Result<Option<(Name, Name)>, Memory>
    requires { at < 2 ^ 63 }
    ensures { IfOk result (λ found. HeadAt set_by 4 text.now at found) }
{
    if !text.begins(at, &TARGET) {
        return Ok(None);
    }
    let variable = name_at(alloc, text, at)?;
    let owner = name_at(alloc, text, at + 2)?;
    Ok(Some((variable, owner)))
}

/// The leader at a place of the text: `@ r`.
pub fn leader_at(alloc: Global, text: &Lexed<'_>, at: usize) -> Result<Option<Role>, Memory>
    requires { at < 2 ^ 63 }
    ensures { IfOk result (λ found. LeaderAt text.now at found) }
{
    if !text.begins(at, &LEADER) {
        return Ok(None);
    }
    let leader = role_at(alloc, text, at + 1)?;
    Ok(Some(leader))
}

//! Values that are bound to names.

ghost use Rattle.std.specs.Prelude.{◌≤◌, length, IfOk};
ghost use Rattle.limits.specs.Limits.{greatest_place};
ghost use Rattle.rule_syntax.specs.Readers.{BindingAt};

use crate::parts::ReadPart;
use aioc_tokens::{Lexed, Punctuator, Sort};
use dioc_terms::{Name, Value};
use expr_syntax::{constant_at, name_at};
use std::alloc::Global;

/// `k =`
const BINDING: [Sort; 2] = [Sort::Name, Sort::Symbol(Punctuator::Equal)];

/// The binding at a place of the text with the place behind it, or `None` where none stands there.
/// The error says that memory ran out.
///
/// ```text
/// bind = name "=" value
/// ```
pub fn binding_at(alloc: Global, text: &Lexed<'_>, at: usize) -> ReadPart<(Name, Value)>
    requires { length text.now ≤ greatest_place }
    ensures { IfOk result (λ found. BindingAt text.now at found) }
{
    if !text.begins(at, &BINDING) {
        return Ok(None);
    }
    let key = name_at(alloc, text, at)?;
    match constant_at(alloc, text, at + 2)? {
        Some((value, next)) => Ok(Some(((key, value), next))),
        None => Ok(None),
    }
}

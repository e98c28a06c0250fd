//! Priorities of rules.

ghost use Rattle.std.specs.Prelude.{◌≡◌, ◌≤◌, ◌<◌, ◌^◌, length, neg_ℤ, pos};
ghost use Rattle.limits.specs.Limits.{most_priority};
ghost use Rattle.rule_syntax.specs.Readers.{PriorityAt};

use aioc_tokens::{Lexed, Punctuator, Sort};
use expr_syntax::number_at;
use limits::MOST_PRIORITY;

/// The priority that a rule has at a place of the text, 0 where none is written, and the place
/// behind it, or `None` where a rule can't go on. Version 2 alone may write one:
///
/// ```text
/// [ "priority" [ "-" ] number ]
/// ```
pub fn priority_at(text: &Lexed<'_>, version: u32, at: usize) -> Option<(i32, usize)>
    requires within { at ≤ length text.now }
    requires small { length text.now < 2 ^ 63 }
    ensures { PriorityAt version text.now at result }
{
    if version != 2 || !text.named(at, b"priority") {
        return Some((0, at));
    }
    if text.has(at + 1, Sort::Symbol(Punctuator::Minus)) {
        match number_at(text, at + 2, MOST_PRIORITY) {
            Some(number) => Some((negative(number), at + 3)),
            None => None,
        }
    } else {
        match number_at(text, at + 1, MOST_PRIORITY) {
            Some(number) => Some((number as i32, at + 2)),
            None => None,
        }
    }
}

/// Minus a number.
fn negative(number: u64) -> i32
    requires { number ≤ most_priority }
    ensures { result ≡ neg_ℤ (pos number) }
{
    -(number as i32)
}

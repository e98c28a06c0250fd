//! Where the parts of a bundle stand in its text.

ghost use Rattle.std.specs.Prelude.{◌≡◌, IfSome};
ghost use Rattle.aioc_tokens.specs.Lexing.{place_of};
ghost use Rattle.diagnostics.specs.Places.{IsPartAt, IsConstructAt};

use crate::diagnostic::Span;
use aioc_tokens::{Lexed, Sort, Token, place};
use rule_checks::Where;
use text_places::{Mark, find_mark};

/// The bytes of the token at a place of the list, or the end of the text.
pub fn span_at(bytes: &[u8], tokens: &[Token], at: usize) -> Span
    ensures { result.start ≡ place_of bytes.now tokens.now at }
{
    let end = match tokens.get(at) {
        Some(token) => token.end,
        None => bytes.len(),
    };
    Span {
        start: place(bytes, tokens, at),
        end,
    }
}

/// The token at which the choreography or a rule begins, by its number in a bundle whose sections
/// have `opening` rules.
pub fn part_at(text: &Lexed<'_>, opening: u32, part: Where) -> Option<usize>
    ensures { IfSome result (IsPartAt text.now opening part) }
{
    match part {
        Where::Program => find_mark(text, Mark::Choreography, 0, 0),
        Where::Rule(number) if number < opening => find_mark(text, Mark::Rule, 0, number as usize),
        Where::Rule(number) => find_mark(text, Mark::Added, 0, (number - opening) as usize),
    }
}

/// The first token of the construct with this number in the choreography, or in a rule's body.
pub fn construct_at(text: &Lexed<'_>, opening: u32, part: Where, number: u32) -> Option<usize>
    ensures { IfSome result (IsConstructAt text.now opening part number) }
{
    match part_at(text, opening, part) {
        Some(from) => find_mark(text, Mark::Construct, from, number as usize),
        None => None,
    }
}

/// The name at a place of the text, or one that says that there is none.
pub fn name_at<'a>(text: &Lexed<'a>, at: usize) -> &'a [u8] {
    match text.sort(at) {
        Sort::Name => text.name(at),
        _ => b"?",
    }
}

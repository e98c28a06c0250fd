//! What stays the same while an expression is read, and the places where its parts are read.

ghost use Rattle.std.specs.Prelude.{◌≡◌, ◌<◌, ◌^◌};
ghost use Rattle.expr_syntax.specs.Places.{inside, operand};

use crate::levels::ExprKind;
use aioc_tokens::Lexed;
use std::alloc::Global;

/// What stays the same while an expression is read.
#[derive(Drop)]
pub struct Reader<'a> {
    pub alloc: Global,
    pub text: &'a Lexed<'a>,
    pub kind: ExprKind,
}

/// A place of a text where an expression is read, and how far it may go.
#[derive(Clone, Copy)]
pub struct Place {
    /// How many tokens stand before it.
    pub at: usize,
    /// As many brackets may be open at once in the expression.
    pub room: usize,
    /// The expression is at most so deep.
    pub deep: usize,
}

impl Place {
    /// The place behind the bracket that opens here.
    pub fn inside(self) -> Place
        requires some { 0 < self.room }
        requires small { self.at < 2 ^ 63 }
        ensures { result ≡ inside self }
    {
        Place {
            at: self.at + 1,
            room: self.room - 1,
            deep: self.deep,
        }
    }

    /// The place of an operand that begins at a later token, in an expression that begins here.
    pub fn operand(self, at: usize) -> Place
        requires { 0 < self.deep }
        ensures { result ≡ operand self at }
    {
        Place {
            at,
            room: self.room,
            deep: self.deep - 1,
        }
    }
}

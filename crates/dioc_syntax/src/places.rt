//! What stays the same while a choreography is read, and the places where its parts are read.

ghost use Rattle.std.specs.Prelude.{◌≡◌, ◌<◌, ◌^◌};
ghost use Rattle.dioc_syntax.specs.Places.{front, inside, behind, part};

use aioc_tokens::Lexed;
use limits::MOST_DEPTH;
use std::alloc::Global;

/// What stays the same while a choreography is read.
#[derive(Drop)]
pub struct Reader<'a> {
    pub alloc: Global,
    pub text: &'a Lexed<'a>,
    /// The version of the grammar, 1 or 2. Version 2 alone lets a scope name further roles.
    pub version: u32,
}

/// A place of a text where a choreography is read, and how far it may go.
#[derive(Clone, Copy)]
pub struct Place {
    /// How many tokens stand before it.
    pub at: usize,
    /// As many brackets may be open at once in the choreography.
    pub room: usize,
    /// The choreography is at most so deep.
    pub deep: usize,
    /// How many indexed constructs begin before it in its text.
    pub earlier: u32,
}

impl Place {
    /// The place where a whole choreography begins: nothing of it stands before it.
    pub fn front(at: usize, room: usize) -> Place
        ensures { result ≡ front at room }
    {
        Place {
            at,
            room,
            deep: MOST_DEPTH,
            earlier: 0,
        }
    }

    /// The place behind the bracket that opens here.
    pub fn inside(self) -> Place
        requires some { 0 < self.room }
        requires small { self.at < 2 ^ 63 }
        ensures { result ≡ inside self }
    {
        Place {
            at: self.at + 1,
            room: self.room - 1,
            ..self
        }
    }

    /// The place behind the word that stands here.
    pub fn behind(self) -> Place
        requires { self.at < 2 ^ 63 }
        ensures { result ≡ behind self }
    {
        Place {
            at: self.at + 1,
            ..self
        }
    }

    /// The place of a part that begins at a later token, with so many constructs before it, in a
    /// choreography that begins here.
    pub fn part(self, at: usize, earlier: u32) -> Place
        requires { 0 < self.deep }
        ensures { result ≡ part self at earlier }
    {
        Place {
            at,
            deep: self.deep - 1,
            earlier,
            ..self
        }
    }
}

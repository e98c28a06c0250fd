//! What each part of a text is to its layout.

use crate::parts::{Part, PartKind};
use aioc_tokens::{Kind, Punctuator, Sort, Word};
use std::alloc::{AllocError, Global};

/// What a part is to the layout.
#[derive(Clone, Copy, PartialEq, Eq)]
pub(crate) enum Shape {
    Plain,
    /// The bracket that opens a block: `{`, or the `(` of parts of a choreography.
    Open,
    Close,
    /// `;`
    Step,
    /// `|`
    Bar,
    Else,
    /// The first part of an item that no `;` ends: a rule, its `on` and its `do`, a change of a
    /// script, an entry of a trace.
    Item,
    /// The first part of a section, or of the text.
    Section,
    Comment,
}

/// A part as the layout sees it.
#[derive(Clone, Copy)]
pub(crate) struct Unit {
    pub shape: Shape,
    /// Whether a space stands before it where it doesn't begin a line.
    pub apart: bool,
    /// How many line feeds stand before it, where 2 are two or more.
    pub breaks: u8,
    /// How many bytes it has.
    pub width: u32,
}

impl Unit {
    /// How many columns it takes behind another in a line.
    pub(crate) fn columns(&self) -> u32 {
        self.width.saturating_add(u32::from(self.apart))
    }
}

/// A bracket that is open.
#[derive(Clone, Copy, PartialEq, Eq)]
enum Bracket {
    Block,
    /// A `(` of an expression or of a message.
    Inner,
}

/// The parts of a text, by their places.
#[derive(Clone, Copy, Drop)]
struct View<'a> {
    bytes: &'a [u8],
    parts: &'a [Part],
}

impl<'a> View<'a> {
    /// The sort of the part at a place, `End` of a comment and where there is no part.
    fn sort(&self, place: usize) -> Sort {
        match self.parts.get(place) {
            Some(part) => part.sort,
            None => Sort::End,
        }
    }

    /// The sort of the part so many places behind this one.
    fn behind(&self, place: usize, count: usize) -> Sort {
        self.sort(place.saturating_add(count))
    }

    /// The sort of the part so many places before this one.
    fn before(&self, place: usize, count: usize) -> Sort {
        match place.checked_sub(count) {
            Some(place) => self.sort(place),
            None => Sort::End,
        }
    }

    /// The bytes from one place up to another, none where the text has no such places.
    fn slice(&self, from: u32, to: u32) -> &'a [u8] {
        self.bytes.get(from as usize..to as usize).unwrap_or(b"")
    }

    /// How many line feeds stand between these places, where 2 are two or more.
    fn breaks(&self, from: u32, to: u32) -> u8 {
        let mut breaks = 0;
        for byte in self.slice(from, to) {
            if *byte == b'\n' && breaks < 2 {
                breaks += 1;
            }
        }
        breaks
    }

    /// Whether the part so many places before this one is this name.
    fn is_named(&self, place: usize, count: usize, name: &[u8]) -> bool {
        match place.checked_sub(count) {
            Some(place) => self.name(place) == name,
            None => false,
        }
    }

    /// The name at a place, or no bytes where there is none.
    fn name(&self, place: usize) -> &'a [u8] {
        match self.parts.get(place) {
            Some(part) if part.sort == Sort::Name => self.slice(part.start, part.end),
            _ => b"",
        }
    }

    /// Whether the part at a place begins with a letter.
    fn begins_with_letter(&self, place: usize) -> bool {
        match self.parts.get(place) {
            Some(part) => matches!(part.kind, PartKind::Token(Kind::Name)),
            None => false,
        }
    }
}

/// Whether a part of this sort may end an operand, so that a `-` behind it has two operands.
fn ends_operand(sort: Sort) -> bool {
    match sort {
        Sort::Name | Sort::Long | Sort::Number | Sort::Text => true,
        Sort::Reserved(Word::True | Word::False | Word::Nil) => true,
        Sort::Symbol(Punctuator::RightParen) => true,
        _ => false,
    }
}

/// What the parts before a place say of it.
#[derive(Drop)]
struct Reader<'a> {
    view: View<'a>,
    open: Vec<Bracket>,
    /// Where the last part ends.
    end: u32,
    /// The place behind the last part that is no comment.
    solid: usize,
    /// The sort of that part, `End` where there is none.
    previous: Sort,
    /// Whether the last `{` opens the condition of a rule.
    is_in_condition: bool,
    is_in_trace: bool,
}

impl<'a> Reader<'a> {
    /// Whether the `-` directly before a place is the sign of the part there.
    fn is_sign(&self, place: usize) -> bool {
        let is_priority = self.view.before(place, 4) == Sort::Reserved(Word::Rule)
            && self.view.is_named(place, 2, b"priority");
        is_priority || !ends_operand(self.view.before(place, 2))
    }

    /// Whether the `(` at a place belongs to what stands before it: to a role, or to `input`.
    fn is_called(&self, place: usize) -> bool {
        match self.view.before(place, 1) {
            Sort::Name | Sort::Reserved(Word::Input) => true,
            Sort::Long => self.view.begins_with_letter(place.saturating_sub(1)),
            _ => false,
        }
    }

    /// Whether nothing stands behind the part directly before a place.
    fn is_close_behind(&self, place: usize) -> bool {
        match self.view.before(place, 1) {
            Sort::Symbol(
                Punctuator::LeftParen
                | Punctuator::Dot
                | Punctuator::Hash
                | Punctuator::Bang
                | Punctuator::At,
            ) => true,
            Sort::Symbol(Punctuator::Minus) => self.is_sign(place),
            _ => false,
        }
    }

    /// Whether nothing stands before this symbol at a place.
    fn is_close_before(&self, punctuator: Punctuator, place: usize) -> bool {
        match punctuator {
            Punctuator::Semicolon
            | Punctuator::Comma
            | Punctuator::RightParen
            | Punctuator::Colon
            | Punctuator::Dot => true,
            Punctuator::LeftParen => self.is_called(place),
            Punctuator::At => matches!(
                self.view.behind(place, 2),
                Sort::Symbol(Punctuator::Equal | Punctuator::Hash)
            ),
            Punctuator::Hash => {
                self.view.before(place, 3) == Sort::Symbol(Punctuator::Arrow)
                    || self.view.before(place, 2) == Sort::Symbol(Punctuator::Bang)
            }
            _ => false,
        }
    }

    /// Whether a space stands before the part of this sort at a place where it begins no line. Of
    /// the first part this means nothing.
    fn is_apart(&self, place: usize, sort: Sort) -> bool {
        let is_close = match sort {
            Sort::Symbol(punctuator) => self.is_close_before(punctuator, place),
            _ => false,
        };
        !is_close && !self.is_close_behind(place)
    }

    /// Whether an entry of a trace begins with the part of this sort at a place.
    fn begins_entry(&self, place: usize, sort: Sort) -> bool {
        let second = self.view.behind(place, 2);
        match sort {
            Sort::Reserved(Word::Input) => second == Sort::Symbol(Punctuator::At),
            Sort::Reserved(Word::Scope) => second == Sort::Symbol(Punctuator::Hash),
            _ => match self.view.name(place) {
                b"put" | b"take" => second == Sort::Symbol(Punctuator::Arrow),
                b"set" => second == Sort::Symbol(Punctuator::At),
                b"pick" => second == Sort::Symbol(Punctuator::Hash),
                b"env" => second == Sort::Symbol(Punctuator::Equal),
                b"add" | b"drop" => {
                    self.view.before(place, 1) != Sort::Reserved(Word::Rule)
                        && self.view.begins_with_letter(place.saturating_add(1))
                }
                b"ended" | b"stopped" => self.view.behind(place, 1) == Sort::Number,
                _ => false,
            },
        }
    }

    /// Whether the `(` that comes next opens parts of a choreography.
    fn opens_block(&self) -> bool {
        match self.previous {
            Sort::Symbol(Punctuator::Semicolon | Punctuator::Bar) => true,
            Sort::Symbol(Punctuator::LeftBrace) => !self.is_in_condition,
            Sort::Symbol(Punctuator::LeftParen) => {
                matches!(self.open.last(), Some(Bracket::Block))
            }
            _ => false,
        }
    }

    fn open_bracket(&mut self, bracket: Bracket) -> Result<Shape, AllocError> {
        self.open.push(bracket)?;
        match bracket {
            Bracket::Block => Ok(Shape::Open),
            Bracket::Inner => Ok(Shape::Plain),
        }
    }

    fn open_brace(&mut self, place: usize) -> Result<Shape, AllocError> {
        if self.open.is_empty() {
            self.is_in_trace = self.view.is_named(self.solid, 1, b"trace");
        }
        self.is_in_condition = self.view.before(place, 1) == Sort::Reserved(Word::On);
        self.open_bracket(Bracket::Block)
    }

    fn close_bracket(&mut self) -> Shape {
        match self.open.pop() {
            Some(Bracket::Inner) => Shape::Plain,
            _ => Shape::Close,
        }
    }

    /// The shape of a part that is no bracket.
    fn shape_of_word(&self, place: usize, sort: Sort) -> Shape {
        if self.open.is_empty() {
            return match self.previous {
                Sort::End | Sort::Number | Sort::Symbol(Punctuator::RightBrace) => Shape::Section,
                _ => Shape::Plain,
            };
        }
        match sort {
            Sort::Symbol(Punctuator::Semicolon) => Shape::Step,
            Sort::Symbol(Punctuator::Bar) => Shape::Bar,
            Sort::Reserved(Word::Else) => Shape::Else,
            Sort::Reserved(Word::On | Word::Do) => Shape::Item,
            Sort::Reserved(Word::Rule) => match self.previous {
                Sort::Symbol(Punctuator::LeftBrace | Punctuator::RightBrace) => Shape::Item,
                _ => Shape::Plain,
            },
            Sort::Name | Sort::Reserved(Word::Input | Word::Scope) => {
                self.shape_of_name(place, sort)
            }
            _ => Shape::Plain,
        }
    }

    /// The shape of a name, or of a word that may begin an entry of a trace.
    fn shape_of_name(&self, place: usize, sort: Sort) -> Shape {
        let is_change = self.view.behind(place, 1) == Sort::Number
            && self.view.is_named(place, 0, b"after");
        if is_change || self.is_in_trace && self.begins_entry(place, sort) {
            Shape::Item
        } else {
            Shape::Plain
        }
    }

    /// The shape of the token of this sort at a place, where all parts before it were read.
    fn shape(&mut self, place: usize, sort: Sort) -> Result<Shape, AllocError> {
        match sort {
            Sort::Symbol(Punctuator::LeftBrace) => self.open_brace(place),
            Sort::Symbol(Punctuator::LeftParen) if self.opens_block() => {
                self.open_bracket(Bracket::Block)
            }
            Sort::Symbol(Punctuator::LeftParen) => self.open_bracket(Bracket::Inner),
            Sort::Symbol(Punctuator::RightParen | Punctuator::RightBrace) => {
                Ok(self.close_bracket())
            }
            _ => Ok(self.shape_of_word(place, sort)),
        }
    }

    fn unit(&mut self, place: usize, part: &Part) -> Result<Unit, AllocError> {
        let apart = self.is_apart(place, part.sort);
        let shape = match part.kind {
            PartKind::Comment => Shape::Comment,
            PartKind::Token(_) => {
                let shape = self.shape(place, part.sort)?;
                self.solid = place.saturating_add(1);
                self.previous = part.sort;
                shape
            }
        };
        let breaks = self.view.breaks(self.end, part.start);
        self.end = part.end;
        Ok(Unit {
            shape,
            apart,
            breaks,
            width: part.end.saturating_sub(part.start),
        })
    }
}

/// What each part of a text is to its layout.
pub(crate) fn units(alloc: Global, bytes: &[u8], parts: &[Part]) -> Result<Vec<Unit>, AllocError> {
    let mut reader = Reader {
        view: View { bytes, parts },
        open: Vec::new(alloc),
        end: 0,
        solid: 0,
        previous: Sort::End,
        is_in_condition: false,
        is_in_trace: false,
    };
    let mut units = Vec::with_capacity(alloc, parts.len())?;
    for (place, part) in parts.iter().enumerate() {
        let unit = reader.unit(place, part)?;
        units.push(unit)?;
    }
    Ok(units)
}

//! The white space before each part of a text.

use crate::shapes::{Shape, Unit};
use std::alloc::{AllocError, Global};

/// The white space before a part: so many line feeds, and then so many spaces.
#[derive(Clone, Copy)]
pub(crate) struct Gap {
    pub lines: u8,
    pub blanks: u8,
}

/// The most spaces of a gap.
pub(crate) const MOST_BLANKS: u8 = 64;

/// A gap of so many spaces, which ends no line.
fn spaces(blanks: u8) -> Gap {
    Gap { lines: 0, blanks }
}

/// How many columns a block may take that stands on one line, with what follows it there.
const MOST_COLUMNS: u8 = 100;

/// How many spaces more the lines of a block have.
const INDENT: usize = 2;

/// A block, as it was measured from its end on.
#[derive(Clone, Copy)]
struct Block {
    /// How many columns stand behind its opening bracket up to the end of the item of which it is a
    /// part, where one more than a line may take is that or more.
    columns: u8,
    /// Whether it can't stand on one line: there is a comment in it, or a line break where a
    /// broken block has one.
    broken: bool,
}

impl Block {
    /// A block with so many columns behind its opening bracket.
    fn new(columns: u32, broken: bool) -> Block {
        Block {
            columns: columns.min(u32::from(MOST_COLUMNS) + 1) as u8,
            broken,
        }
    }
}

/// A block that is measured, from its end on.
#[derive(Clone, Copy)]
struct Level {
    /// How many columns all parts take that stand behind the current item.
    behind: u32,
    broken: bool,
    /// Whether the last block that was measured in it is broken.
    inner_broken: bool,
    /// Whether the next block that is measured in it is broken, as the one behind its `else` is.
    next_broken: bool,
}

const OUTSIDE: Level = Level {
    behind: 0,
    broken: false,
    inner_broken: false,
    next_broken: false,
};

/// Whether a line ends between two parts of a block that isn't on one line.
fn is_seam(previous: Shape, shape: Shape) -> bool {
    matches!(previous, Shape::Open | Shape::Step | Shape::Bar)
        || matches!(shape, Shape::Close | Shape::Bar | Shape::Item)
}

impl Level {
    /// The level of a block whose last part has so many columns behind it.
    fn inside(&mut self, behind: u32) -> Level {
        let broken = self.next_broken;
        self.next_broken = false;
        Level {
            behind,
            broken,
            ..OUTSIDE
        }
    }

    fn add_block(&mut self, broken: bool) {
        self.broken = self.broken || broken;
        self.inner_broken = broken;
    }
}

/// The blocks of a text, the last one first.
fn measure(alloc: Global, units: &[Unit]) -> Result<Vec<Block>, AllocError> {
    let mut blocks = Vec::new(alloc);
    let mut levels = Vec::new(alloc);
    let mut level = OUTSIDE;
    let mut behind: u32 = 0;
    let mut later: Option<Unit> = None;
    for unit in units.iter().rev() {
        if let Some(later) = later {
            level.broken = level.broken || later.breaks > 0 && is_seam(unit.shape, later.shape);
        }
        let before = behind.saturating_add(unit.columns());
        match unit.shape {
            Shape::Close => {
                let inside = level.inside(before);
                levels.push(level)?;
                level = inside;
            }
            Shape::Open => {
                let mut outer = levels.pop().unwrap_or(OUTSIDE);
                blocks.push(Block::new(behind.saturating_sub(outer.behind), level.broken))?;
                outer.add_block(level.broken);
                level = outer;
            }
            Shape::Step => level.behind = behind,
            Shape::Bar | Shape::Item | Shape::Section => level.behind = before,
            Shape::Else => level.next_broken = level.inner_broken,
            Shape::Comment => level.broken = true,
            Shape::Plain => {}
        }
        behind = before;
        later = Some(*unit);
    }
    Ok(blocks)
}

/// How many comments stand at the front.
fn comments_at(units: &[Unit]) -> usize {
    units
        .iter()
        .take_while(|unit| unit.shape == Shape::Comment)
        .count()
}

/// What is known between two parts while the gaps are found, one after the other.
#[derive(Drop)]
pub(crate) struct Pen<'a> {
    units: &'a [Unit],
    /// The place of the next part that is no comment, as far as one was looked for.
    solid: usize,
    /// The blocks that are still to be opened, the next one last.
    blocks: Vec<Block>,
    /// For each open block whether the one around it is broken.
    open: Vec<bool>,
    /// Whether the innermost open block is broken.
    broken: bool,
    /// How many of the open blocks are broken.
    depth: usize,
    /// How many bytes the current line has.
    column: usize,
    /// The last part that is no comment.
    previous: Option<Shape>,
    /// Whether the last part is a comment.
    is_behind_comment: bool,
    /// Whether a plain part that comes next begins no line.
    is_amid: bool,
    /// Whether the last block that was closed is broken.
    closed_broken: bool,
    /// Whether a section has ended on the current line.
    is_behind_section: bool,
}

impl<'a> Pen<'a> {
    /// Before the first of the parts of a text.
    pub(crate) fn new(alloc: Global, units: &'a [Unit]) -> Result<Pen<'a>, AllocError> {
        Ok(Pen {
            units,
            solid: 0,
            blocks: measure(alloc, units)?,
            open: Vec::new(alloc),
            broken: false,
            depth: 0,
            column: 0,
            previous: None,
            is_behind_comment: false,
            is_amid: false,
            closed_broken: false,
            is_behind_section: false,
        })
    }

    /// Whether a line ends before the part of this shape which is the next that is no comment.
    fn ends_line(&self, shape: Shape) -> bool {
        match self.previous {
            Some(previous) => { shape == Shape::Section || self.broken && is_seam(previous, shape) }
            None => true,
        }
    }

    /// Whether an empty line may stand before a part of this shape.
    fn may_be_empty(&self, shape: Shape) -> bool {
        let is_behind_bracket = !self.is_behind_comment
            && matches!(self.previous, Some(Shape::Open | Shape::Bar));
        !is_behind_bracket && !matches!(shape, Shape::Close | Shape::Bar)
    }

    /// A gap that begins a line, for a part of this shape.
    fn new_line(&mut self, unit: &Unit, is_seam: bool) -> Gap {
        let is_empty = unit.breaks > 1 && self.may_be_empty(unit.shape) || self.is_behind_section;
        self.is_behind_section = false;
        let depth = match unit.shape {
            Shape::Close | Shape::Bar => self.depth.saturating_sub(1),
            _ if is_seam => self.depth,
            _ => self.depth.saturating_add(1),
        };
        let indent = depth.saturating_mul(INDENT).min(usize::from(MOST_BLANKS));
        Gap {
            lines: if is_empty { 2 } else { 1 },
            blanks: indent as u8,
        }
    }

    /// The gap before a part, where the next part that is no comment has this shape.
    fn gap(&mut self, unit: &Unit, shape: Shape) -> Gap {
        let is_comment = unit.shape == Shape::Comment;
        if self.previous.is_none() && !self.is_behind_comment {
            return spaces(0);
        }
        if is_comment && unit.breaks == 0 {
            return spaces(1);
        }
        let is_seam = self.ends_line(shape);
        if is_comment || is_seam || self.is_behind_comment {
            return self.new_line(unit, is_seam);
        }
        spaces(u8::from(unit.apart))
    }

    /// Whether the block that is opened now is broken.
    fn is_broken(&mut self) -> bool {
        let is_linked = self.previous == Some(Shape::Else) && self.closed_broken;
        match self.blocks.pop() {
            Some(block) => {
                let end = self.column.saturating_add(usize::from(block.columns));
                is_linked || block.broken || end > usize::from(MOST_COLUMNS)
            }
            None => true,
        }
    }

    fn open_block(&mut self) -> Result<(), AllocError> {
        self.open.push(self.broken)?;
        self.broken = self.is_broken();
        if self.broken {
            self.depth = self.depth.saturating_add(1);
        }
        Ok(())
    }

    fn close_block(&mut self) {
        self.closed_broken = self.broken;
        if self.broken {
            self.depth = self.depth.saturating_sub(1);
        }
        self.broken = self.open.pop().unwrap_or(false);
        self.is_behind_section = self.open.is_empty();
    }

    /// Goes past a part with the gap before it.
    fn pass(&mut self, unit: &Unit, gap: Gap) -> Result<(), AllocError> {
        let blanks = usize::from(gap.blanks);
        let start = if gap.lines > 0 { 0 } else { self.column };
        self.column = start
            .saturating_add(blanks)
            .saturating_add(unit.width as usize);
        match unit.shape {
            Shape::Open => self.open_block()?,
            Shape::Close => self.close_block(),
            _ => {}
        }
        let ends_line = matches!(unit.shape, Shape::Open | Shape::Step | Shape::Bar);
        self.is_behind_comment = unit.shape == Shape::Comment;
        self.is_amid = !self.is_behind_comment && !(self.broken && ends_line);
        if !self.is_behind_comment {
            self.previous = Some(unit.shape);
        }
        Ok(())
    }

    /// Goes past a plain part in a line, and gives the gap before it.
    fn go_on(&mut self, unit: &Unit) -> Gap {
        self.column = self.column.saturating_add(unit.columns() as usize);
        self.previous = Some(Shape::Plain);
        spaces(u8::from(unit.apart))
    }

    /// The shape of the next part that is no comment, from the comment at this place on.
    fn solid_shape(&mut self, place: usize) -> Shape {
        if self.solid <= place {
            let comments = self.units.get(place..).map_or(0, comments_at);
            self.solid = place.saturating_add(comments);
        }
        match self.units.get(self.solid) {
            Some(unit) => unit.shape,
            None => Shape::Section,
        }
    }

    /// The gap before the part at a place, where all parts before it were passed, or a space where
    /// there is no part.
    pub(crate) fn gap_at(&mut self, place: usize) -> Result<Gap, AllocError> {
        let unit = match self.units.get(place) {
            Some(unit) => *unit,
            None => return Ok(spaces(1)),
        };
        if self.is_amid && unit.shape == Shape::Plain {
            return Ok(self.go_on(&unit));
        }
        let shape = match unit.shape {
            Shape::Comment => self.solid_shape(place),
            shape => shape,
        };
        let gap = self.gap(&unit, shape);
        self.pass(&unit, gap)?;
        Ok(gap)
    }
}

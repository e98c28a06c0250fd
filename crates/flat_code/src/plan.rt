//! Code together with what is known of its places.

ghost use Rattle.std.specs.Prelude.{◌≡◌, ◌<◌, ◌+◌, ℕ, IfOk, length};
ghost use Rattle.flat_code.specs.Codes.{process_of};
ghost use Rattle.flat_code.specs.Levels.{IsLevel, layout_of, level_at};
ghost use Rattle.flat_code.specs.Plans.{SayPlaces, SayPlaces-prop};
ghost use Rattle.role_statuses.specs.PlaceLaws.{IsCodeOf};

use crate::code::Code;
use crate::levels::{Level, levels_of};
use dioc_terms::{Memory, give_up};
use std::alloc::Global;

/// Code with what is known of each of its places: as the construct around the whole it names the
/// place behind that of the whole.
pub struct Plan {
    /// The ops.
    pub code: Code,
    /// What is known of each place, from the first place of the code to that of the whole.
    pub levels: Vec<Level>,
    pub ghost longer: { length levels.items ≡ code.start + 1 },
    pub ghost says: { SayPlaces levels.items code } by { SayPlaces-prop levels.items code },
}

impl Drop for Plan {
    fn drop(self) {
        let Plan { code: _, levels: _ } = self;
    }
}

impl Plan {
    /// The code with what is known of its places. It takes time and memory by the size of the
    /// process; the error is want of memory.
    pub fn new(alloc: Global, code: Code) -> Result<Plan, Memory>
        ensures { IfOk result (λ plan. plan.code ≡ code) }
    {
        match levels_of(alloc, &code) {
            Ok(levels) => Ok(Plan { code, levels }),
            Err(fault) => give_up(code, fault),
        }
    }

    /// How many places the process of the code has.
    pub fn places(&self) -> usize
        ensures { result ≡ length self.now.levels.items }
    {
        self.levels.len()
    }

    /// What is known of a place.
    pub fn level(&self, place: usize) -> Level
        requires { place < length self.now.levels.items }
        ensures is { result ≡ level_at self.now.levels.items place }
        ensures hangs { IsLevel self.now.levels.items self.now.code.ops.items place }
    {
        self.levels[place]
    }

    /// A law: what is known of the places is what the laws on marks ask of code. It does nothing.
    pub fn is_code(&self)
        ensures { IsCodeOf (layout_of self.now.code.ops.items self.now.levels.items)
            (length self.now.levels.items) (process_of self.now.code) }
    {}

    /// A law: what is known of each place hangs together with what is known of its parts and of the
    /// construct around it. It does nothing.
    pub fn levels_hang_together(&self)
        ensures { (place : ℕ) → place < length self.now.levels.items
            → IsLevel self.now.levels.items self.now.code.ops.items place }
    {}
}

//! A role with what it can do, as an agenda has it.

ghost use Rattle.std.specs.Prelude.{◌≡◌, true};
ghost use Rattle.net_core.specs.MovesIn.{are_places};

use dioc_terms::{Act, Role};

/// A move, by where an agenda lists it.
#[derive(Clone, Copy)]
pub enum Listed {
    /// The script's next change, which stands in no agenda.
    Change,
    /// An act: the place of its role in the agenda, and the place of the act among those that the
    /// role can do.
    Act(usize, usize),
}

/// A role with the acts that it can do now.
#[derive(Drop)]
pub struct ReadyRole {
    /// The role.
    pub role: Role,
    /// The acts that its process offers, from left to right in it, takes included whether or not
    /// their message is pending.
    pub acts: Vec<Act>,
    /// The places among them of those that it can do now, from the left.
    pub ready: Vec<usize>,
    ghost inside: { are_places ready.items acts.items ≡ true },
}

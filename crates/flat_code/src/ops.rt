//! One op of flat code.

ghost use Rattle.std.specs.Prelude.{◌≡◌, List};
ghost use Rattle.dioc_terms.specs.Processes.{Process};
ghost use Rattle.flat_code.specs.Levels.{all_ended, places_of};
ghost use Rattle.flat_code.specs.Places.{op_process, part_places};
ghost use Rattle.process_steps.specs.Steps.{ended};

use dioc_terms::{Expr, Index, Keys, Messages, Name, Role, Roles, ScopeHead};

/// One construct of a process, with the places of its parts.
#[derive(Drop)]
pub enum Op {
    /// Nothing.
    Skip,
    /// Sends the value of `expr`.
    Send {
        index: Index,
        op: Name,
        to: Role,
        expr: Expr,
    },
    /// Takes a value and keeps it in `var`.
    Recv {
        index: Index,
        op: Name,
        from: Role,
        var: Name,
    },
    /// Sets `var` to the value of `expr`.
    Assign {
        index: Index,
        var: Name,
        expr: Expr,
    },
    /// Sets `var` to the next input.
    Read {
        index: Index,
        var: Name,
    },
    /// The first, and then the second.
    Seq {
        first: usize,
        second: usize,
    },
    /// Both, side by side.
    Par {
        left: usize,
        right: usize,
    },
    /// Picks a branch, and tells the others.
    IfLead {
        index: Index,
        guard: Expr,
        others: Roles,
        yes: usize,
        no: usize,
    },
    /// Takes the branch that the leader picked.
    IfFollow {
        index: Index,
        leader: Role,
        yes: usize,
        no: usize,
    },
    /// Picks before each turn, and tells the others.
    WhileLead {
        index: Index,
        guard: Expr,
        others: Roles,
        body: usize,
    },
    /// Takes before each turn whether there is one.
    WhileFollow {
        index: Index,
        leader: Role,
        body: usize,
    },
    /// Asks the book what the scope does, and tells the others.
    ScopeLead {
        head: ScopeHead,
        others: Roles,
        body: usize,
    },
    /// Takes from the leader what the scope does.
    ScopeFollow {
        index: Index,
        leader: Role,
        body: usize,
    },
    /// Sends these messages, one after another.
    Tell {
        messages: Messages,
    },
    /// Takes the messages of these keys, one after another.
    Gather {
        keys: Keys,
    },
}

/// The places of the parts of an op.
#[derive(Clone, Copy)]
pub enum PartPlaces {
    Zero,
    One(usize),
    Two(usize, usize),
}

impl Op {
    /// The places of its parts, from left to right.
    pub fn parts(&self) -> PartPlaces
        ensures { places_of result ≡ part_places self.now }
    {
        match self {
            Op::Seq { first, second } => PartPlaces::Two(*first, *second),
            Op::Par { left, right } => PartPlaces::Two(*left, *right),
            Op::IfLead { yes, no, .. } | Op::IfFollow { yes, no, .. } => {
                PartPlaces::Two(*yes, *no)
            }
            Op::WhileLead { body, .. }
            | Op::WhileFollow { body, .. }
            | Op::ScopeLead { body, .. }
            | Op::ScopeFollow { body, .. } => PartPlaces::One(*body),
            _ => PartPlaces::Zero,
        }
    }

    /// Whether nothing is left to do of it, where this says whether nothing is left to do of all of
    /// its parts.
    pub fn is_ended(&self, parts_ended: bool) -> bool
        ensures { (done : List Process) → parts_ended ≡ all_ended done (part_places self.now)
            → result ≡ ended (op_process done self.now) }
    {
        match self {
            Op::Skip => true,
            Op::Seq { .. } | Op::Par { .. } => parts_ended,
            Op::Tell { messages } => matches!(messages, Messages::Nothing),
            Op::Gather { keys } => keys.is_empty(),
            _ => false,
        }
    }
}

//! How far each construct of the code has come.

use crate::progress::Progress;
use dioc_terms::{Act, Messages, Proc, Role};
use flat_code::Plan;
use std::marker::Model;
use std::snapshot::Snapshot;

/// What runs in the place of a scope that an update replaced, or of a tell once its first message
/// is put: a process of its own, of the same role.
#[cycle(mark)]
#[derive(Drop)]
pub(crate) struct Update {
    pub me: Snapshot<Role>,
    pub state: State,
}

/// How it runs.
#[cycle(mark)]
#[derive(Drop)]
pub(crate) enum State {
    /// As it came: over no code yet.
    Came(Proc),
    /// The messages that are left of a tell, and the act that it is ready for.
    Told(Box<Messages>, Option<Snapshot<Act>>),
    /// Over code of its own.
    Runs(Plan, Progress),
}

/// How far the construct at a place of the code has come. A number says how many of the messages
/// that it tells or takes there are done.
#[cycle(mark)]
#[derive(Drop)]
pub(crate) enum Mark {
    /// Nothing was done.
    Untouched,
    /// Nothing is left to do.
    Finished,
    /// Of a sequence: in the first part.
    First,
    /// Of a sequence: in the second part.
    Second,
    /// Of a parallel: whether the left part has ended, and whether the right one has.
    Both(bool, bool),
    /// A leader tells the others, and then goes on by the flag.
    Telling(bool, usize),
    /// Of a choice: in the branch of this flag.
    Branch(bool),
    /// Of a loop or a scope: in the body.
    Body,
    /// A leader takes the ends of the others.
    Gathering(usize),
    /// A follower puts its end.
    Ending,
    /// These are the last messages that it tells.
    Left(usize),
    /// These are the last messages that it takes.
    Waiting(usize),
    /// A scope or a tell in whose place another process runs.
    Became(Box<Update>),
}

impl Model for Update {
    ghost use Rattle.std.specs.Coded.{codes};
    ghost use Rattle.flat_role.specs.ProcessCodes.{process_code};
    ghost use Rattle.flat_role.specs.Running.{Running};

    ghost Value = { Running };

    ghost coded = { Prim.hlevel (codes, process_code) };

    ghost use Rattle.flat_role.specs.Updates.{IsSound, seen};

    ghost view = { λ update. seen update.me.value update.state };

    ghost invariant = { λ update. IsSound update.me.value update.state };

    ghost size = { λ update. update.depth };

    ghost use Rattle.flat_role.specs.UpdateLaws.{none_deeper};

    ghost size_decreases = { λ update sound. none_deeper update.state };
}

//! Bundles: a choreography with its rules, environment, inputs, script of changes and trace.

use crate::choreographies::Choreo;
use crate::expressions::Expr;
use crate::lists::{Bindings, Entries, Items, Roles, Values};
use crate::names::{Name, Role};
use crate::values::Value;

/// A rule: its body replaces a scope where its condition holds.
pub struct Rule {
    /// Its name.
    pub name: Name,
    /// Of the rules that fit a scope, the first of those with the greatest priority is chosen.
    pub priority: i32,
    /// Its condition.
    pub cond: Expr,
    /// What replaces the scope.
    pub body: Choreo,
}

impl Drop for Rule {
    fn drop(self) {
        let Rule {
            name: _,
            priority: _,
            cond: _,
            body: _,
        } = self;
    }
}

/// A change of the rule book or of the environment. `Add(n)` adds rule n of the bundle.
pub enum Change {
    /// The rule of that number in the bundle is added.
    Add(u32),
    /// The rule of that name is dropped.
    Drop(Name),
    /// The key is set to the value.
    Env(Name, Value),
}

impl Drop for Change {
    fn drop(self) {
        match self {
            Change::Add(_) => {}
            Change::Drop(_) => {}
            Change::Env(_, _) => {}
        }
    }
}

/// A change that may come once so many visible entries stand.
pub struct Timed {
    /// So many visible entries must stand.
    pub after: u64,
    /// The change.
    pub change: Change,
}

impl Drop for Timed {
    fn drop(self) {
        let Timed {
            after: _,
            change: _,
        } = self;
    }
}

/// The last line of a trace: the number of all entries, and whether the run ended or was stopped.
#[derive(Drop)]
pub enum Last {
    /// The run ended after so many entries.
    Ended(u64),
    /// It was stopped after so many entries.
    Stopped(u64),
}

/// A trace as it is written in a bundle.
#[derive(Drop)]
pub struct Trace {
    /// The entries, in their order.
    pub entries: Entries,
    /// The last line, where the trace has one.
    pub last: Option<Last>,
}

/// A whole input. `rules` are those of the `rules` sections, `opening` of them, and then the
/// script's adds.
pub struct Bundle {
    /// 1 or 2. Version 1 knows neither named roles of a scope nor priorities.
    pub version: u32,
    /// The roles of the choreography, in the order in which its text first names them.
    pub cast: Roles,
    /// The choreography.
    pub choreo: Choreo,
    /// All rules, by their numbers.
    pub rules: Items<Rule>,
    /// How many of the rules are in the book from the start.
    pub opening: u32,
    /// The environment from the start.
    pub env: Bindings,
    /// The inputs that are handed to roles.
    pub inputs: Items<(Role, Values)>,
    /// The changes, in their order.
    pub script: Items<Timed>,
    /// A trace to be judged.
    pub trace: Trace,
}

impl Drop for Bundle {
    fn drop(self) {
        let Bundle {
            version: _,
            cast: _,
            choreo: _,
            rules: _,
            opening: _,
            env: _,
            inputs: _,
            script: _,
            trace: _,
        } = self;
    }
}

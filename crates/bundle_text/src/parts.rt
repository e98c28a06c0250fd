//! The parts of a bundle.

ghost use Rattle.std.specs.Prelude.{◌≡◌, IfOk};
ghost use Rattle.rule_syntax.specs.Grammar.{plain_change};
ghost use Rattle.bundle_text.specs.Grammar.{nothing_joined};
ghost use Rattle.bundle_text.specs.Readers.{found_in, plain_kept};

use dioc_terms::{Choreo, Memory, Name, Role, Rule, Trace, Value, Values, new_box};
use rule_syntax::ReadChange;
use std::alloc::Global;

/// A change of a script as it is kept until all sections are read. A rule lies in a box, so that
/// the other changes take no room for one.
#[derive(Drop)]
pub enum KeptChange {
    Add(Box<Rule>),
    Drop(Name),
    Env(Name, Value),
}

impl KeptChange {
    /// What is kept of a change that was read.
    pub fn new(alloc: Global, change: ReadChange) -> Result<KeptChange, Memory>
        ensures { IfOk result (λ kept. plain_kept kept ≡ plain_change change) }
    {
        match change {
            ReadChange::Add(rule) => Ok(KeptChange::Add(new_box(alloc, rule)?)),
            ReadChange::Drop(name) => Ok(KeptChange::Drop(name)),
            ReadChange::Env(key, value) => Ok(KeptChange::Env(key, value)),
        }
    }
}

/// A change of a script with the number of visible entries that must stand before it.
#[derive(Drop)]
pub struct ReadTimed {
    pub after: u64,
    pub change: KeptChange,
}

/// What the sections so far have, those of one kind joined in their order.
#[derive(Drop)]
pub struct Parts {
    pub choreo: Option<Choreo>,
    pub rules: Vec<Rule>,
    pub env: Vec<(Name, Value)>,
    pub inputs: Vec<(Role, Values)>,
    pub script: Vec<ReadTimed>,
    pub trace: Option<Trace>,
}

impl Parts {
    /// No section.
    pub fn new(alloc: Global) -> Parts
        ensures { found_in result ≡ nothing_joined }
    {
        Parts {
            choreo: None,
            rules: Vec::new(alloc),
            env: Vec::new(alloc),
            inputs: Vec::new(alloc),
            script: Vec::new(alloc),
            trace: None,
        }
    }
}

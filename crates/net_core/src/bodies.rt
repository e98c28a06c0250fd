//! What a net keeps of the rules and of the script.

use dioc_terms::{Change, Choreo, Entry, Name};

/// What replaces a scope: the name and the body of a rule.
pub struct RuleBody {
    pub name: Name,
    pub body: Choreo,
}

impl Drop for RuleBody {
    fn drop(self) {
        let RuleBody { name: _, body: _ } = self;
    }
}

/// A change of the script, with the entry that it shows.
#[derive(Drop)]
pub struct Coming {
    pub after: u64,
    pub change: Change,
    pub entry: Entry,
}

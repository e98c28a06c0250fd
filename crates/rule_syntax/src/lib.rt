//! The syntax of rules and of changes.
#![tactic(auto)]

mod bindings;
mod changes;
mod laws;
mod parts;
mod priorities;
mod rules;
mod writer;

pub use bindings::binding_at;
pub use changes::{ReadChange, change_at, read_change};
pub use laws::{one_change, one_rule, read_is_formed, written_is_read, written_is_spelled};
pub use rules::{read_rule, rule_at};
pub use writer::write_rule;

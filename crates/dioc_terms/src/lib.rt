//! What every other crate speaks of: names, values, terms, processes, messages, entries and
//! bundles.
#![tactic(auto)]

mod borrowed;
mod bundles;
mod choreographies;
mod copies;
mod entries;
mod equality;
mod evaluation;
mod expressions;
mod faults;
mod forms;
mod lists;
mod mentions;
mod names;
mod processes;
mod rule_laws;
mod stamps;
mod stores;
mod term_laws;
mod values;
mod visibility;

pub use bundles::{Bundle, Change, Last, Rule, Timed, Trace};
pub use choreographies::Choreo;
pub use copies::{TryCopy, give_up, new_box, new_boxes};
pub use entries::{Act, Chosen, Entry, Note};
pub use equality::equality_decides;
pub use evaluation::{conditions_join_nothing, eval, test};
pub use expressions::{Expr, Oper};
pub use faults::{Memory, NameFault, SyntaxFault, TextFault};
pub use lists::{Bindings, Entries, Items, Keys, Roles, Values};
pub use mentions::{names_role, roles};
pub use names::{Index, Name, Role, Text, is_among};
pub use processes::{Key, Messages, Parts, Payload, Proc, ScopeHead, Tag};
pub use rule_laws::{adds_go_on, choices_go_on};
pub use stamps::stamped;
pub use stores::Store;
pub use term_laws::{casts_are_roles, mentions_are_roles, stamped_bodies};
pub use values::Value;

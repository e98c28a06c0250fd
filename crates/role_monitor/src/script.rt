//! Changes of the script, as a trace shows them.

ghost use Rattle.std.specs.Prelude.{◌≡◌, ℕ, List, map};
ghost use Rattle.dioc_terms.specs.declared.entries.Entry.TheVariants as entries;
ghost use Rattle.dioc_terms.specs.declared.processes.Key.{Key as OneKey};
ghost use Rattle.dioc_terms.specs.Equality.{entry_eq};
ghost use Rattle.dioc_terms.specs.Plain.{plain, plain_rule, setting};
ghost use Rattle.dioc_terms.specs.Processes.{Load};
ghost use Rattle.dpoc_process.specs.LocalStates.{LocalState};
ghost use Rattle.global_steps.specs.Follow.{shows};
ghost use Rattle.role_monitor.specs.declared.updates.Update.{Update as OneUpdate};
ghost use Rattle.role_monitor.specs.Judging.{HoldsScript, monitor_state};
ghost use Rattle.role_monitor.specs.Monitoring.{change_noted};
ghost use Rattle.rule_book.specs.KeptBooks.{book_of};

use dioc_terms::{Bundle, Change, Entry, Name, Rule, Value};
use rule_book::Book;

/// Makes the script's next change, where the entry shows it; every other one changes nothing. It
/// takes no memory.
pub(crate) fn see_change(bundle: &Bundle, changes: &mut usize, book: &mut Book, entry: &Entry)
    requires { HoldsScript (plain bundle.now) book.old changes.old }
    ensures seen { (s : LocalState) (pending : List (OneKey × Load)) (us : List OneUpdate)
        → change_noted (setting (plain bundle.now))
        (monitor_state s pending (book_of book.old) changes.old us) entry.now
        ≡ monitor_state s pending (book_of book.new) changes.new us }
    ensures script { HoldsScript (plain bundle.now) book.new changes.new }
{
    let Some(timed) = bundle.script.as_slice().get(*changes) else {
        return;
    };
    if shows(bundle.rules.as_slice(), entry, &timed.change) {
        book.apply(&timed.change);
        *changes += 1;
    }
}

/// Whether the entry shows the change.
fn shows(rules: &[Rule], entry: &Entry, change: &Change) -> bool
    ensures { result ≡ shows (map plain_rule rules.now) entry.now change.now }
{
    match change {
        Change::Add(number) => match rules.get(*number as usize) {
            Some(rule) => entry.is_add(&rule.name),
            None => false,
        },
        Change::Drop(name) => entry.is_drop(name),
        Change::Env(key, value) => entry.is_env(key, value),
    }
}

//! Whether an entry shows what a construct does: the construct's index and role, and the very value
//! that the construct gives.

ghost use Rattle.std.specs.Prelude.{◌≡◌, ◌<◌, false, IfOk, None, Some, if◌then◌else◌};
ghost use Rattle.std.specs.Option.{option_copied, option_map_or};
ghost use Rattle.dioc_terms.specs.declared.entries.Chosen.{Chosen as OneChoice};
ghost use Rattle.dioc_terms.specs.declared.entries.Entry.TheVariants as entries;
ghost use Rattle.dioc_terms.specs.declared.entries.Note.TheVariants as notes;
ghost use Rattle.dioc_terms.specs.declared.processes.Tag.TheVariants as tags;
ghost use Rattle.dioc_terms.specs.Equality.{chosen_eq, entry_eq, key_eq, note_eq, tag_eq, variable_eq};
ghost use Rattle.dioc_terms.specs.Expressions.{expression};
ghost use Rattle.dioc_terms.specs.KeptStores.{store_of};
ghost use Rattle.dioc_terms.specs.Messages.{doer};
ghost use Rattle.dioc_terms.specs.Stores.{next_input};
ghost use Rattle.dioc_terms.specs.Values.{eval, is_true};
ghost use Rattle.global_follower.specs.KeptBooks.{rules_of};
ghost use Rattle.global_follower.specs.Shown.{key_of, where_shown};
ghost use Rattle.global_steps.specs.Follow.{shows, updates_after};

use crate::rules::RuleList;
use crate::running::Message;
use dioc_terms::{
    Change, Chosen, Entry, Expr, Index, Key, Memory, Name, Note, Role, Store, Tag, Value, eval,
};
use std::alloc::Global;

/// The value of the expression, where the entry puts the message with it.
pub(crate) fn put_value(
    alloc: Global,
    entry: &Entry,
    message: Message<'_>,
    expr: &Expr,
    store: &Store,
) -> Result<Option<Value>, Memory>
    ensures { IfOk result (λ sent. sent ≡ where_shown entry.now
        (entries.Put (key_of message.entry)
        (notes.Val (eval (expression expr.now) (store_of store.now))))
        (eval (expression expr.now) (store_of store.now))) }
{
    match entry {
        Entry::Put { key, note } if is_key_of(key, message) => {
            let value = eval(alloc, expr, store)?;
            Ok(where_true(is_value(note, &value), value))
        }
        _ => Ok(None),
    }
}

/// Whether the entry takes the message into the variable.
pub(crate) fn is_take(entry: &Entry, message: Message<'_>, var: &Name) -> bool
    ensures { result ≡ entry_eq entry.now (entries.Take (key_of message.entry) (Some var.now)) }
{
    match entry {
        Entry::Take { key, var: shown } => is_key_of(key, message) && is_variable(shown, var),
        _ => false,
    }
}

/// The value of the expression, where the entry sets the variable to it.
pub(crate) fn set_value(
    alloc: Global,
    entry: &Entry,
    index: Index,
    var: &Name,
    role: &Role,
    expr: &Expr,
    store: &Store,
) -> Result<Option<Value>, Memory>
    ensures { IfOk result (λ set. set ≡ where_shown entry.now
        (entries.Set index role.now var.now (eval (expression expr.now) (store_of store.now)))
        (eval (expression expr.now) (store_of store.now))) }
{
    match entry {
        Entry::Set {
            index: at,
            role: doer,
            var: place,
            value: shown,
        } if *at == index && doer == role && place == var => {
            let value = eval(alloc, expr, store)?;
            Ok(where_true(*shown == value, value))
        }
        _ => Ok(None),
    }
}

/// The next input, where the entry sets the variable to it.
pub(crate) fn input_value(
    alloc: Global,
    entry: &Entry,
    index: Index,
    var: &Name,
    role: &Role,
    store: &Store,
) -> Result<Option<Value>, Memory>
    ensures { IfOk result (λ input. input ≡ where_shown entry.now
        (entries.Input index role.now var.now (next_input (store_of store.now)))
        (next_input (store_of store.now))) }
{
    match entry {
        Entry::Input {
            index: at,
            role: doer,
            var: place,
            value: shown,
        } if *at == index && doer == role && place == var => {
            let value = store.copy_of_next_input(alloc)?;
            Ok(where_true(*shown == value, value))
        }
        _ => Ok(None),
    }
}

/// Whether the guard holds, where the entry picks by it.
pub(crate) fn picked(
    alloc: Global,
    entry: &Entry,
    index: Index,
    leader: &Role,
    guard: &Expr,
    store: &Store,
) -> Result<Option<bool>, Memory>
    ensures { IfOk result (λ picked. picked ≡ where_shown entry.now
        (entries.Pick index leader.now (is_true (eval (expression guard.now) (store_of store.now))))
        (is_true (eval (expression guard.now) (store_of store.now)))) }
{
    match entry {
        Entry::Pick {
            index: at,
            role: doer,
            flag: shown,
        } if *at == index && doer == leader => {
            let flag = is_true(&eval(alloc, guard, store)?);
            Ok(if *shown == flag { Some(flag) } else { None })
        }
        _ => Ok(None),
    }
}

/// What the leader of the scope chose, where the entry shows its choice.
pub(crate) fn choice<'e>(entry: &'e Entry, index: Index, leader: &Role) -> Option<&'e Chosen>
    ensures { (choice : OneChoice) → entry_eq entry.now (entries.Scope index leader.now choice)
        ≡ option_map_or (λ shown. chosen_eq shown.now choice) result false }
{
    match entry {
        Entry::Scope {
            index: at,
            role: doer,
            chosen,
        } if *at == index && doer == leader => Some(chosen),
        _ => None,
    }
}

/// The value, where the test is true.
fn where_true(test: bool, value: Value) -> Option<Value>
    ensures { result ≡ (if test then Some value else None) }
{
    if test {
        return Some(value);
    }
    None
}

/// Whether it is the key of the message.
fn is_key_of(key: &Key, message: Message<'_>) -> bool
    ensures { result ≡ key_eq key.now (key_of message.entry) }
{
    key.index == message.index
        && is_tag_of(&key.tag, message.op)
        && key.from == *message.from
        && key.to == *message.to
}

fn is_tag_of(tag: &Tag, op: &Name) -> bool
    ensures { result ≡ tag_eq tag.now (tags.Op op.now) }
{
    match tag {
        Tag::Op(name) => name == op,
        _ => false,
    }
}

/// Whether the note is that of the value.
fn is_value(note: &Note, value: &Value) -> bool
    ensures { result ≡ note_eq note.now (notes.Val value.now) }
{
    match note {
        Note::Val(shown) => shown == value,
        _ => false,
    }
}

fn is_variable(shown: &Option<Name>, var: &Name) -> bool
    ensures { result ≡ variable_eq shown.now (Some var.now) }
{
    match shown {
        Some(name) => name == var,
        None => false,
    }
}

fn is_true(value: &Value) -> bool
    ensures { result ≡ is_true value.now }
{
    match value {
        Value::Bool(flag) => *flag,
        _ => false,
    }
}

/// Whether the entry shows the change.
pub(crate) fn shows(rules: RuleList<'_>, entry: &Entry, change: &Change) -> bool
    ensures { result ≡ shows (rules_of rules.entry) entry.now change.now }
{
    match change {
        Change::Add(number) => match rules.get(*number) {
            Some(rule) => entry.is_add(&rule.name),
            None => false,
        },
        Change::Drop(name) => entry.is_drop(name),
        Change::Env(key, value) => entry.is_env(key, value),
    }
}

/// The number of updates once the entry is played.
pub(crate) fn updates_after(entry: &Entry, updates: u64) -> u64
    requires { updates < 18446744073709551615 }
    ensures { result ≡ updates_after entry.now updates }
{
    match entry {
        Entry::Scope { chosen, .. } => match chosen {
            Chosen::Rule { .. } => updates + 1,
            Chosen::Keep => updates,
        },
        _ => updates,
    }
}

//! Entries of a history, and acts of a role.

ghost use Rattle.std.specs.Prelude.{◌≡◌, IfOk, Option};
ghost use Rattle.std.specs.Option.{option_copied};
ghost use Rattle.dioc_terms.specs.declared.entries.Entry.TheVariants as entry;
ghost use Rattle.dioc_terms.specs.declared.entries.Note.{Note as OneNote};
ghost use Rattle.dioc_terms.specs.declared.names.Name.{Name as OneName};
ghost use Rattle.dioc_terms.specs.declared.processes.Key.{Key as OneKey};
ghost use Rattle.dioc_terms.specs.Equality.{entry_eq, variable_eq};
ghost use Rattle.dioc_terms.specs.Messages.{doer};

use crate::copies::copy_both;
use crate::faults::Memory;
use crate::names::{Index, Name, Role};
use crate::processes::{Key, Payload, Proc};
use crate::values::Value;
use std::alloc::Global;

/// What an entry shows of a payload: of an update's part its epoch alone.
pub enum Note {
    /// The value of an operation.
    Val(Value),
    /// Which branch, or whether there is another turn.
    Flag(bool),
    /// The scope keeps its body.
    Keep,
    /// A part of the update of this number.
    Part(u32),
    /// Nothing but its tag.
    Done,
}

impl Drop for Note {
    fn drop(self) {
        match self {
            Note::Val(_) => {}
            Note::Flag(_) => {}
            Note::Keep => {}
            Note::Part(_) => {}
            Note::Done => {}
        }
    }
}

impl Note {
    ghost use Rattle.dioc_terms.specs.Processes.{load, noted_load, process};

    /// The message that is noted so, with the process that it brings where it is a part of an
    /// update.
    pub fn into_payload(self, proc: Proc) -> Payload
        ensures { load result ≡ noted_load self (process proc) }
    {
        match self {
            Note::Val(value) => Payload::Val(value),
            Note::Flag(flag) => Payload::Flag(flag),
            Note::Keep => Payload::Keep,
            Note::Part(epoch) => Payload::Part { epoch, proc },
            Note::Done => Payload::Done,
        }
    }

    /// A copy, the same note.
    pub fn copy(&self, alloc: Global) -> Result<Note, Memory>
        ensures { IfOk result (λ copy. copy ≡ self.now) }
    {
        match self {
            Note::Val(value) => Ok(Note::Val(value.copy(alloc)?)),
            Note::Flag(flag) => Ok(Note::Flag(*flag)),
            Note::Keep => Ok(Note::Keep),
            Note::Part(epoch) => Ok(Note::Part(*epoch)),
            Note::Done => Ok(Note::Done),
        }
    }
}

impl PartialEq for Note {
    ghost use Rattle.dioc_terms.specs.Equality.{note_eq};
    ghost use Rattle.dioc_terms.specs.EqualityLemmas.{equivalence_from_Decides, note_eq-decides};
    ghost use Rattle.std.specs.Cmp.{partial_equiv_from_equiv};

    ghost eq = { note_eq };

    ghost laws = { partial_equiv_from_equiv (equivalence_from_Decides note_eq note_eq-decides) };

    fn eq(&self, other: &Note) -> bool {
        match (self, other) {
            (Note::Val(mine), Note::Val(theirs)) => mine == theirs,
            (Note::Flag(mine), Note::Flag(theirs)) => mine == theirs,
            (Note::Keep, Note::Keep) | (Note::Done, Note::Done) => true,
            (Note::Part(mine), Note::Part(theirs)) => mine == theirs,
            _ => false,
        }
    }
}

impl Eq for Note {
    ghost use Rattle.dioc_terms.specs.Equality.{note_eq};
    ghost use Rattle.dioc_terms.specs.EqualityLemmas.{equivalence_from_Decides, note_eq-decides};

    ghost laws = { equivalence_from_Decides note_eq note_eq-decides };
}

/// What the leader of a scope chose.
pub enum Chosen {
    /// To keep its body.
    Keep,
    /// The body of the rule of that name, as the update of that number.
    Rule { name: Name, epoch: u32 },
}

impl Drop for Chosen {
    fn drop(self) {
        match self {
            Chosen::Keep => {}
            Chosen::Rule { name: _, epoch: _ } => {}
        }
    }
}

impl Chosen {
    /// A copy, the same choice.
    pub fn copy(&self, alloc: Global) -> Result<Chosen, Memory>
        ensures { IfOk result (λ copy. copy ≡ self.now) }
    {
        match self {
            Chosen::Keep => Ok(Chosen::Keep),
            Chosen::Rule { name, epoch } => Ok(Chosen::Rule {
                name: name.copy(alloc)?,
                epoch: *epoch,
            }),
        }
    }
}

impl PartialEq for Chosen {
    ghost use Rattle.dioc_terms.specs.Equality.{chosen_eq};
    ghost use Rattle.dioc_terms.specs.EqualityLemmas.{equivalence_from_Decides, chosen_eq-decides as decides};
    ghost use Rattle.std.specs.Cmp.{partial_equiv_from_equiv};

    ghost eq = { chosen_eq };

    ghost laws = { partial_equiv_from_equiv (equivalence_from_Decides chosen_eq decides) };

    fn eq(&self, other: &Chosen) -> bool {
        match (self, other) {
            (Chosen::Keep, Chosen::Keep) => true,
            (
                Chosen::Rule {
                    name: mine,
                    epoch: my_epoch,
                },
                Chosen::Rule {
                    name: theirs,
                    epoch,
                },
            ) => { mine == theirs && my_epoch == epoch }
            _ => false,
        }
    }
}

impl Eq for Chosen {
    ghost use Rattle.dioc_terms.specs.Equality.{chosen_eq};
    ghost use Rattle.dioc_terms.specs.EqualityLemmas.{equivalence_from_Decides, chosen_eq-decides};

    ghost laws = { equivalence_from_Decides chosen_eq chosen_eq-decides };
}

/// One step of a run.
pub enum Entry {
    /// A role sent a message.
    Put {
        key: Key,
        note: Note,
    },
    /// A role took a message, and kept its value in `var` where it has one.
    Take {
        key: Key,
        var: Option<Name>,
    },
    /// A role set a variable.
    Set {
        index: Index,
        role: Role,
        var: Name,
        value: Value,
    },
    /// A role set a variable to an input.
    Input {
        index: Index,
        role: Role,
        var: Name,
        value: Value,
    },
    /// A role picked by a guard.
    Pick {
        index: Index,
        role: Role,
        flag: bool,
    },
    /// The leader of a scope chose.
    Scope {
        index: Index,
        role: Role,
        chosen: Chosen,
    },
    /// A rule was added.
    Add {
        name: Name,
    },
    /// A rule was dropped.
    Drop {
        name: Name,
    },
    /// A key of the environment was set.
    Env {
        key: Name,
        value: Value,
    },
}

impl Drop for Entry {
    fn drop(self) {
        match self {
            Entry::Put { key: _, note: _ } => {}
            Entry::Take { key: _, var: _ } => {}
            Entry::Set {
                index: _,
                role: _,
                var: _,
                value: _,
            } => {}
            Entry::Input {
                index: _,
                role: _,
                var: _,
                value: _,
            } => {}
            Entry::Pick {
                index: _,
                role: _,
                flag: _,
            } => {}
            Entry::Scope {
                index: _,
                role: _,
                chosen: _,
            } => {}
            Entry::Add { name: _ } => {}
            Entry::Drop { name: _ } => {}
            Entry::Env { key: _, value: _ } => {}
        }
    }
}

impl Entry {
    /// The key of a take, and the variable in which it keeps what came, if in one.
    pub fn into_take(self) -> (Key, Option<Name>)
        requires take { (key : OneKey) × (var : Option OneName) × (self ≡ entry.Take key var) }
        ensures take { self ≡ entry.Take result.0 result.1 }
    {
        match self {
            Entry::Take { key, var } => (key, var),
            _ => unreachable!(),
        }
    }

    /// The key of a put, and what is noted of its message.
    pub fn into_put(self) -> (Key, Note)
        requires put { (key : OneKey) × (note : OneNote) × (self ≡ entry.Put key note) }
        ensures put { self ≡ entry.Put result.0 result.1 }
    {
        match self {
            Entry::Put { key, note } => (key, note),
            _ => unreachable!(),
        }
    }

    /// The role of an entry: the sender of a put, the receiver of a take, else the acting role. A
    /// change has none.
    pub fn doer(&self) -> Option<&Role>
        ensures { option_copied result ≡ doer self.now }
    {
        match self {
            Entry::Put { key, .. } => Some(&key.from),
            Entry::Take { key, .. } => Some(&key.to),
            Entry::Set { role, .. }
            | Entry::Input { role, .. }
            | Entry::Pick { role, .. }
            | Entry::Scope { role, .. } => Some(role),
            Entry::Add { .. } | Entry::Drop { .. } | Entry::Env { .. } => None,
        }
    }

    /// A copy, the same entry.
    pub fn copy(&self, alloc: Global) -> Result<Entry, Memory>
        ensures { IfOk result (λ copy. copy ≡ self.now) }
    {
        match self {
            Entry::Put { key, note } => copy_of_put(alloc, key, note),
            Entry::Take { key, var } => copy_of_take(alloc, key, var),
            Entry::Set {
                index,
                role,
                var,
                value,
            } => copy_of_set(alloc, *index, role, var, value),
            Entry::Input {
                index,
                role,
                var,
                value,
            } => copy_of_input(alloc, *index, role, var, value),
            Entry::Pick { index, role, flag } => copy_of_pick(alloc, *index, role, *flag),
            Entry::Scope {
                index,
                role,
                chosen,
            } => copy_of_scope(alloc, *index, role, chosen),
            Entry::Add { name } => Ok(Entry::Add {
                name: name.copy(alloc)?,
            }),
            Entry::Drop { name } => Ok(Entry::Drop {
                name: name.copy(alloc)?,
            }),
            Entry::Env { key, value } => copy_of_env(alloc, key, value),
        }
    }
}

fn copy_of_put(alloc: Global, key: &Key, note: &Note) -> Result<Entry, Memory>
    ensures { IfOk result (λ copy. copy ≡ entry.Put key.now note.now) }
{
    Ok(Entry::Put {
        key: key.copy(alloc)?,
        note: note.copy(alloc)?,
    })
}

fn copy_of_take(alloc: Global, key: &Key, var: &Option<Name>) -> Result<Entry, Memory>
    ensures { IfOk result (λ copy. copy ≡ entry.Take key.now var.now) }
{
    Ok(Entry::Take {
        key: key.copy(alloc)?,
        var: copy_of_variable(alloc, var)?,
    })
}

fn copy_of_set(
    alloc: Global,
    index: Index,
    role: &Role,
    var: &Name,
    value: &Value,
) -> Result<Entry, Memory>
    ensures { IfOk result (λ copy. copy ≡ entry.Set index role.now var.now value.now) }
{
    let role = role.copy(alloc)?;
    let (var, value) = copy_both(alloc, var, value)?;
    Ok(Entry::Set {
        index,
        role,
        var,
        value,
    })
}

fn copy_of_input(
    alloc: Global,
    index: Index,
    role: &Role,
    var: &Name,
    value: &Value,
) -> Result<Entry, Memory>
    ensures { IfOk result (λ copy. copy ≡ entry.Input index role.now var.now value.now) }
{
    let role = role.copy(alloc)?;
    let (var, value) = copy_both(alloc, var, value)?;
    Ok(Entry::Input {
        index,
        role,
        var,
        value,
    })
}

fn copy_of_pick(alloc: Global, index: Index, role: &Role, flag: bool) -> Result<Entry, Memory>
    ensures { IfOk result (λ copy. copy ≡ entry.Pick index role.now flag) }
{
    Ok(Entry::Pick {
        index,
        role: role.copy(alloc)?,
        flag,
    })
}

fn copy_of_scope(alloc: Global, index: Index, role: &Role, chosen: &Chosen) -> Result<Entry, Memory>
    ensures { IfOk result (λ copy. copy ≡ entry.Scope index role.now chosen.now) }
{
    Ok(Entry::Scope {
        index,
        role: role.copy(alloc)?,
        chosen: chosen.copy(alloc)?,
    })
}

fn copy_of_env(alloc: Global, key: &Name, value: &Value) -> Result<Entry, Memory>
    ensures { IfOk result (λ copy. copy ≡ entry.Env key.now value.now) }
{
    Ok(Entry::Env {
        key: key.copy(alloc)?,
        value: value.copy(alloc)?,
    })
}

impl PartialEq for Entry {
    ghost use Rattle.dioc_terms.specs.Equality.{entry_eq};
    ghost use Rattle.dioc_terms.specs.EqualityLemmas.{equivalence_from_Decides, entry_eq-decides};
    ghost use Rattle.std.specs.Cmp.{partial_equiv_from_equiv};

    ghost eq = { entry_eq };

    ghost laws = { partial_equiv_from_equiv (equivalence_from_Decides entry_eq entry_eq-decides) };

    fn eq(&self, other: &Entry) -> bool {
        match other {
            Entry::Put { key, note } => self.is_put(key, note),
            Entry::Take { key, var } => self.is_take(key, var),
            Entry::Set {
                index,
                role,
                var,
                value,
            } => self.is_set(*index, role, var, value),
            Entry::Input {
                index,
                role,
                var,
                value,
            } => self.is_input(*index, role, var, value),
            Entry::Pick { index, role, flag } => self.is_pick(*index, role, *flag),
            Entry::Scope {
                index,
                role,
                chosen,
            } => self.is_scope(*index, role, chosen),
            Entry::Add { name } => self.is_add(name),
            Entry::Drop { name } => self.is_drop(name),
            Entry::Env { key, value } => self.is_env(key, value),
        }
    }
}

impl Eq for Entry {
    ghost use Rattle.dioc_terms.specs.Equality.{entry_eq};
    ghost use Rattle.dioc_terms.specs.EqualityLemmas.{equivalence_from_Decides, entry_eq-decides};

    ghost laws = { equivalence_from_Decides entry_eq entry_eq-decides };
}

/// Whether an entry is the one of that kind with these parts.
impl Entry {
    ghost use Rattle.dioc_terms.specs.Equality.{entry_eq};

    fn is_put(&self, key: &Key, note: &Note) -> bool
        ensures { result ≡ entry_eq self.now (entry.Put key.now note.now) }
    {
        match self {
            Entry::Put {
                key: its_key,
                note: its_note,
            } => its_key == key && its_note == note,
            _ => false,
        }
    }

    fn is_take(&self, key: &Key, var: &Option<Name>) -> bool
        ensures { result ≡ entry_eq self.now (entry.Take key.now var.now) }
    {
        match self {
            Entry::Take {
                key: its_key,
                var: its_var,
            } => its_key == key && is_same_variable(its_var, var),
            _ => false,
        }
    }

    fn is_set(&self, index: Index, role: &Role, var: &Name, value: &Value) -> bool
        ensures { result ≡ entry_eq self.now (entry.Set index role.now var.now value.now) }
    {
        match self {
            Entry::Set {
                index: its_index,
                role: its_role,
                var: its_var,
                value: its_value,
            } => *its_index == index && its_role == role && its_var == var && its_value == value,
            _ => false,
        }
    }

    fn is_input(&self, index: Index, role: &Role, var: &Name, value: &Value) -> bool
        ensures { result ≡ entry_eq self.now (entry.Input index role.now var.now value.now) }
    {
        match self {
            Entry::Input {
                index: its_index,
                role: its_role,
                var: its_var,
                value: its_value,
            } => *its_index == index && its_role == role && its_var == var && its_value == value,
            _ => false,
        }
    }

    fn is_pick(&self, index: Index, role: &Role, flag: bool) -> bool
        ensures { result ≡ entry_eq self.now (entry.Pick index role.now flag) }
    {
        match self {
            Entry::Pick {
                index: its_index,
                role: its_role,
                flag: its_flag,
            } => *its_index == index && its_role == role && *its_flag == flag,
            _ => false,
        }
    }

    fn is_scope(&self, index: Index, role: &Role, chosen: &Chosen) -> bool
        ensures { result ≡ entry_eq self.now (entry.Scope index role.now chosen.now) }
    {
        match self {
            Entry::Scope {
                index: its_index,
                role: its_role,
                chosen: its_chosen,
            } => *its_index == index && its_role == role && its_chosen == chosen,
            _ => false,
        }
    }

    /// Whether the entry says that this rule is added.
    pub fn is_add(&self, name: &Name) -> bool
        ensures { result ≡ entry_eq self.now (entry.Add name.now) }
    {
        match self {
            Entry::Add { name: its_name } => its_name == name,
            _ => false,
        }
    }

    /// Whether the entry says that this rule is dropped.
    pub fn is_drop(&self, name: &Name) -> bool
        ensures { result ≡ entry_eq self.now (entry.Drop name.now) }
    {
        match self {
            Entry::Drop { name: its_name } => its_name == name,
            _ => false,
        }
    }

    /// Whether the entry says that the environment has this value at this key.
    pub fn is_env(&self, key: &Name, value: &Value) -> bool
        ensures { result ≡ entry_eq self.now (entry.Env key.now value.now) }
    {
        match self {
            Entry::Env {
                key: its_key,
                value: its_value,
            } => its_key == key && its_value == value,
            _ => false,
        }
    }
}

fn copy_of_variable(alloc: Global, variable: &Option<Name>) -> Result<Option<Name>, Memory>
    ensures { IfOk result (λ copy. copy ≡ variable.now) }
{
    match variable {
        None => Ok(None),
        Some(name) => Ok(Some(name.copy(alloc)?)),
    }
}

fn is_same_variable(mine: &Option<Name>, theirs: &Option<Name>) -> bool
    ensures { result ≡ variable_eq mine.now theirs.now }
{
    match (mine, theirs) {
        (None, None) => true,
        (Some(mine), Some(theirs)) => mine == theirs,
        _ => false,
    }
}

/// What a process can do next.
#[derive(Drop)]
pub enum Act {
    /// To send the message of this key.
    Put(Key),
    /// To take the message of this key.
    Take(Key),
    /// To set the variable of this construct.
    Set(Index),
    /// To read the input of this construct.
    Input(Index),
    /// To pick by the guard of this construct.
    Pick(Index),
    /// To choose for this scope.
    Scope(Index),
}

impl Act {
    /// A copy, the same act.
    pub fn copy(&self, alloc: Global) -> Result<Act, Memory>
        ensures { IfOk result (λ copy. copy ≡ self.now) }
    {
        match self {
            Act::Put(key) => Ok(Act::Put(key.copy(alloc)?)),
            Act::Take(key) => Ok(Act::Take(key.copy(alloc)?)),
            Act::Set(index) => Ok(Act::Set(*index)),
            Act::Input(index) => Ok(Act::Input(*index)),
            Act::Pick(index) => Ok(Act::Pick(*index)),
            Act::Scope(index) => Ok(Act::Scope(*index)),
        }
    }
}

impl PartialEq for Act {
    ghost use Rattle.dioc_terms.specs.Equality.{act_eq};
    ghost use Rattle.dioc_terms.specs.EqualityLemmas.{equivalence_from_Decides, act_eq-decides};
    ghost use Rattle.std.specs.Cmp.{partial_equiv_from_equiv};

    ghost eq = { act_eq };

    ghost laws = { partial_equiv_from_equiv (equivalence_from_Decides act_eq act_eq-decides) };

    fn eq(&self, other: &Act) -> bool {
        match (self, other) {
            (Act::Put(mine), Act::Put(theirs)) => mine == theirs,
            (Act::Take(mine), Act::Take(theirs)) => mine == theirs,
            (Act::Set(mine), Act::Set(theirs)) => mine == theirs,
            (Act::Input(mine), Act::Input(theirs)) => mine == theirs,
            (Act::Pick(mine), Act::Pick(theirs)) => mine == theirs,
            (Act::Scope(mine), Act::Scope(theirs)) => mine == theirs,
            _ => false,
        }
    }
}

impl Eq for Act {
    ghost use Rattle.dioc_terms.specs.Equality.{act_eq};
    ghost use Rattle.dioc_terms.specs.EqualityLemmas.{equivalence_from_Decides, act_eq-decides};

    ghost laws = { equivalence_from_Decides act_eq act_eq-decides };
}

//! What the first entries of a trace have left, as far as the next ones show it.

use dioc_terms::{
    Bundle, Change, Choreo, Chosen, Entry, Expr, Index, Key, Memory, Name, Note, Role, Store, Tag,
    Value, Values, eval,
};
use std::alloc::Global;

/// The body of a rule that replaced a scope.
#[derive(Clone, Copy)]
struct Body<'a> {
    scope: Index,
    epoch: u32,
    choreo: &'a Choreo,
}

/// The stores of the roles in the order of the cast, the names of the rules in the book, the bodies
/// that replaced scopes, and how many updates and changes there were.
#[derive(Drop)]
pub(crate) struct Standing<'a> {
    bundle: &'a Bundle,
    stores: Vec<Store>,
    book: Vec<&'a Name>,
    bodies: Vec<Body<'a>>,
    updates: u32,
    changes: usize,
}

/// All inputs that are given for a role, in their order.
fn inputs_of(alloc: Global, bundle: &Bundle, role: &Role) -> Result<Values, Memory> {
    let mut values = Vec::new(alloc);
    for given in bundle.inputs.as_slice() {
        if given.0 == *role {
            for value in given.1.as_slice() {
                values.push(value.copy(alloc)?)?;
            }
        }
    }
    Ok(Values::new(values))
}

/// The value of the last message with this key.
fn sent<'a>(entries: &'a [Entry], key: &Key) -> Option<&'a Value> {
    for entry in entries.iter().rev() {
        match entry {
            Entry::Put {
                key: other,
                note: Note::Val(value),
            } if other == key => return Some(value),
            _ => {}
        }
    }
    None
}

impl<'a> Standing<'a> {
    /// What is there behind entries that the choreography plays.
    pub(crate) fn behind(
        alloc: Global,
        bundle: &'a Bundle,
        entries: &'a [Entry],
    ) -> Result<Standing<'a>, Memory> {
        let mut standing = Standing {
            bundle,
            stores: Vec::new(alloc),
            book: Vec::new(alloc),
            bodies: Vec::new(alloc),
            updates: 0,
            changes: 0,
        };
        for role in bundle.cast.as_slice() {
            let inputs = inputs_of(alloc, bundle, role)?;
            standing.stores.push(Store::new(alloc, inputs))?;
        }
        for rule in bundle.rules.as_slice().iter().take(bundle.opening as usize) {
            standing.enter(&rule.name)?;
        }
        for (at, entry) in entries.iter().enumerate() {
            standing.pass(alloc, entry, &entries[..at])?;
        }
        Ok(standing)
    }

    /// The number of a role in the cast.
    fn number_of(&self, role: &Role) -> Option<usize> {
        let mut roles = self.bundle.cast.as_slice().iter();
        roles.position(|other| other == role)
    }

    /// The store of a role of the cast.
    fn store(&self, role: &Role) -> Option<&Store> {
        match self.number_of(role) {
            Some(number) => self.stores.get(number),
            None => None,
        }
    }

    /// Sets a variable of a role of the cast, to an input where it is one.
    fn assign(
        &mut self,
        alloc: Global,
        role: &Role,
        var: &Name,
        value: &Value,
        is_input: bool,
    ) -> Result<(), Memory> {
        let number = match self.number_of(role) {
            Some(number) => number,
            None => return Ok(()),
        };
        if let Some(store) = self.stores.get_mut(number) {
            let name = var.copy(alloc)?;
            let value = value.copy(alloc)?;
            if is_input {
                drop(store.next_input());
            }
            store.reserve(1)?;
            store.set(name, value);
        }
        Ok(())
    }

    /// Puts the name of a rule into the book.
    fn enter(&mut self, name: &'a Name) -> Result<(), Memory> {
        if !self.book.iter().any(|other| **other == *name) {
            self.book.push(name)?;
        }
        Ok(())
    }

    /// Counts a change of the script.
    fn count_change(&mut self) {
        self.changes = self.changes.saturating_add(1);
    }

    /// Goes past an entry, behind those before it.
    fn pass(&mut self, alloc: Global, entry: &'a Entry, before: &'a [Entry]) -> Result<(), Memory> {
        match entry {
            Entry::Take {
                key,
                var: Some(var),
            } => match sent(before, key) {
                Some(value) => self.assign(alloc, &key.to, var, value, false),
                None => Ok(()),
            },
            Entry::Set {
                role,
                var,
                value,
                ..
            } => self.assign(alloc, role, var, value, false),
            Entry::Input {
                role,
                var,
                value,
                ..
            } => self.assign(alloc, role, var, value, true),
            Entry::Scope { index, chosen, .. } => self.replace(*index, chosen),
            Entry::Add { name } => {
                self.count_change();
                self.enter(name)
            }
            Entry::Drop { name } => {
                self.count_change();
                self.book.retain(|other| **other != *name);
                Ok(())
            }
            Entry::Env { .. } => {
                self.count_change();
                Ok(())
            }
            Entry::Put { .. } | Entry::Pick { .. } | Entry::Take { .. } => Ok(()),
        }
    }

    /// The choice of a scope's leader: what replaced this scope before has ended.
    fn replace(&mut self, scope: Index, chosen: &Chosen) -> Result<(), Memory> {
        self.bodies.retain(|body| body.scope != scope);
        let (name, epoch) = match chosen {
            Chosen::Keep => return Ok(()),
            Chosen::Rule { name, epoch } => (name, *epoch),
        };
        self.updates = self.updates.saturating_add(1);
        for rule in self.bundle.rules.as_slice() {
            if rule.name == *name {
                self.bodies.push(Body {
                    scope,
                    epoch,
                    choreo: &rule.body,
                })?;
            }
        }
        Ok(())
    }

    /// Entries of which each is one that may come next, with the values that it would have: of each
    /// construct of the choreography and of bodies that replaced scopes those that its kind can
    /// make, and the script's next change. All that may come next are among them.
    pub(crate) fn candidates(&self, alloc: Global) -> Result<Vec<Entry>, Memory> {
        let mut candidates = Candidates {
            alloc,
            standing: self,
            found: Vec::new(alloc),
        };
        candidates.add_part(&self.bundle.choreo, 0)?;
        for body in &self.bodies {
            candidates.add_part(body.choreo, body.epoch)?;
        }
        candidates.add_change()?;
        Ok(candidates.found)
    }
}

/// The entries that may come next, as far as they are found.
#[derive(Drop)]
struct Candidates<'a> {
    alloc: Global,
    standing: &'a Standing<'a>,
    found: Vec<Entry>,
}

impl<'a> Candidates<'a> {
    /// Adds what the constructs of a choreography can make.
    fn add_part(&mut self, choreo: &Choreo, epoch: u32) -> Result<(), Memory> {
        self.add_own(choreo, epoch)?;
        match choreo {
            Choreo::Seq(first, second) | Choreo::Par(first, second) => {
                self.add_part(first, epoch)?;
                self.add_part(second, epoch)
            }
            Choreo::If { yes, no, .. } => {
                self.add_part(yes, epoch)?;
                self.add_part(no, epoch)
            }
            Choreo::While { body, .. } | Choreo::Scope { body, .. } => self.add_part(body, epoch),
            _ => Ok(()),
        }
    }

    /// Adds what a construct makes itself, without its parts.
    fn add_own(&mut self, construct: &Choreo, epoch: u32) -> Result<(), Memory> {
        match construct {
            Choreo::Com { expr, var, .. } => match key_of(self.alloc, construct, epoch)? {
                Some(key) => self.add_message(key, expr, var),
                None => Ok(()),
            },
            Choreo::Set {
                index,
                var,
                role,
                expr,
            } => self.add_setting(at(epoch, index), var, role, expr),
            Choreo::Input { index, var, role } => self.add_input(at(epoch, index), var, role),
            Choreo::If {
                index,
                leader,
                guard,
                ..
            }
            | Choreo::While {
                index,
                leader,
                guard,
                ..
            } => self.add_pick(at(epoch, index), leader, guard),
            Choreo::Scope { index, leader, .. } => self.add_choices(at(epoch, index), leader),
            _ => Ok(()),
        }
    }

    /// Adds that a message is sent, and that it is taken.
    fn add_message(&mut self, key: Key, expr: &Expr, var: &Name) -> Result<(), Memory> {
        if let Some(store) = self.standing.store(&key.from) {
            let value = eval(self.alloc, expr, store)?;
            self.found.push(Entry::Put {
                key: key.copy(self.alloc)?,
                note: Note::Val(value),
            })?;
        }
        self.found.push(Entry::Take {
            key,
            var: Some(var.copy(self.alloc)?),
        })?;
        Ok(())
    }

    /// Adds that a role sets a variable.
    fn add_setting(
        &mut self,
        index: Index,
        var: &Name,
        role: &Role,
        expr: &Expr,
    ) -> Result<(), Memory> {
        if let Some(store) = self.standing.store(role) {
            self.found.push(Entry::Set {
                index,
                role: role.copy(self.alloc)?,
                var: var.copy(self.alloc)?,
                value: eval(self.alloc, expr, store)?,
            })?;
        }
        Ok(())
    }

    /// Adds that a role reads its next input.
    fn add_input(&mut self, index: Index, var: &Name, role: &Role) -> Result<(), Memory> {
        if let Some(store) = self.standing.store(role) {
            self.found.push(Entry::Input {
                index,
                role: role.copy(self.alloc)?,
                var: var.copy(self.alloc)?,
                value: store.copy_of_next_input(self.alloc)?,
            })?;
        }
        Ok(())
    }

    /// Adds that a leader picks by a guard.
    fn add_pick(&mut self, index: Index, leader: &Role, guard: &Expr) -> Result<(), Memory> {
        if let Some(store) = self.standing.store(leader) {
            let flag = eval(self.alloc, guard, store)? == Value::Bool(true);
            self.found.push(Entry::Pick {
                index,
                role: leader.copy(self.alloc)?,
                flag,
            })?;
        }
        Ok(())
    }

    /// Adds that a leader keeps a scope, and that a rule of the book replaces it.
    fn add_choices(&mut self, index: Index, leader: &Role) -> Result<(), Memory> {
        self.found.push(Entry::Scope {
            index,
            role: leader.copy(self.alloc)?,
            chosen: Chosen::Keep,
        })?;
        for name in &self.standing.book {
            self.found.push(Entry::Scope {
                index,
                role: leader.copy(self.alloc)?,
                chosen: Chosen::Rule {
                    name: name.copy(self.alloc)?,
                    epoch: self.standing.updates.saturating_add(1),
                },
            })?;
        }
        Ok(())
    }

    /// Adds the script's next change.
    fn add_change(&mut self) -> Result<(), Memory> {
        let bundle = self.standing.bundle;
        let timed = match bundle.script.as_slice().get(self.standing.changes) {
            Some(timed) => timed,
            None => return Ok(()),
        };
        let entry = match &timed.change {
            Change::Add(number) => match bundle.rules.as_slice().get(*number as usize) {
                Some(rule) => Entry::Add {
                    name: rule.name.copy(self.alloc)?,
                },
                None => return Ok(()),
            },
            Change::Drop(name) => Entry::Drop {
                name: name.copy(self.alloc)?,
            },
            Change::Env(key, value) => Entry::Env {
                key: key.copy(self.alloc)?,
                value: value.copy(self.alloc)?,
            },
        };
        self.found.push(entry)?;
        Ok(())
    }
}

/// The key of the message of an interaction.
fn key_of(alloc: Global, construct: &Choreo, epoch: u32) -> Result<Option<Key>, Memory> {
    match construct {
        Choreo::Com {
            index,
            op,
            from,
            to,
            ..
        } => Ok(Some(Key {
            from: from.copy(alloc)?,
            to: to.copy(alloc)?,
            index: at(epoch, index),
            tag: Tag::Op(op.copy(alloc)?),
        })),
        _ => Ok(None),
    }
}

/// The index of a construct in the choreography, or in a body that replaced a scope.
fn at(epoch: u32, index: &Index) -> Index {
    Index {
        epoch,
        place: index.place,
    }
}

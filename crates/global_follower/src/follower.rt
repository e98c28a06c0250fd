//! A choreography that follows a trace.

ghost use Rattle.std.specs.Prelude.{◌≤◌};

use crate::books::PlainBook;
use crate::effects::Effect;
use crate::plays::{Scene, play};
use crate::rules::RuleList;
use crate::running::{Marks, Running, is_ended};
use crate::shown::{shows, updates_after};
use crate::stores::Stores;
use dioc_terms::{Bundle, Entry, Memory, Role};
use global_steps::plays_go_on;
use std::alloc::Global;
use thiserror::Error;

/// Why an entry is not followed.
#[derive(Clone, Copy, Debug, PartialEq, Eq, Error)]
pub enum FollowFault {
    /// The choreography doesn't play the entry.
    #[error("the choreography doesn't play the entry")]
    Stray,
    /// Memory ran out.
    #[error("out of memory")]
    Memory,
}

/// A choreography in the middle of a trace: what is left of it, the stores, the book, and how many
/// updates, changes and entries there were. It borrows the bundle, and copies none of its texts.
#[derive(Drop)]
pub struct Follower<'a> {
    rules: RuleList<'a>,
    running: Running<'a>,
    stores: Stores,
    book: PlainBook,
    updates: u64,
    changes: u64,
    entries: u64,
    ghost fewer_updates: { updates ≤ entries },
    ghost fewer_changes: { changes ≤ entries },
}

impl<'a> Follower<'a> {
    ghost use Rattle.std.specs.Prelude.{◌≡◌, ◌<◌, ◌≤◌, length, None, Some, IfOk, IsErrOf, OnErr, OnOk};
    ghost use Rattle.dioc_terms.specs.Bundles.{IsFormed};
    ghost use Rattle.dioc_terms.specs.Messages.{visible};
    ghost use Rattle.dioc_terms.specs.Plain.{plain, setting};
    ghost use Rattle.global_follower.specs.KeptPlays.{setting_of, state_of};
    ghost use Rattle.global_follower.specs.Passing.{GoesTo, PlaysOn};
    ghost use Rattle.global_steps.specs.Follow.{follow, follow_change, follow_role, play_from, play_start, stray_from};
    ghost use Rattle.global_steps.specs.Running.{ended};

    /// The choreography of a formed bundle before the first entry: the opening rules are in the
    /// book, each role has its inputs, and no variable is set.
    pub fn new(alloc: Global, bundle: &'a Bundle) -> Result<Follower<'a>, Memory>
        requires { IsFormed (plain bundle.now) }
        ensures setting { IfOk result (λ follower. setting_of follower
            ≡ setting (plain bundle.now)) }
        ensures start { IfOk result (λ follower. state_of follower
            ≡ play_start (plain bundle.now)) }
    {
        let rules = RuleList::new(bundle);
        let stores = Stores::opening(alloc, bundle.inputs.as_slice())?;
        let book = PlainBook::opening(alloc, rules, bundle.opening, &bundle.env)?;
        let marks = Marks { epoch: 0, level: 0 };
        Ok(Follower {
            rules,
            running: Running::Still(marks.part(&bundle.choreo)),
            stores,
            book,
            updates: 0,
            changes: 0,
            entries: 0,
        })
    }

    /// Follows an entry of the trace. The fault is `Stray` exactly where the choreography doesn't
    /// play it there, unless memory ran out; after a fault the follower is as it was.
    pub fn follow(&mut self, alloc: Global, entry: &Entry) -> Result<(), FollowFault>
        requires { (state_of self.old).entries < 18446744073709551615 }
        ensures setting { setting_of self.new ≡ setting_of self.old }
        ensures followed { OnOk result (follow (setting_of self.old) (state_of self.old) entry.now
            ≡ Some (state_of self.new)) }
        ensures stray { IsErrOf result FollowFault.Stray → follow (setting_of self.old)
            (state_of self.old) entry.now ≡ None }
        ensures same { OnErr result (state_of self.new ≡ state_of self.old) }
    {
        match self.plays(alloc, entry) {
            Ok(true) => Ok(()),
            Ok(false) => Err(FollowFault::Stray),
            Err(Memory) => Err(FollowFault::Memory),
        }
    }

    /// Follows an entry of the trace, and says whether the choreography plays it there; where it
    /// doesn't, and after want of memory, the follower is as it was.
    pub fn plays(&mut self, alloc: Global, entry: &Entry) -> Result<bool, Memory>
        requires { (state_of self.old).entries < 18446744073709551615 }
        ensures setting { setting_of self.new ≡ setting_of self.old }
        ensures goes { IfOk result (GoesTo (state_of self.old) (state_of self.new)
            (follow (setting_of self.old) (state_of self.old) entry.now)) }
        ensures same { OnErr result (state_of self.new ≡ state_of self.old) }
    {
        match entry.doer() {
            Some(role) => self.plays_act(alloc, role, entry),
            None => self.plays_change(alloc, entry),
        }
    }

    /// Follows the entries up to the first that isn't played, and gives its number, counted from 1.
    /// Auxiliary entries are passed over, and have numbers all the same.
    pub fn first_stray(&mut self, alloc: Global, entries: &[Entry]) -> Result<Option<u64>, Memory>
        requires { (state_of self.old).entries ≡ 0 }
        ensures setting { setting_of self.new ≡ setting_of self.old }
        ensures stray { IfOk result (λ stray. stray
            ≡ stray_from (setting_of self.old) (state_of self.old) 1 entries.now) }
        ensures whole { IfOk result (λ stray. stray ≡ None
            → play_from (setting_of self.old) (state_of self.old) (visible entries.now)
            ≡ Some (state_of self.new)) }
        ensures few { IfOk result (λ stray. stray ≡ None
            → (state_of self.new).entries ≤ length entries.now) }
    {
        plays_go_on();
        let mut number: u64 = 0;
        for entry in entries {
            number += 1;
            if !self.plays_on(alloc, entry)? {
                return Ok(Some(number));
            }
        }
        Ok(None)
    }

    /// Follows an entry that is visible, and says whether it is played; the others are passed over.
    #[tactic(auto, using(crate::proofs::Played::passed_on))]
    fn plays_on(&mut self, alloc: Global, entry: &Entry) -> Result<bool, Memory>
        requires { (state_of self.old).entries < 18446744073709551615 }
        ensures setting { setting_of self.new ≡ setting_of self.old }
        ensures plays { IfOk result (PlaysOn (setting_of self.old) (state_of self.old) entry.now
            (state_of self.new)) }
    {
        if entry.is_aux() {
            return Ok(true);
        }
        self.plays(alloc, entry)
    }

    /// Follows an entry of a role, as `plays` does.
    fn plays_act(&mut self, alloc: Global, role: &Role, entry: &Entry) -> Result<bool, Memory>
        requires { (state_of self.old).entries < 18446744073709551615 }
        ensures setting { setting_of self.new ≡ setting_of self.old }
        ensures goes { IfOk result (GoesTo (state_of self.old) (state_of self.new)
            (follow_role (setting_of self.old) (state_of self.old) role.now entry.now)) }
        ensures same { OnErr result (state_of self.new ≡ state_of self.old) }
    {
        self.stores.make_ready_for(alloc, role, entry)?;
        let scene = Scene {
            rules: self.rules,
            stores: &self.stores,
            book: &self.book,
            updates: self.updates,
            entry,
        };
        let mut effect = Effect::Leaves;
        if !play(alloc, &mut self.running, &scene, &mut effect)? {
            return Ok(false);
        }
        self.stores.affect(role, effect);
        self.updates = updates_after(entry, self.updates);
        self.entries += 1;
        Ok(true)
    }

    /// Follows the script's next change, which may stand once its stated number of entries is
    /// there, as `plays` does.
    fn plays_change(&mut self, alloc: Global, entry: &Entry) -> Result<bool, Memory>
        requires { (state_of self.old).entries < 18446744073709551615 }
        ensures setting { setting_of self.new ≡ setting_of self.old }
        ensures goes { IfOk result (GoesTo (state_of self.old) (state_of self.new)
            (follow_change (setting_of self.old) (state_of self.old) entry.now)) }
        ensures same { OnErr result (state_of self.new ≡ state_of self.old) }
    {
        let bundle = self.rules.bundle;
        match bundle.script.as_slice().get(self.changes as usize) {
            None => Ok(false),
            Some(timed) => {
                if !shows(self.rules, entry, &timed.change) || self.entries < timed.after {
                    return Ok(false);
                }
                self.book.apply(alloc, self.rules, &timed.change)?;
                self.changes += 1;
                self.entries += 1;
                Ok(true)
            }
        }
    }

    /// Whether nothing is left to play. It takes no memory.
    pub fn is_ended(&self) -> bool
        ensures { result ≡ ended (state_of self.now).running }
    {
        is_ended(&self.running)
    }
}

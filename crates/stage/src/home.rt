//! What lies under the lock of a stage: all that the roles share.

ghost use Rattle.std.specs.Prelude.{◌≡◌, ◌≢◌, ◌<◌, IfSome, nat_le, length};
ghost use Rattle.std.specs.List.{position};
ghost use Rattle.dioc_terms.specs.Plain.{plain};
ghost use Rattle.network_steps.specs.Schedule.{change_is_due};
ghost use Rattle.stage.specs.Faults.{comes_now, role_fault, take_fault};
ghost use Rattle.stage.specs.Homes.{IsSoundHome};

use crate::faults::{CommitFault, Why};
use crate::marks::Marks;
use dioc_terms::{Act, Bundle, Entry, Key, Name, Roles};
use net_core::{Coming, is_first_due};
use role_mailbox::Mail;
use rule_book::Book;
use std::alloc::Global;
use std::collections::VecDeque;
use std::marker::Model;
use std::snapshot::Snapshot;
use trace_book::History;
use turn_lock::Chronicle;

/// The history, and what the network of the bundle has after it but for the processes and stores,
/// which the roles keep. The bundle is kept for contracts alone.
pub struct Home {
    pub(crate) alloc: Global,
    pub(crate) of: Snapshot<Bundle>,
    pub(crate) limit: u64,
    pub(crate) cast: Roles,
    // By the numbers of the rules.
    pub(crate) names: Vec<Name>,
    pub(crate) mail: Mail,
    pub(crate) book: Book,
    pub(crate) coming: VecDeque<Coming>,
    pub(crate) updates: u32,
    pub(crate) history: History,
    // For each role of the cast.
    pub(crate) finished: Vec<bool>,
    pub(crate) stopped: Option<Why>,
}

impl Drop for Home {
    fn drop(self) {
        let Home {
            alloc: _,
            of: _,
            limit: _,
            cast: _,
            names: _,
            mail: _,
            book: _,
            coming: _,
            updates: _,
            history: _,
            finished: _,
            stopped: _,
        } = self;
    }
}

impl Model for Home {
    ghost use Rattle.std.specs.Prelude.{map};
    ghost use Rattle.std.specs.Coded.{codes};
    ghost use Rattle.dioc_terms.specs.Plain.{plain};
    ghost use Rattle.net_core.specs.Codes.{expression_code, term_code};
    ghost use Rattle.net_core.specs.KeptParts.{due_seen};
    ghost use Rattle.stage.specs.Homes.{HomeState, IsHome};

    ghost Value = { HomeState };

    ghost coded = { Prim.hlevel (codes, term_code, expression_code) };

    ghost view = { λ home. record {
      bundle = plain home.of.value;
      limit = home.limit;
      history = home.history.entries;
      finished = home.finished.items;
      stopped = home.stopped;
    } };

    ghost invariant = { λ home. IsHome (plain home.of.value) home.limit home.history.entries
        home.cast home.names.items home.mail home.book (map due_seen home.coming.items)
        home.updates home.finished.items home.stopped };
}

/// What the lock of a stage is for: its bundle, and how many entries its history may have. No value
/// of it is made: it stands in contracts alone.
pub struct StageBase {
    pub(crate) of: Snapshot<Bundle>,
    pub(crate) limit: u64,
}

impl Model for StageBase {
    ghost use Rattle.std.specs.Coded.{codes};
    ghost use Rattle.dioc_terms.specs.Plain.{plain};
    ghost use Rattle.net_core.specs.Codes.{expression_code, term_code};
    ghost use Rattle.stage.specs.Seats.{Base};

    ghost Value = { Base };

    ghost coded = { Prim.hlevel (codes, term_code, expression_code) };

    ghost view = { λ base. (plain base.of.value, base.limit) };
}

impl Chronicle for Home {
    ghost use Rattle.stage.specs.Marks.{MarksGrow, marks_go_on, marks_of, marks_stay};
    ghost use Rattle.stage.specs.Owners.{owner_in};

    type Item = Entry;

    type Base = StageBase;

    type Mark = Marks;

    ghost items = { λ home. home.history };

    ghost base = { λ home. (home.bundle, home.limit) };

    ghost owner = { λ base entry. owner_in base.0.cast entry };

    ghost at = { λ home. marks_of home };

    ghost grows = { MarksGrow };

    fn count(&self) -> u64 {
        self.history.len()
    }

    ghost stays = { marks_stay };

    ghost goes_on = { marks_go_on };
}

impl Home {
    /// What holds of every home: its history is a prompt run of its bundle within the limit, and
    /// its marks stand only where they may. It does nothing.
    pub(crate) fn is_sound(&self)
        ensures { IsSoundHome self.now }
    {
        let _limit = self.limit;
    }

    /// The history, with what holds of every home.
    pub(crate) fn into_history(self) -> History
        ensures entries { result.entries ≡ self.history }
        ensures sound { IsSoundHome self }
    {
        let Home {
            alloc: _,
            of: _,
            limit: _,
            cast: _,
            names: _,
            mail: _,
            book: _,
            coming: _,
            updates: _,
            history,
            finished: _,
            stopped: _,
        } = self;
        history
    }

    /// Why no role may commit now, whatever it does.
    pub(crate) fn role_fault(&self) -> Option<CommitFault>
        ensures first { result ≡ role_fault self.now }
        ensures apart { IfSome result (λ f. f ≢ CommitFault.Memory) }
    {
        if let Some(why) = self.stopped {
            return Some(CommitFault::Stopped(why));
        }
        if self.is_full() {
            return Some(CommitFault::Full);
        }
        if self.is_due() {
            return Some(CommitFault::NotYet);
        }
        None
    }

    /// Whether the history has as many entries as it may.
    pub(crate) fn is_full(&self) -> bool
        ensures { result ≡ nat_le self.now.limit (length self.now.history) }
    {
        self.history.len() >= self.limit
    }

    /// Whether the script's next change is due, with what holds of every home.
    pub(crate) fn is_due(&self) -> bool
        ensures due { result ≡ change_is_due self.now.bundle self.now.history }
        ensures sound { IsSoundHome self.now }
    {
        self.is_sound();
        is_first_due(&self.coming, self.history.visible_len())
    }

    /// Why the take of a role is refused now.
    pub(crate) fn take_fault(&self, key: &Key) -> Option<CommitFault>
        ensures first { result ≡ take_fault key.now self.now }
        ensures apart { IfSome result (λ f. f ≢ CommitFault.Memory) }
    {
        if let Some(fault) = self.role_fault() {
            return Some(fault);
        }
        if self.mail.holds(key) {
            None
        } else {
            Some(CommitFault::NotYet)
        }
    }

    /// Where the first of these acts stands whose commit isn't refused now since it may not come
    /// yet.
    pub(crate) fn first_ready(&self, acts: &[Act]) -> Option<usize>
        ensures first { result ≡ position (comes_now self.now) acts.now }
        ensures within { IfSome result (λ at. at < length acts.now) }
    {
        acts.iter().position(|act| self.comes_now(act))
    }

    /// Whether a commit of the act isn't refused now since it may not come yet.
    fn comes_now(&self, act: &Act) -> bool
        ensures { result ≡ comes_now self.now act.now }
    {
        let fault = match act {
            Act::Take(key) => self.take_fault(key),
            _ => self.role_fault(),
        };
        !matches!(fault, Some(CommitFault::NotYet))
    }
}

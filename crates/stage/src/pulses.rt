//! Whom a hold concerns: one pulse for each role, one for the feeder, and one for all holds. No
//! clause rests on them.

use crate::pulse::Pulse;
use dioc_terms::{Memory, Role, Roles};
use std::alloc::Global;
use std::sync::Wait;
use std::sync::atomic::{AtomicU64, Ordering};

/// What a role waits for.
#[derive(Drop)]
struct Bell {
    pulse: Pulse,
    // How many messages were put for the role that it has not taken. Who puts or takes one counts
    // it when its hold has ended, so for a moment it may be too low or wrap.
    mail: AtomicU64,
}

/// The pulses of a stage.
pub(crate) struct Pulses {
    cast: Roles,
    // By the places of the cast.
    roles: Vec<Bell>,
    feeder: Pulse,
    // Of all holds that changed the home.
    whole: Pulse,
}

impl Drop for Pulses {
    fn drop(self) {
        let Pulses {
            cast: _,
            roles: _,
            feeder: _,
            whole: _,
        } = self;
    }
}

impl Pulses {
    /// The pulses for the roles of this cast and the feeder. No hold has ended.
    pub(crate) fn new(alloc: Global, cast: &Roles) -> Result<Pulses, Memory> {
        let roles = make_bells(alloc, cast.as_slice())?;
        let cast = cast.copy(alloc)?;
        Ok(Pulses {
            cast,
            roles,
            feeder: Pulse::new(),
            whole: Pulse::new(),
        })
    }

    /// The roles, by whose places pulses are told.
    pub(crate) fn cast(&self) -> &[Role] {
        self.cast.as_slice()
    }

    /// The pulse of the role at this place, and past the roles that of the feeder.
    pub(crate) fn at(&self, place: usize) -> &Pulse {
        match self.roles.as_slice().get(place) {
            Some(bell) => &bell.pulse,
            None => &self.feeder,
        }
    }

    /// The pulse of all holds that changed the home.
    pub(crate) fn whole(&self) -> &Pulse {
        &self.whole
    }

    /// Waits while no message is pending for the role at this place, until a hold concerns it.
    pub(crate) fn wait_for_mail<R: Wait>(&self, rt: &R, place: usize) {
        let Some(bell) = self.roles.as_slice().get(place) else {
            return;
        };
        let count = bell.pulse.count();
        if bell.mail.load(Ordering::SeqCst) == 0 {
            bell.pulse.wait_past(rt, count);
        }
    }

    /// A role has added an entry, and the script's next change is due or not.
    pub(crate) fn tell_entry(&self, is_due: bool) {
        self.whole.beat();
        if is_due {
            self.feeder.beat();
        }
    }

    /// A message was put for the role at this place; the rest as of any entry.
    pub(crate) fn tell_put(&self, place: Option<usize>, is_due: bool) {
        if let Some(bell) = self.bell_at(place) {
            bell.mail.fetch_add(1, Ordering::SeqCst);
            bell.pulse.beat();
        }
        self.tell_entry(is_due);
    }

    /// The role at this place took a message; the rest as of any entry.
    pub(crate) fn tell_take(&self, place: Option<usize>, is_due: bool) {
        if let Some(bell) = self.bell_at(place) {
            bell.mail.fetch_sub(1, Ordering::SeqCst);
        }
        self.tell_entry(is_due);
    }

    fn bell_at(&self, place: Option<usize>) -> Option<&Bell> {
        self.roles.as_slice().get(place?)
    }

    /// A change of the script was made: roles that waited for it may go on.
    pub(crate) fn tell_change(&self) {
        self.whole.beat();
        for bell in self.roles.as_slice() {
            bell.pulse.beat();
        }
    }

    /// A role has finished. It concerns the others once all have.
    pub(crate) fn tell_finish(&self, are_all: bool) {
        if are_all {
            self.tell_end();
        } else {
            self.whole.beat();
        }
    }

    /// The stage was stopped, or all roles have finished: nobody waits any more.
    pub(crate) fn tell_end(&self) {
        self.whole.end();
        self.feeder.end();
        for bell in self.roles.as_slice() {
            bell.pulse.end();
        }
    }
}

/// A bell for each role of the cast.
fn make_bells(alloc: Global, cast: &[Role]) -> Result<Vec<Bell>, Memory> {
    let mut bells = Vec::with_capacity(alloc, cast.len())?;
    for _role in cast {
        bells.push(Bell {
            pulse: Pulse::new(),
            mail: AtomicU64::new(0),
        })?;
    }
    Ok(bells)
}

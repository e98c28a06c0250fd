//! The marks of a home: which roles have finished, and why the stage was stopped.

ghost use Rattle.std.specs.Prelude.{◌≡◌, ◌<◌, true, IfSome, length, slice_set};
ghost use Rattle.std.specs.List.{position};
ghost use Rattle.dioc_terms.specs.Equality.{role_eq};
ghost use Rattle.stage.specs.Homes.{HasEnded, IsCut};
ghost use Rattle.stage.specs.Marks.{with_finished, with_stop};
ghost use Rattle.stage.specs.Owners.{cast_place};

use crate::faults::Why;
use crate::home::Home;
use dioc_terms::Role;

impl Home {
    /// Marks a role whose process has ended as finished. Nothing else is changed.
    pub(crate) fn finish(&mut self, role: &Role)
        requires { HasEnded self.old.bundle self.old.history role.now }
        ensures { self.new ≡ with_finished self.old role.now }
    {
        mark(self.cast.as_slice(), &mut self.finished, role);
    }

    /// Keeps why the stage is stopped. Where it was stopped before, that stays. Nothing else is
    /// changed.
    pub(crate) fn stop(&mut self, why: Why)
        requires { why ≡ Why.Limit → IsCut self.old.bundle self.old.limit self.old.history }
        ensures { self.new ≡ with_stop self.old why }
    {
        if self.stopped.is_none() {
            self.stopped = Some(why);
        }
    }
}

/// Marks a role at its place of the cast; one that isn't of the cast has none.
fn mark(cast: &[Role], finished: &mut Vec<bool>, role: &Role)
    requires { length finished.old.items ≡ length cast.now }
    ensures { finished.new.items
        ≡ slice_set finished.old.items (cast_place cast.now role.now) true }
{
    if let Some(place) = place_of(cast, role) {
        finished[place] = true;
    }
}

/// The place of a role in the cast, `None` where it isn't of the cast.
pub(crate) fn place_of(cast: &[Role], role: &Role) -> Option<usize>
    ensures place { result ≡ position (role_eq role.now) cast.now }
    ensures within { IfSome result (λ place. place < length cast.now) }
{
    cast.iter().position(|one| role == one)
}

//! `monitor`: the judgement of one role by a bundle's trace.

ghost use Rattle.std.specs.Prelude.{◌≡◌, ◌∷◌, [], None, IfErr, IfOk, OnOk};
ghost use Rattle.dioc_terms.specs.Bundles.{IsFormed};
ghost use Rattle.dioc_terms.specs.Equality.{member};
ghost use Rattle.dioc_terms.specs.Plain.{plain};
ghost use Rattle.rule_checks.specs.Answers.{IsRefusalOf};
ghost use Rattle.rule_checks.specs.Refusals.{IsAccepted, unknown_role};
ghost use Rattle.rule_checks.specs.declared.refusals.Where.TheVariants as place;
ghost use Rattle.aioc_top.specs.Replies.{monitor_refusal, monitor_reply, reply_of};

use crate::replies::{Written, say_no, say_yes};
use dioc_terms::{Bundle, Memory, Role, is_among};
use net_laws::accepted_is_sound;
use role_monitor::{FeedFault, Monitor};
use rule_checks::{Refusal, Where, accept};
use std::alloc::Global;

/// The judgement of a role by the entries of the trace section, auxiliary ones included: `yes` with
/// how many of them are the role's own, where each of these is a step of its process; else `no`
/// with the number of the first that isn't, counted from 1 among all entries. The entries of the
/// other roles are believed, and the last line of the section isn't judged.
pub fn monitor(alloc: Global, role: &Role, bundle: &Bundle) -> Result<Written, Memory>
    requires accepted { IsAccepted (plain bundle.now) }
    ensures { IfOk result (λ written. reply_of written
        ≡ monitor_reply role.now (plain bundle.now)) }
{
    accepted_is_sound();
    let entries = bundle.trace.entries.as_slice();
    let mut monitor = Monitor::new(alloc, bundle, role)?;
    for entry in entries {
        match monitor.feed(entry) {
            Ok(()) => {}
            Err(FeedFault::Deviates(number)) => return say_no(alloc, number),
            Err(FeedFault::Memory) => return Err(Memory),
        }
    }
    say_yes(alloc, monitor.judged())
}

/// Whether the bundle may run, and the role is in its cast.
pub fn accept_role(alloc: Global, role: &Role, bundle: &Bundle) -> Result<(), Refusal>
    requires formed { IsFormed (plain bundle.now) }
    ensures accepted { OnOk result (IsAccepted (plain bundle.now)) }
    ensures none { OnOk result (monitor_refusal role.now (plain bundle.now) ≡ None) }
    ensures refused { IfErr result
        (IsRefusalOf (monitor_refusal role.now (plain bundle.now))) }
{
    accept(alloc, bundle)?;
    known(alloc, role, bundle.cast.as_slice())
}

// Whether the role is one of the cast.
fn known(alloc: Global, role: &Role, cast: &[Role]) -> Result<(), Refusal>
    ensures none { OnOk result (unknown_role place.Program cast.now (role.now ∷ []) ≡ None) }
    ensures refused { IfErr result
        (IsRefusalOf (unknown_role place.Program cast.now (role.now ∷ []))) }
{
    if is_among(role, cast) {
        Ok(())
    } else {
        Err(Refusal::UnknownRole(Where::Program, role.copy(alloc)?))
    }
}

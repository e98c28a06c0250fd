//! Messages to the role, as other roles' entries show them.

ghost use Rattle.std.specs.Prelude.{◌≡◌, List, true, IfOk, OnErr, OnOk, option_map};
ghost use Rattle.dioc_terms.specs.declared.names.Role.{Role as OneRole};
ghost use Rattle.dioc_terms.specs.declared.processes.Key.{Key as OneKey};
ghost use Rattle.dioc_terms.specs.Equality.{member};
ghost use Rattle.dioc_terms.specs.Plain.{plain, setting};
ghost use Rattle.dioc_terms.specs.Processes.{load, process, Load, Part};
ghost use Rattle.dioc_terms.specs.Terms.{is_in, term};
ghost use Rattle.projection.specs.Projection.{projected};
ghost use Rattle.role_monitor.specs.Judging.{HoldsMail, RulesInCast, SameMessages};
ghost use Rattle.role_monitor.specs.Monitoring.{mail_with_some, noted_load, rule_part, update_part};

use crate::updates::{Update, update_numbered};
use dioc_terms::{
    Bundle, Choreo, Key, Memory, Note, Payload, Proc, Role, give_up, stamped, stamped_bodies,
};
use marked_laws::mail_is_a_map;
use projection::project;
use role_mailbox::Mail;
use std::alloc::Global;

/// Another's put to the role: the message is appended. Where its key is there already, or it is a
/// part of an update that wasn't heard of, nothing changes. After want of memory the messages are
/// as they were.
pub(crate) fn receive(
    alloc: Global,
    bundle: &Bundle,
    updates: &[Update],
    mail: &mut Mail,
    key: &Key,
    note: &Note,
) -> Result<(), Memory>
    requires { RulesInCast (plain bundle.now) }
    ensures received { (pending : List (OneKey × Load)) → HoldsMail pending mail.old → OnOk result
        (HoldsMail (mail_with_some key.now
        (noted_load (setting (plain bundle.now)) key.now.to updates.now note.now) pending)
        mail.new) }
    ensures same { OnErr result (SameMessages mail.old mail.new) }
{
    mail_is_a_map();
    mail.reserve(1)?;
    if mail.holds(key) {
        return Ok(());
    }
    match noted_payload(alloc, bundle, &key.to, updates, note)? {
        None => Ok(()),
        Some(payload) => match key.copy(alloc) {
            Ok(key) => {
                mail.put(key, payload);
                Ok(())
            }
            Err(fault) => give_up(payload, fault),
        },
    }
}

/// What a message to a role carries whose entry has this note, `None` where it is a part of an
/// update that wasn't heard of.
fn noted_payload(
    alloc: Global,
    bundle: &Bundle,
    role: &Role,
    updates: &[Update],
    note: &Note,
) -> Result<Option<Payload>, Memory>
    requires { RulesInCast (plain bundle.now) }
    ensures { IfOk result (λ payload. option_map load payload
        ≡ noted_load (setting (plain bundle.now)) role.now updates.now note.now) }
{
    match note {
        Note::Val(value) => Ok(Some(Payload::Val(value.copy(alloc)?))),
        Note::Flag(flag) => Ok(Some(Payload::Flag(*flag))),
        Note::Keep => Ok(Some(Payload::Keep)),
        Note::Part(epoch) => seen_part(alloc, bundle, role, updates, *epoch),
        Note::Done => Ok(Some(Payload::Done)),
    }
}

/// A role's part of the update of that number, `None` where it wasn't heard of.
fn seen_part(
    alloc: Global,
    bundle: &Bundle,
    role: &Role,
    updates: &[Update],
    epoch: u32,
) -> Result<Option<Payload>, Memory>
    requires { RulesInCast (plain bundle.now) }
    ensures { IfOk result (λ payload. option_map load payload
        ≡ option_map (Part epoch) (update_part (setting (plain bundle.now)) role.now updates.now
        epoch)) }
{
    if epoch == 0 {
        return Ok(None);
    }
    match update_numbered(updates, epoch) {
        None => Ok(None),
        Some(update) => rule_part(alloc, bundle, role, *update),
    }
}

/// A role's part of an update.
fn rule_part(
    alloc: Global,
    bundle: &Bundle,
    role: &Role,
    update: Update,
) -> Result<Option<Payload>, Memory>
    requires { RulesInCast (plain bundle.now) }
    ensures { IfOk result (λ payload. option_map load payload ≡ option_map (Part update.epoch)
        (rule_part (setting (plain bundle.now)) role.now update update.epoch)) }
{
    stamped_bodies();
    let Some(rule) = bundle.rules.as_slice().get(update.rule as usize) else {
        return Ok(None);
    };
    let body = stamped(alloc, &rule.body, update.epoch, update.level)?;
    let proc = project_last(alloc, body, role, bundle.cast.as_slice())?;
    Ok(Some(Payload::Part {
        epoch: update.epoch,
        proc,
    }))
}

/// A role's process of a choreography that is let go then.
fn project_last(alloc: Global, choreo: Choreo, role: &Role, cast: &[Role]) -> Result<Proc, Memory>
    requires { (q : OneRole) → is_in q (term choreo) ≡ true → member q cast.now ≡ true }
    ensures { IfOk result (λ proc. process proc ≡ projected cast.now (term choreo) role.now) }
{
    let made = project(alloc, &choreo, role, cast);
    drop(choreo);
    made
}

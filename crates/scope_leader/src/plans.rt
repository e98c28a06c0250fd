//! The parts of an update.

ghost use Rattle.std.specs.Prelude.{◌≡◌, ◌<◌, ◌&&◌, not, true, IfOk, filter, suc};
ghost use Rattle.dioc_terms.specs.declared.names.Role.{Role as OneRole};
ghost use Rattle.dioc_terms.specs.declared.processes.Tag.TheVariants.{Begin};
ghost use Rattle.dioc_terms.specs.Equality.{member};
ghost use Rattle.dioc_terms.specs.Processes.{process, letters, load, Part, More};
ghost use Rattle.dioc_terms.specs.Terms.{term, is_in};
ghost use Rattle.limits.specs.Limits.{top_level};
ghost use Rattle.process_steps.specs.Steps.{key, letters_to};
ghost use Rattle.projection.specs.Projection.{projected};
ghost use Rattle.scope_leader.specs.Plans.{part_of, is_told, told_roles, begin_messages};

use dioc_terms::{
    Choreo, Key, Memory, Messages, Parts, Payload, Role, ScopeHead, Tag, give_up, is_among,
    new_box, stamped, stamped_bodies,
};
use projection::project;
use std::alloc::Global;

/// What each part of an update is made of: the scope's head, the roles of the cast, the update's
/// number, and the rule's body, which is stamped.
#[derive(Clone, Copy)]
struct Plan<'a> {
    alloc: Global,
    head: &'a ScopeHead,
    cast: &'a [Role],
    epoch: u32,
    body: &'a Choreo,
}

/// The parts of an update that replaces a scope: the leader's own part of the rule's body, stamped
/// with the update's number and one level higher than the scope, and the `!begin` messages that
/// carry the parts of the scope's other roles, in the order of the cast. A role of the scope that
/// the body doesn't name is told as well: its part has nothing to do.
///
/// The roles of the body are in the cast. Scopes below level 16 alone are replaced.
pub fn plan_update(
    alloc: Global,
    head: &ScopeHead,
    cast: &[Role],
    epoch: u32,
    body: &Choreo,
) -> Result<Parts, Memory>
    requires level { head.now.level < top_level }
    requires body { (q : OneRole) → is_in q (term body.now) ≡ true → member q cast.now ≡ true }
    ensures own { IfOk result (λ parts.
        process parts.own ≡ part_of cast.now head.now epoch (term body.now) head.now.leader) }
    ensures tell { IfOk result (λ parts.
        letters parts.tell ≡ begin_messages cast.now head.now epoch (term body.now)) }
{
    stamped_bodies();
    let body = stamped(alloc, body, epoch, head.level + 1)?;
    let parts = parts(&Plan {
        alloc,
        head,
        cast,
        epoch,
        body: &body,
    });
    drop(body);
    parts
}

/// The parts of a body that is stamped.
fn parts(plan: &Plan<'_>) -> Result<Parts, Memory>
    requires { (q : OneRole) → is_in q (term plan.now.body.now) ≡ true
        → member q plan.now.cast.now ≡ true }
    ensures own { IfOk result (λ parts. process parts.own
        ≡ projected plan.now.cast.now (term plan.now.body.now) plan.now.head.now.leader) }
    ensures tell { IfOk result (λ parts. letters parts.tell
        ≡ letters_to plan.now.head.now.leader (told_roles plan.now.cast.now plan.now.head.now)
        plan.now.head.now.index Begin (λ q. Part plan.now.epoch
        (projected plan.now.cast.now (term plan.now.body.now) q))) }
{
    let own = project(plan.alloc, plan.body, &plan.head.leader, plan.cast)?;
    match begins(plan, plan.cast) {
        Ok(tell) => Ok(Parts { own, tell }),
        Err(fault) => give_up(own, fault),
    }
}

/// The messages to those of these roles that are told, with their parts of the stamped body.
fn begins(plan: &Plan<'_>, roles: &[Role]) -> Result<Messages, Memory>
    requires { (q : OneRole) → is_in q (term plan.now.body.now) ≡ true
        → member q plan.now.cast.now ≡ true }
    ensures { IfOk result (λ messages. letters messages
        ≡ letters_to plan.now.head.now.leader (filter (is_told plan.now.head.now) roles.now)
        plan.now.head.now.index Begin (λ q. Part plan.now.epoch
        (projected plan.now.cast.now (term plan.now.body.now) q))) }
{
    match roles {
        [] => Ok(Messages::Nothing),
        [role, rest @ ..] => {
            let rest = begins(plan, rest)?;
            if is_told(plan.head, role) {
                return begin(plan, role, rest);
            }
            Ok(rest)
        }
    }
}

/// Whether the role is one of the scope's, and another one leads it.
fn is_told(head: &ScopeHead, role: &Role) -> bool
    ensures { result ≡ is_told head.now role.now }
{
    is_among(role, head.roles.as_slice()) && *role != head.leader
}

/// The message with the role's part, and those after it.
fn begin(plan: &Plan<'_>, role: &Role, rest: Messages) -> Result<Messages, Memory>
    requires { (q : OneRole) → is_in q (term plan.now.body.now) ≡ true
        → member q plan.now.cast.now ≡ true }
    ensures { IfOk result (λ messages. letters messages
        ≡ More (key plan.now.head.now.leader role.now plan.now.head.now.index Begin)
        (Part plan.now.epoch (projected plan.now.cast.now (term plan.now.body.now) role.now))
        (letters rest)) }
{
    match begin_key(plan.alloc, plan.head, role) {
        Ok(key) => begin_with(plan, key, role, rest),
        Err(fault) => give_up(rest, fault),
    }
}

/// The message of that key with the role's part, and those after it.
fn begin_with(plan: &Plan<'_>, key: Key, role: &Role, rest: Messages) -> Result<Messages, Memory>
    requires { (q : OneRole) → is_in q (term plan.now.body.now) ≡ true
        → member q plan.now.cast.now ≡ true }
    ensures { IfOk result (λ messages. letters messages ≡ More key
        (Part plan.now.epoch (projected plan.now.cast.now (term plan.now.body.now) role.now))
        (letters rest)) }
{
    match boxed_part(plan, role) {
        Ok(part) => more(plan.alloc, key, part, rest),
        Err(fault) => give_up((key, rest), fault),
    }
}

/// The role's part of the body, as a message carries it.
fn boxed_part(plan: &Plan<'_>, role: &Role) -> Result<Box<Payload>, Memory>
    requires { (q : OneRole) → is_in q (term plan.now.body.now) ≡ true
        → member q plan.now.cast.now ≡ true }
    ensures { IfOk result (λ part. load part.value ≡ Part plan.now.epoch
        (projected plan.now.cast.now (term plan.now.body.now) role.now)) }
{
    let proc = project(plan.alloc, plan.body, role, plan.cast)?;
    let epoch = plan.epoch;
    new_box(plan.alloc, Payload::Part { epoch, proc })
}

/// The message, and those after it.
fn more(alloc: Global, key: Key, payload: Box<Payload>, rest: Messages) -> Result<Messages, Memory>
    ensures { IfOk result (λ messages.
        letters messages ≡ More key (load payload.value) (letters rest)) }
{
    match new_box(alloc, rest) {
        Ok(rest) => Ok(Messages::More(key, payload, rest)),
        Err(fault) => give_up((key, payload), fault),
    }
}

/// The key of the message that tells the role the begin of the scope.
fn begin_key(alloc: Global, head: &ScopeHead, role: &Role) -> Result<Key, Memory>
    ensures { IfOk result (λ made. made ≡ key head.now.leader role.now head.now.index Begin) }
{
    Ok(Key {
        from: head.leader.copy(alloc)?,
        to: role.copy(alloc)?,
        index: head.index,
        tag: Tag::Begin,
    })
}

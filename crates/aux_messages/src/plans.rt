//! The messages that a leader sends to the other roles of a construct.

ghost use Rattle.std.specs.Prelude.{◌≡◌, IfOk, map};
ghost use Rattle.dioc_terms.specs.declared.names.Role.{Role};
ghost use Rattle.dioc_terms.specs.Processes.{Load};
ghost use Rattle.process_steps.specs.Steps.{key, letters_to};
ghost use Rattle.aux_messages.specs.Plans.{keys_of};

use dioc_terms::{Index, Key, Memory, Role, Tag};
use std::alloc::Global;

/// The keys of the messages by which the leader of a construct tells its other roles: one from the
/// leader to each of them, in their order, with the index of the construct and this tag. Whatever
/// the messages carry, a leader's process sends those of these keys, one by one.
pub fn leader_plan(
    alloc: Global,
    tag: Tag,
    index: Index,
    leader: &Role,
    others: &[Role],
) -> Result<Vec<Key>, Memory>
    ensures keys { IfOk result (λ plan. plan.items ≡ map (λ other. key leader.now other index tag)
        others.now) }
    ensures told { (carries : Role → Load) →
        IfOk result (λ plan. plan.items
        ≡ keys_of (letters_to leader.now others.now index tag carries)) }
{
    keys_to(alloc, &tag, index, leader, others)
}

fn keys_to(
    alloc: Global,
    tag: &Tag,
    index: Index,
    leader: &Role,
    others: &[Role],
) -> Result<Vec<Key>, Memory>
    ensures { IfOk result (λ plan. plan.items ≡ map (λ other. key leader.now other index tag.now)
        others.now) }
{
    let mut plan = Vec::with_capacity(alloc, others.len())?;
    for other in others {
        plan.push_reserved(key_to(alloc, tag, index, leader, other)?);
    }
    Ok(plan)
}

/// The key of one of these messages.
fn key_to(
    alloc: Global,
    tag: &Tag,
    index: Index,
    leader: &Role,
    other: &Role,
) -> Result<Key, Memory>
    ensures { IfOk result (λ made. made ≡ key leader.now other.now index tag.now) }
{
    Ok(Key {
        from: leader.copy(alloc)?,
        to: other.copy(alloc)?,
        index,
        tag: tag.copy(alloc)?,
    })
}

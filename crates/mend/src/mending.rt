//! Closing, opening and joining, from the inside out.

ghost use Rattle.std.specs.Prelude.{◌≡◌, ◌+◌, false, Some, IfOk, IfErr, OnOk};
ghost use Rattle.dioc_terms.specs.Terms.{term, Seq, nodes};
ghost use Rattle.mend.specs.Building.{IsStopOf, beginner, is_joint, is_pair, teller};
ghost use Rattle.mend.specs.Mended.{closed, opened, through, join, relinked};

use crate::building::{ask, spend_nodes, tell};
use crate::ends::{are_empty, first_beginner, is_empty, is_linked};
use crate::faults::{Stop, stopped};
use dioc_terms::{Choreo, Memory, Role};
use std::alloc::Global;

/// The role that tells of a construct.
fn teller(alloc: Global, part: &Choreo) -> Result<Option<Role>, Memory>
    ensures { IfOk result (λ found. found ≡ teller (term part.now)) }
{
    match part {
        Choreo::Skip | Choreo::Seq(_, _) | Choreo::Par(_, _) => Ok(None),
        Choreo::Com { to, .. } => Ok(Some(to.copy(alloc)?)),
        Choreo::Set { role, .. } | Choreo::Input { role, .. } => Ok(Some(role.copy(alloc)?)),
        Choreo::If { leader, .. } | Choreo::While { leader, .. } | Choreo::Scope { leader, .. } => {
            Ok(Some(leader.copy(alloc)?))
        }
    }
}

/// The role that begins a construct: of a message its sender, else the one that tells of it.
fn beginner(alloc: Global, part: &Choreo) -> Result<Option<Role>, Memory>
    ensures { IfOk result (λ found. found ≡ beginner (term part.now)) }
{
    match part {
        Choreo::Com { from, .. } => Ok(Some(from.copy(alloc)?)),
        whole => teller(alloc, whole),
    }
}

/// Closes a construct, or nothing, for the role.
#[tactic(auto, using(crate::proofs::Closing::closed_none, crate::proofs::Closing::closed_told))]
fn close_whole(alloc: Global, left: &mut u32, part: &mut Choreo, role: &Role) -> Result<(), Stop>
    requires { is_joint (term part.old) ≡ false }
    ensures made { OnOk result (term part.new ≡ closed role.now (term part.old)) }
    ensures spent { OnOk result (left.new + nodes (term part.new)
        ≡ left.old + nodes (term part.old)) }
    ensures stop { IfErr result (IsStopOf (left.old + nodes (term part.old))
        (nodes (closed role.now (term part.old)))) }
{
    match teller(alloc, part)? {
        None => Ok(()),
        Some(last) => tell(alloc, left, part, &last, role),
    }
}

/// Opens a construct, or nothing, for the role.
#[tactic(auto, using(crate::proofs::Closing::opened_none, crate::proofs::Closing::opened_asked))]
fn open_whole(alloc: Global, left: &mut u32, part: &mut Choreo, role: &Role) -> Result<(), Stop>
    requires { is_pair (term part.old) ≡ false }
    ensures made { OnOk result (term part.new ≡ opened role.now (term part.old)) }
    ensures spent { OnOk result (left.new + nodes (term part.new)
        ≡ left.old + nodes (term part.old)) }
    ensures stop { IfErr result (IsStopOf (left.old + nodes (term part.old))
        (nodes (opened role.now (term part.old)))) }
{
    match beginner(alloc, part)? {
        None => Ok(()),
        Some(first) => ask(alloc, left, part, &first, role),
    }
}

/// Closes the part for the role: each of its endings then has it.
#[tactic(auto, using(crate::proofs::Sizes::closed_grows))]
fn close(alloc: Global, left: &mut u32, part: &mut Choreo, role: &Role) -> Result<(), Stop>
    ensures made { OnOk result (term part.new ≡ closed role.now (term part.old)) }
    ensures spent { OnOk result (left.new + nodes (term part.new)
        ≡ left.old + nodes (term part.old)) }
    ensures stop { IfErr result (IsStopOf (left.old + nodes (term part.old))
        (nodes (closed role.now (term part.old)))) }
{
    match part {
        Choreo::Seq(first, second) => {
            if is_empty(second) {
                close(alloc, left, first, role)
            } else {
                close(alloc, left, second, role)
            }
        }
        Choreo::Par(one, other) => {
            close(alloc, left, one, role)?;
            close(alloc, left, other, role)
        }
        Choreo::If {
            leader,
            yes,
            no,
            ..
        } => {
            if are_empty(yes, no) {
                let last = leader.copy(alloc)?;
                tell(alloc, left, part, &last, role)
            } else {
                close(alloc, left, yes, role)?;
                close(alloc, left, no, role)
            }
        }
        whole => close_whole(alloc, left, whole, role),
    }
}

/// Opens the part for the role: nobody else then begins it.
#[tactic(auto, using(crate::proofs::Sizes::opened_grows))]
fn open(alloc: Global, left: &mut u32, part: &mut Choreo, role: &Role) -> Result<(), Stop>
    ensures made { OnOk result (term part.new ≡ opened role.now (term part.old)) }
    ensures spent { OnOk result (left.new + nodes (term part.new)
        ≡ left.old + nodes (term part.old)) }
    ensures stop { IfErr result (IsStopOf (left.old + nodes (term part.old))
        (nodes (opened role.now (term part.old)))) }
{
    match part {
        Choreo::Seq(earlier, later) => {
            if is_empty(earlier) {
                open(alloc, left, later, role)
            } else {
                open(alloc, left, earlier, role)
            }
        }
        Choreo::Par(one, other) => {
            open(alloc, left, one, role)?;
            open(alloc, left, other, role)
        }
        whole => open_whole(alloc, left, whole, role),
    }
}

/// Makes a sequence of these two parts go through a role.
#[tactic(auto, using(crate::proofs::Sizes::closed_grows, crate::proofs::Sizes::opened_grows))]
fn go_through(
    alloc: Global,
    left: &mut u32,
    role: &Role,
    first: &mut Choreo,
    second: &mut Choreo,
) -> Result<(), Stop>
    ensures made { OnOk result (Seq (term first.new) (term second.new)
        ≡ through (Some role.now) (term first.old) (term second.old)) }
    ensures spent { OnOk result (left.new + nodes (Seq (term first.new) (term second.new))
        ≡ left.old + nodes (Seq (term first.old) (term second.old))) }
    ensures stop { IfErr result
        (IsStopOf (left.old + nodes (Seq (term first.old) (term second.old)))
        (nodes (through (Some role.now) (term first.old) (term second.old)))) }
{
    close(alloc, left, first, role)?;
    open(alloc, left, second, role)
}

/// Links a sequence of these two parts.
fn join(
    alloc: Global,
    left: &mut u32,
    cast: &[Role],
    first: &mut Choreo,
    second: &mut Choreo,
) -> Result<(), Stop>
    ensures made { OnOk result (Seq (term first.new) (term second.new)
        ≡ join cast.now (term first.old) (term second.old)) }
    ensures spent { OnOk result (left.new + nodes (Seq (term first.new) (term second.new))
        ≡ left.old + nodes (Seq (term first.old) (term second.old))) }
    ensures stop { IfErr result
        (IsStopOf (left.old + nodes (Seq (term first.old) (term second.old)))
        (nodes (join cast.now (term first.old) (term second.old)))) }
{
    if is_linked(first, second) {
        return Ok(());
    }
    match first_beginner(cast, second) {
        None => Ok(()),
        Some(role) => go_through(alloc, left, role, first, second),
    }
}

/// Joins each sequence inside, inner ones first.
#[tactic(auto, using(crate::proofs::Sizes::join_grows, crate::proofs::Sizes::relinked_grows))]
fn relink(alloc: Global, left: &mut u32, cast: &[Role], choreo: &mut Choreo) -> Result<(), Stop>
    ensures made { OnOk result (term choreo.new ≡ relinked cast.now (term choreo.old)) }
    ensures spent { OnOk result (left.new + nodes (term choreo.new)
        ≡ left.old + nodes (term choreo.old)) }
    ensures stop { IfErr result (IsStopOf (left.old + nodes (term choreo.old))
        (nodes (relinked cast.now (term choreo.old)))) }
{
    match choreo {
        Choreo::Seq(first, second) => {
            relink(alloc, left, cast, first)?;
            relink(alloc, left, cast, second)?;
            join(alloc, left, cast, first, second)
        }
        Choreo::Par(one, other) => {
            relink(alloc, left, cast, one)?;
            relink(alloc, left, cast, other)
        }
        Choreo::If { yes, no, .. } => {
            relink(alloc, left, cast, yes)?;
            relink(alloc, left, cast, no)
        }
        Choreo::While { body, .. } => relink(alloc, left, cast, body),
        Choreo::Scope { body, .. } => relink(alloc, left, cast, body),
        Choreo::Skip | Choreo::Com { .. } | Choreo::Set { .. } | Choreo::Input { .. } => Ok(()),
    }
}

/// A copy of the choreography with each sequence inside joined. Each of its nodes is spent.
#[tactic(auto, using(crate::proofs::Sizes::relinked_grows))]
pub(crate) fn joined(
    alloc: Global,
    left: &mut u32,
    cast: &[Role],
    choreo: &Choreo,
) -> Result<Choreo, Stop>
    ensures made { IfOk result (λ made. term made ≡ relinked cast.now (term choreo.now)) }
    ensures spent { IfOk result (λ made. left.new + nodes (term made) ≡ left.old) }
    ensures stop { IfErr result (IsStopOf left.old (nodes (relinked cast.now (term choreo.now)))) }
{
    spend_nodes(left, choreo)?;
    let mut made = choreo.copy(alloc)?;
    match relink(alloc, left, cast, &mut made) {
        Ok(()) => Ok(made),
        Err(why) => stopped(made, why),
    }
}

//! The roles that a choreography names.

ghost use Rattle.std.specs.Prelude.{◌≡◌, IfOk, OnOk};
ghost use Rattle.indexmap.specs.IndexSet.{insert_key, insert_all};
ghost use Rattle.dioc_terms.specs.Equality.{role_eq};
ghost use Rattle.dioc_terms.specs.Terms.{term, mentions, cast_of, is_in};

use crate::choreographies::Choreo;
use crate::faults::Memory;
use crate::lists::{Items, Roles};
use crate::names::{Role, is_among};
use indexmap::IndexSet;
use std::alloc::Global;

/// The roles that a choreography names, each once, in the order in which its text first names them.
pub fn roles(alloc: Global, choreo: &Choreo) -> Result<Roles, Memory>
    ensures { IfOk result (λ roles. roles ≡ cast_of (term choreo.now)) }
{
    let mut seen = IndexSet::new(alloc);
    add_mentions(alloc, &mut seen, choreo)?;
    in_order(alloc, seen)
}

/// The roles of the set, in the order of their adding.
fn in_order(alloc: Global, seen: IndexSet<Role>) -> Result<Roles, Memory>
    ensures { IfOk result (λ roles. roles ≡ seen.keys) }
{
    Ok(Items::new(seen.into_iter().collect(alloc)?))
}

/// Adds the roles that the choreography names.
fn add_mentions(alloc: Global, seen: &mut IndexSet<Role>, choreo: &Choreo) -> Result<(), Memory>
    ensures { OnOk result (seen.new.keys ≡ insert_all role_eq seen.old.keys
        (mentions (term choreo.now))) }
{
    match choreo {
        Choreo::Skip => Ok(()),
        Choreo::Com { from, to, .. } => {
            add_role(alloc, seen, from)?;
            add_role(alloc, seen, to)
        }
        Choreo::Set { role, .. } | Choreo::Input { role, .. } => add_role(alloc, seen, role),
        Choreo::Seq(first, second) | Choreo::Par(first, second) => {
            add_mentions(alloc, seen, first)?;
            add_mentions(alloc, seen, second)
        }
        Choreo::If {
            leader,
            yes,
            no,
            ..
        } => {
            add_role(alloc, seen, leader)?;
            add_mentions(alloc, seen, yes)?;
            add_mentions(alloc, seen, no)
        }
        Choreo::While { leader, body, .. } => {
            add_role(alloc, seen, leader)?;
            add_mentions(alloc, seen, body)
        }
        Choreo::Scope {
            leader,
            body,
            extra,
            ..
        } => {
            add_role(alloc, seen, leader)?;
            add_mentions(alloc, seen, body)?;
            add_all(alloc, seen, extra.as_slice())
        }
    }
}

fn add_all(alloc: Global, seen: &mut IndexSet<Role>, roles: &[Role]) -> Result<(), Memory>
    ensures { OnOk result (seen.new.keys ≡ insert_all role_eq seen.old.keys roles.now) }
{
    for role in roles {
        add_role(alloc, seen, role)?;
    }
    Ok(())
}

fn add_role(alloc: Global, seen: &mut IndexSet<Role>, role: &Role) -> Result<(), Memory>
    ensures { OnOk result (seen.new.keys ≡ insert_key role_eq seen.old.keys role.now) }
{
    if !seen.contains(role) {
        seen.insert(role.copy(alloc)?)?;
    }
    Ok(())
}

/// Whether a choreography names the role.
pub fn names_role(choreo: &Choreo, role: &Role) -> bool
    ensures { result ≡ is_in role.now (term choreo.now) }
{
    match choreo {
        Choreo::Skip => false,
        Choreo::Com { from, to, .. } => role == from || role == to,
        Choreo::Set { role: owner, .. } | Choreo::Input { role: owner, .. } => role == owner,
        Choreo::Seq(first, second) | Choreo::Par(first, second) => {
            names_role(first, role) || names_role(second, role)
        }
        Choreo::If {
            leader,
            yes,
            no,
            ..
        } => role == leader || names_role(yes, role) || names_role(no, role),
        Choreo::While { leader, body, .. } => role == leader || names_role(body, role),
        Choreo::Scope {
            leader,
            body,
            extra,
            ..
        } => role == leader || names_role(body, role) || is_among(role, extra.as_slice()),
    }
}

//! Which roles a part of a choreography names: a flag for each role of the cast.

ghost use Rattle.std.specs.Prelude.{◌≡◌, ◌∷◌, [], ◌++◌, ◌&&◌, ◌||◌, IfOk, OnOk, filter, if◌then◌else◌, map, not};
ghost use Rattle.dioc_terms.specs.Equality.{role_eq, member};
ghost use Rattle.dioc_terms.specs.Terms.{term};
ghost use Rattle.projection.specs.Named.{flagged, names_itself, raised};

use dioc_terms::{Choreo, Items, Memory, Role, Roles, is_among};
use std::alloc::Global;

/// Whether the part itself names the role, whatever stands inside it.
pub fn names_itself(part: &Choreo, role: &Role) -> bool
    ensures { result ≡ names_itself role.now (term part.now) }
{
    match part {
        Choreo::Skip | Choreo::Seq(..) | Choreo::Par(..) => false,
        Choreo::Com { from, to, .. } => role == from || role == to,
        Choreo::Set { role: owner, .. } | Choreo::Input { role: owner, .. } => role == owner,
        Choreo::If { leader, .. } | Choreo::While { leader, .. } => role == leader,
        Choreo::Scope { leader, extra, .. } => role == leader || is_among(role, extra.as_slice()),
    }
}

/// The flags of the roles that the part itself names.
pub fn own_flags(alloc: Global, cast: &[Role], part: &Choreo) -> Result<Vec<bool>, Memory>
    ensures { IfOk result (λ flags. flags.items
        ≡ map (λ q. names_itself q (term part.now)) cast.now) }
{
    Ok(
        cast.iter()
            .map(|role| names_itself(part, role))
            .collect(alloc)?,
    )
}

/// Raises the flags of the roles that the part itself names.
pub fn raise_own(named: &mut [bool], cast: &[Role], part: &Choreo)
    ensures { named.new ≡ raised (map (λ q. names_itself q (term part.now)) cast.now) named.old }
{
    let places = named.len().min(cast.len());
    for place in 0..places {
        raise_flag(&mut named[place], names_itself(part, &cast[place]));
    }
}

/// Raises each flag that is raised among the others.
pub fn raise(named: &mut [bool], more: &[bool])
    ensures { named.new ≡ raised more.now named.old }
{
    let places = named.len().min(more.len());
    for place in 0..places {
        raise_flag(&mut named[place], more[place]);
    }
}

fn raise_flag(flag: &mut bool, is_raised: bool)
    ensures { flag.new ≡ (flag.old || is_raised) }
{
    *flag = *flag || is_raised;
}

/// The roles whose flags are raised, in the cast's order.
pub(crate) fn roles_in(alloc: Global, cast: &[Role], named: &[bool]) -> Result<Roles, Memory>
    ensures { IfOk result (λ roles. roles ≡ flagged cast.now named.now) }
{
    let mut roles = Vec::new(alloc);
    let places = named.len().min(cast.len());
    for place in 0..places {
        keep(alloc, &mut roles, &cast[place], named[place])?;
    }
    Ok(Items::new(roles))
}

/// The roles whose flags are raised, without the leader, in the cast's order.
pub fn others(alloc: Global, cast: &[Role], leader: &Role, named: &[bool]) -> Result<Roles, Memory>
    ensures { IfOk result (λ roles.
        roles ≡ filter (λ q. not (role_eq q leader.now)) (flagged cast.now named.now)) }
{
    let mut roles = Vec::new(alloc);
    let places = named.len().min(cast.len());
    for place in 0..places {
        let role = &cast[place];
        keep(
            alloc,
            &mut roles,
            role,
            is_other(named[place], leader, role),
        )?;
    }
    Ok(Items::new(roles))
}

/// Whether the role is named, and another one leads.
fn is_other(is_named: bool, leader: &Role, role: &Role) -> bool
    ensures { result ≡ (is_named && not (role_eq role.now leader.now)) }
{
    is_named && role != leader
}

/// Adds the role where it is kept.
fn keep(alloc: Global, roles: &mut Vec<Role>, role: &Role, is_kept: bool) -> Result<(), Memory>
    ensures { OnOk result (roles.new.items ≡ roles.old.items
        ++ (if is_kept then role.now ∷ [] else [])) }
{
    if is_kept {
        roles.push(role.copy(alloc)?)?;
    }
    Ok(())
}

//! What the leader of a construct knows of it.

ghost use Rattle.std.specs.Prelude.{◌≡◌, IfOk};
ghost use Rattle.dioc_terms.specs.Terms.{term};
ghost use Rattle.projection.specs.Leaders.{leads};
ghost use Rattle.projection.specs.Named.{flagged};

use crate::named::roles_in;
use dioc_terms::{Bindings, Choreo, Index, Memory, Role, ScopeHead};
use std::alloc::Global;

/// Whether the role leads the part.
pub fn leads(part: &Choreo, role: &Role) -> bool
    ensures { result ≡ leads role.now (term part.now) }
{
    match part {
        Choreo::If { leader, .. } => role == leader,
        Choreo::While { leader, .. } => role == leader,
        Choreo::Scope { leader, .. } => role == leader,
        _ => false,
    }
}

/// What the leader of a scope shows the book. The flags are raised of the roles of the scope.
pub fn head(
    alloc: Global,
    index: Index,
    leader: &Role,
    props: &Bindings,
    level: u32,
    cast: &[Role],
    named: &[bool],
) -> Result<ScopeHead, Memory>
    ensures { IfOk result (λ head. head ≡
        record {
          index = index;
          leader = leader.now;
          roles = flagged cast.now named.now;
          props = props.now;
          level = level;
        }) }
{
    Ok(ScopeHead {
        index,
        leader: leader.copy(alloc)?,
        roles: roles_in(alloc, cast, named)?,
        props: props.copy(alloc)?,
        level,
    })
}

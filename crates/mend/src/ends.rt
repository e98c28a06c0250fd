//! Who begins and who ends a part of a choreography. Nothing here takes memory.

ghost use Rattle.std.specs.Prelude.{◌≡◌, ◌&&◌, find};
ghost use Rattle.std.specs.Option.{option_copied};
ghost use Rattle.dioc_terms.specs.Equality.{member};
ghost use Rattle.dioc_terms.specs.Terms.{term, empty, is_in};
ghost use Rattle.connectedness.specs.ByCases.{begins, attends_ends};
ghost use Rattle.connectedness.specs.Connected.{linked};
ghost use Rattle.mend.specs.Building.{attended};
ghost use Rattle.mend.specs.Mended.{first_starter};

use connectedness::roles_at_ends;
use dioc_terms::{Choreo, Role, names_role};

/// Whether a part has no construct.
pub(crate) fn is_empty(choreo: &Choreo) -> bool
    ensures { result ≡ empty (term choreo.now) }
{
    match choreo {
        Choreo::Skip => true,
        Choreo::Seq(first, second) | Choreo::Par(first, second) => {
            is_empty(first) && is_empty(second)
        }
        _ => false,
    }
}

/// Whether neither of two parts has a construct.
pub(crate) fn are_empty(one: &Choreo, other: &Choreo) -> bool
    ensures { result ≡ (empty (term one.now) && empty (term other.now)) }
{
    is_empty(one) && is_empty(other)
}

/// Whether the role begins a part.
fn is_starter(choreo: &Choreo, role: &Role) -> bool
    ensures { result ≡ begins role.now (term choreo.now) }
{
    match choreo {
        Choreo::Skip => false,
        Choreo::Com { from, .. } => role == from,
        Choreo::Set { role: owner, .. } | Choreo::Input { role: owner, .. } => role == owner,
        Choreo::Seq(first, second) if is_empty(first) => is_starter(second, role),
        Choreo::Seq(first, _) => is_starter(first, role),
        Choreo::Par(left, right) => is_starter(left, role) || is_starter(right, role),
        Choreo::If { leader, .. } | Choreo::While { leader, .. } | Choreo::Scope { leader, .. } => {
            role == leader
        }
    }
}

/// Whether the role is in each group that ends a part.
fn attends(choreo: &Choreo, role: &Role) -> bool
    ensures { result ≡ attends_ends role.now (term choreo.now) }
{
    match choreo {
        Choreo::Skip => true,
        Choreo::Seq(first, second) if is_empty(second) => attends(first, role),
        Choreo::Seq(_, second) => attends(second, role),
        Choreo::Par(left, right) => attends(left, role) && attends(right, role),
        Choreo::If { yes, no, .. } => {
            let named = names_role(choreo, role);
            let first = if is_empty(yes) {
                named
            } else {
                attends(yes, role)
            };
            let second = if is_empty(no) {
                named
            } else {
                attends(no, role)
            };
            first && second
        }
        _ => names_role(choreo, role),
    }
}

/// Whether each role that begins the second part is in each group that ends the first.
fn are_attended(first: &Choreo, second: &Choreo) -> bool
    ensures { result ≡ attended (term first.now) (term second.now) }
{
    match second {
        Choreo::Skip => true,
        Choreo::Com { from, .. } => attends(first, from),
        Choreo::Set { role, .. } | Choreo::Input { role, .. } => attends(first, role),
        Choreo::Seq(earlier, later) if is_empty(earlier) => are_attended(first, later),
        Choreo::Seq(earlier, _) => are_attended(first, earlier),
        Choreo::Par(left, right) => are_attended(first, left) && are_attended(first, right),
        Choreo::If { leader, .. } | Choreo::While { leader, .. } | Choreo::Scope { leader, .. } => {
            attends(first, leader)
        }
    }
}

/// Whether a sequence of these two parts is linked.
pub(crate) fn is_linked(first: &Choreo, second: &Choreo) -> bool
    ensures { result ≡ linked (term first.now) (term second.now) }
{
    roles_at_ends();
    are_attended(first, second)
}

/// The first role of the cast that begins a part.
pub(crate) fn first_beginner<'a>(cast: &'a [Role], choreo: &Choreo) -> Option<&'a Role>
    ensures { option_copied result ≡ first_starter cast.now (term choreo.now) }
{
    roles_at_ends();
    first_begun(cast, choreo)
}

/// The same, with each role asked by recursion over the part.
fn first_begun<'a>(cast: &'a [Role], choreo: &Choreo) -> Option<&'a Role>
    ensures { option_copied result ≡ find (λ q. begins q (term choreo.now)) cast.now }
{
    cast.iter().find(|role| is_starter(choreo, role))
}

//! What a construct must know of the parts inside it, so that each part is looked at once.

ghost use Rattle.std.specs.Prelude.{◌≡◌, List, ℕ, [], ◌&&◌, not, ◌||◌, map, position, true, zip, is_none, IfOk};
ghost use Rattle.dioc_terms.specs.declared.names.Role.{Role};
ghost use Rattle.dioc_terms.specs.declared.values.Value.{Value};
ghost use Rattle.dioc_terms.specs.Equality.{role_eq, member};
ghost use Rattle.dioc_terms.specs.Expressions.{Expression};
ghost use Rattle.dioc_terms.specs.Leaves.{is_leaf_term};
ghost use Rattle.dioc_terms.specs.Terms.{Term, term, Skip, Com, Set, Input, Seq, Par, If, While, Scope};
ghost use Rattle.connectedness.specs.Connected.{gap_at};
ghost use Rattle.connectedness.specs.Summaries.{presence_in, in_act, in_sequence, in_parallel, in_choice, in_block, IsGapOf, IsSummary};

use crate::laws::roles_at_ends;
use dioc_terms::{Choreo, Index, Memory, Role, is_among};
use std::alloc::Global;

/// How a role takes part in a part of a choreography.
#[derive(Clone, Copy)]
pub(crate) struct Presence {
    /// It begins the part.
    starts: bool,
    /// It is in each group of roles that ends the part.
    attends: bool,
    /// The part names it.
    named: bool,
}

/// A sequence that isn't linked.
#[derive(Clone, Copy)]
pub(crate) struct FoundGap {
    /// The index of the first construct of the first part.
    pub(crate) first: Index,
    /// The index of the first construct of the second part.
    pub(crate) second: Index,
    /// The number in the cast of the first role that is missing.
    pub(crate) role: usize,
}

/// What is known of a part of a choreography.
#[derive(Drop)]
pub(crate) struct Summary {
    /// The index of its first construct, `None` where it has none.
    pub(crate) first: Option<Index>,
    /// How each role of the cast takes part, in the order of the cast.
    roles: Vec<Presence>,
    /// The first sequence inside that isn't linked.
    pub(crate) gap: Option<FoundGap>,
}

impl Summary {
    /// Whether the part has no construct.
    fn is_empty(&self) -> bool
        ensures { result ≡ is_none self.now.first }
    {
        self.first.is_none()
    }
}

/// What is known of a choreography.
#[cycle(summary_of)]
pub(crate) fn summary_of(alloc: Global, choreo: &Choreo, cast: &[Role]) -> Result<Summary, Memory>
    ensures { IfOk result (IsSummary cast.now (term choreo.now)) }
{
    match choreo {
        Choreo::Seq(first, second) => {
            let first = summary_of(alloc, first, cast)?;
            let second = summary_of(alloc, second, cast)?;
            sequence(alloc, &first, &second)
        }
        Choreo::Par(left, right) => {
            let left = summary_of(alloc, left, cast)?;
            let right = summary_of(alloc, right, cast)?;
            parallel(alloc, &left, &right)
        }
        Choreo::If {
            index,
            leader,
            yes,
            no,
            ..
        } => {
            let yes = summary_of(alloc, yes, cast)?;
            let no = summary_of(alloc, no, cast)?;
            choice(alloc, cast, *index, leader, &yes, &no)
        }
        Choreo::While {
            index,
            leader,
            body,
            ..
        } => block(alloc, cast, *index, leader, body, &[]),
        Choreo::Scope {
            index,
            leader,
            body,
            extra,
            ..
        } => block(alloc, cast, *index, leader, body, extra.as_slice()),
        leaf => leaf_summary(alloc, leaf, cast),
    }
}

/// What is known of a term with no term inside.
fn leaf_summary(alloc: Global, leaf: &Choreo, cast: &[Role]) -> Result<Summary, Memory>
    requires { is_leaf_term (term leaf.now) ≡ true }
    ensures { IfOk result (IsSummary cast.now (term leaf.now)) }
{
    match leaf {
        Choreo::Skip => empty(alloc, cast),
        Choreo::Com {
            index,
            from,
            to,
            ..
        } => act(alloc, cast, *index, from, to),
        Choreo::Set { index, role, .. } => act(alloc, cast, *index, role, role),
        Choreo::Input { index, role, .. } => act(alloc, cast, *index, role, role),
        _ => unreachable!(),
    }
}

/// What is known of a part without constructs: nobody begins it, and no group of roles ends it.
fn empty(alloc: Global, cast: &[Role]) -> Result<Summary, Memory>
    ensures { IfOk result (IsSummary cast.now Skip) }
{
    let roles = empty_roles(alloc, cast)?;
    Ok(Summary {
        first: None,
        roles,
        gap: None,
    })
}

/// How each role takes part in a part without constructs.
fn empty_roles(alloc: Global, cast: &[Role]) -> Result<Vec<Presence>, Memory>
    ensures { IfOk result (λ roles. roles.items ≡ map (presence_in Skip) cast.now) }
{
    let absent = Presence {
        starts: false,
        attends: true,
        named: false,
    };
    Ok(cast.iter().map(|_| absent).collect(alloc)?)
}

/// What is known of a message, or of a step of one role, which counts as a message to itself.
fn act(
    alloc: Global,
    cast: &[Role],
    index: Index,
    from: &Role,
    to: &Role,
) -> Result<Summary, Memory>
    ensures com { IfOk result (λ summary. (o : List ℕ) (e : Expression) (x : List ℕ) →
        IsSummary cast.now (Com index o from.now e to.now x) summary) }
    ensures set { IfOk result (λ summary. (x : List ℕ) (e : Expression) →
        from.now ≡ to.now → IsSummary cast.now (Set index x from.now e) summary) }
    ensures input { IfOk result (λ summary. (x : List ℕ) →
        from.now ≡ to.now → IsSummary cast.now (Input index x from.now) summary) }
{
    let roles = act_roles(alloc, cast, from, to)?;
    Ok(Summary {
        first: Some(index),
        roles,
        gap: None,
    })
}

/// How each role takes part in a message, or in a step of one role.
fn act_roles(alloc: Global, cast: &[Role], from: &Role, to: &Role) -> Result<Vec<Presence>, Memory>
    ensures { IfOk result (λ roles.
        roles.items ≡ map (λ q. in_act (role_eq q from.now) (role_eq q to.now)) cast.now) }
{
    let roles = cast
        .iter()
        .map(|role| in_act(role == from, role == to))
        .collect(alloc)?;
    Ok(roles)
}

/// How a role takes part in a message that it sends or receives.
fn in_act(sends: bool, receives: bool) -> Presence
    ensures { result ≡ in_act sends receives }
{
    let named = sends || receives;
    Presence {
        starts: sends,
        attends: named,
        named,
    }
}

/// What is known of two parts one after the other.
fn sequence(alloc: Global, first: &Summary, second: &Summary) -> Result<Summary, Memory>
    ensures { IfOk result (λ summary. (cast : List Role) (I J : Term) →
        IsSummary cast I first.now → IsSummary cast J second.now →
        IsSummary cast (Seq I J) summary) }
{
    let gap = gap_between(first, second);
    let roles = sequence_roles(alloc, first, second)?;
    Ok(Summary {
        first: first.first.or(second.first),
        roles,
        gap: gap.or(first.gap.or(second.gap)),
    })
}

/// The gap of the sequence of two parts.
fn gap_between(first: &Summary, second: &Summary) -> Option<FoundGap>
    ensures { (cast : List Role) (I J : Term) →
        IsSummary cast I first.now → IsSummary cast J second.now
        → IsGapOf cast result (gap_at cast I J) }
{
    roles_at_ends();
    let before = first.first?;
    let after = second.first?;
    let role = first_missing(first, second)?;
    Some(FoundGap {
        first: before,
        second: after,
        role,
    })
}

/// The number in the cast of the first role that begins the second part and isn't in each group
/// that ends the first.
fn first_missing(first: &Summary, second: &Summary) -> Option<usize>
    ensures { result ≡ position (λ pair. pair.1.starts && not pair.0.attends)
        (zip first.now.roles.items second.now.roles.items) }
{
    first
        .roles
        .iter()
        .zip(&second.roles)
        .position(|(before, after)| after.starts && !before.attends)
}

/// How each role takes part in two parts one after the other.
fn sequence_roles(alloc: Global, first: &Summary, second: &Summary) -> Result<Vec<Presence>, Memory>
    ensures { IfOk result (λ roles. roles.items ≡
        map (λ pair. in_sequence (is_none first.now.first) (is_none second.now.first) pair.0 pair.1)
        (zip first.now.roles.items second.now.roles.items)) }
{
    let no_first = first.is_empty();
    let no_second = second.is_empty();
    let roles = first
        .roles
        .iter()
        .zip(&second.roles)
        .map(|(before, after)| in_sequence(no_first, no_second, *before, *after))
        .collect(alloc)?;
    Ok(roles)
}

/// How a role takes part in two parts one after the other, of which one or the other may be empty.
fn in_sequence(no_first: bool, no_second: bool, first: Presence, second: Presence) -> Presence
    ensures { result ≡ in_sequence no_first no_second first second }
{
    Presence {
        starts: if no_first {
            second.starts
        } else {
            first.starts
        },
        attends: if no_second {
            first.attends
        } else {
            second.attends
        },
        named: first.named || second.named,
    }
}

/// What is known of two parts side by side.
fn parallel(alloc: Global, left: &Summary, right: &Summary) -> Result<Summary, Memory>
    ensures { IfOk result (λ summary. (cast : List Role) (I J : Term) →
        IsSummary cast I left.now → IsSummary cast J right.now → IsSummary cast (Par I J) summary) }
{
    let roles = parallel_roles(alloc, left, right)?;
    Ok(Summary {
        first: left.first.or(right.first),
        roles,
        gap: left.gap.or(right.gap),
    })
}

/// How each role takes part in two parts side by side.
fn parallel_roles(alloc: Global, left: &Summary, right: &Summary) -> Result<Vec<Presence>, Memory>
    ensures { IfOk result (λ roles. roles.items ≡
        map (λ pair. in_parallel pair.0 pair.1) (zip left.now.roles.items right.now.roles.items)) }
{
    let roles = left
        .roles
        .iter()
        .zip(&right.roles)
        .map(|(left, right)| in_parallel(*left, *right))
        .collect(alloc)?;
    Ok(roles)
}

/// How a role takes part in two parts side by side.
fn in_parallel(left: Presence, right: Presence) -> Presence
    ensures { result ≡ in_parallel left right }
{
    Presence {
        starts: left.starts || right.starts,
        attends: left.attends && right.attends,
        named: left.named || right.named,
    }
}

/// What is known of a choice between two branches.
fn choice(
    alloc: Global,
    cast: &[Role],
    index: Index,
    leader: &Role,
    yes: &Summary,
    no: &Summary,
) -> Result<Summary, Memory>
    ensures { IfOk result (λ summary. (g : Expression) (I J : Term) →
        IsSummary cast.now I yes.now → IsSummary cast.now J no.now
        → IsSummary cast.now (If index leader.now g I J) summary) }
{
    let both = parallel(alloc, yes, no)?;
    let one_empty = yes.is_empty() || no.is_empty();
    let roles = choice_roles(alloc, cast, leader, one_empty, &both)?;
    Ok(Summary {
        first: Some(index),
        roles,
        gap: both.gap,
    })
}

/// How each role takes part in a choice between these two branches, of which one may be empty.
fn choice_roles(
    alloc: Global,
    cast: &[Role],
    leader: &Role,
    one_empty: bool,
    both: &Summary,
) -> Result<Vec<Presence>, Memory>
    ensures { IfOk result (λ roles. roles.items ≡
        map (λ pair. in_choice one_empty (role_eq pair.0 leader.now) pair.1)
        (zip cast.now both.now.roles.items)) }
{
    let roles = cast
        .iter()
        .zip(&both.roles)
        .map(|(role, both)| in_choice(one_empty, role == leader, *both))
        .collect(alloc)?;
    Ok(roles)
}

/// How a role takes part in a choice. An empty branch counts as one group, all roles of the choice;
/// an empty part has no group, so in `both` it asks nothing.
fn in_choice(one_empty: bool, leads: bool, both: Presence) -> Presence
    ensures { result ≡ in_choice one_empty leads both }
{
    let named = leads || both.named;
    Presence {
        starts: leads,
        attends: both.attends && (named || !one_empty),
        named,
    }
}

/// What is known of a loop, or of a scope that names these roles further.
#[cycle(summary_of)]
fn block(
    alloc: Global,
    cast: &[Role],
    index: Index,
    leader: &Role,
    body: &Choreo,
    extra: &[Role],
) -> Result<Summary, Memory>
    ensures looped { IfOk result (λ summary. (g : Expression) →
        extra.now ≡ [] → IsSummary cast.now (While index leader.now g (term body.now)) summary) }
    ensures scope { IfOk result (λ summary. (props : List (List ℕ × Value)) (level : ℕ) →
        IsSummary cast.now (Scope index leader.now (term body.now) extra.now props level) summary) }
{
    let body = summary_of(alloc, body, cast)?;
    let roles = block_roles(alloc, cast, leader, &body, extra)?;
    Ok(Summary {
        first: Some(index),
        roles,
        gap: body.gap,
    })
}

/// How each role takes part in a loop or a scope.
fn block_roles(
    alloc: Global,
    cast: &[Role],
    leader: &Role,
    body: &Summary,
    extra: &[Role],
) -> Result<Vec<Presence>, Memory>
    ensures { IfOk result (λ roles. roles.items ≡
        map (λ pair. in_block (role_eq pair.0 leader.now) (member pair.0 extra.now) pair.1)
        (zip cast.now body.now.roles.items)) }
{
    let roles = cast
        .iter()
        .zip(&body.roles)
        .map(|(role, body)| in_block(role == leader, is_among(role, extra), *body))
        .collect(alloc)?;
    Ok(roles)
}

/// How a role takes part in a loop or a scope, which is ended by one group, all its roles.
fn in_block(leads: bool, named_further: bool, body: Presence) -> Presence
    ensures { result ≡ in_block leads named_further body }
{
    let named = leads || body.named || named_further;
    Presence {
        starts: leads,
        attends: named,
        named,
    }
}

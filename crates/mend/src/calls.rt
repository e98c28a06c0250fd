//! Mending a choreography.

ghost use Rattle.std.specs.Prelude.{◌≡◌, ◌≤◌, ◌<◌, [], None, IfOk, IfErr, IfSome, MatchOption};
ghost use Rattle.limits.specs.Limits.{most_nodes};
ghost use Rattle.dioc_terms.specs.Terms.{term, indexed, self_messages, nodes};
ghost use Rattle.connectedness.specs.Laws.{HasRoles};
ghost use Rattle.mend.specs.Calls.{IsMendedFrom, IsMendFaultOf};
ghost use Rattle.mend.specs.Mended.{with_numbers, mended};
ghost use Rattle.mend.specs.Names.{taken_name};

use crate::faults::{MendFault, Stop};
use crate::laws::{drops_to_input, mended_connected};
use crate::mending::joined;
use crate::names::first_taken;
use crate::numbering::number;
use dioc_terms::{Choreo, Memory, Role, give_up};
use index_marks::mark;
use std::alloc::Global;

/// The choreography, connected by added messages: where the second part of a sequence is begun by
/// a role that isn't in each group that ends the first, the first such starter of the cast is told
/// by the last roles of the first part, and asks whoever else begins the second. An added message
/// is `sq_n: r(nil) -> s(sq_v)`, with n counting from 0 in the order of the result's text. The
/// answer is marked.
///
/// The error is `NameTaken` exactly where an operation or a variable of the choreography begins
/// with `sq_`, with the first such name in its text, and `Memory` where memory runs out.
#[tactic(auto, using(crate::proofs::Bounds::mended_fits))]
pub fn mend(alloc: Global, choreo: &Choreo, cast: &[Role]) -> Result<Choreo, MendFault>
    requires marks { term choreo.now ≡ indexed (term choreo.now) }
    requires in_cast { HasRoles cast.now (term choreo.now) }
    requires no_self_message { self_messages (term choreo.now) ≡ [] }
    requires few_nodes { nodes (term choreo.now) ≤ most_nodes }
    ensures mended { IfOk result (λ made. IsMendedFrom cast.now (term choreo.now) (term made)) }
    ensures fault { IfErr result (IsMendFaultOf (term choreo.now)) }
{
    match mend_within(alloc, choreo, cast, u32::MAX)? {
        Some(made) => Ok(made),
        None => unreachable!(),
    }
}

/// The same as `mend`, for a choreography of any size, where the result has at most `most` nodes.
/// It is `None` exactly where the result would have more, and building stops once that is known.
#[tactic(auto, using(crate::proofs::Bounds::same_size))]
pub fn mend_within(
    alloc: Global,
    choreo: &Choreo,
    cast: &[Role],
    most: u32,
) -> Result<Option<Choreo>, MendFault>
    requires marks { term choreo.now ≡ indexed (term choreo.now) }
    requires in_cast { HasRoles cast.now (term choreo.now) }
    requires no_self_message { self_messages (term choreo.now) ≡ [] }
    ensures within { IfOk result (λ made. MatchOption made
        (most < nodes (mended cast.now (term choreo.now)))
        (λ _. nodes (mended cast.now (term choreo.now)) ≤ most)) }
    ensures free { IfOk result (λ _. taken_name (term choreo.now) ≡ None) }
    ensures mended { IfOk result (λ made. IfSome made (λ made.
        IsMendedFrom cast.now (term choreo.now) (term made))) }
    ensures fault { IfErr result (IsMendFaultOf (term choreo.now)) }
{
    drops_to_input();
    mended_connected();
    if let Some(name) = first_taken(choreo) {
        return match name.copy(alloc) {
            Ok(name) => Err(MendFault::NameTaken(name)),
            Err(Memory) => Err(MendFault::Memory),
        };
    }
    let mut left = most;
    match joined(alloc, &mut left, cast, choreo) {
        Ok(made) => match finished(alloc, made) {
            Ok(made) => Ok(Some(made)),
            Err(Memory) => Err(MendFault::Memory),
        },
        Err(Stop::TooMany) => Ok(None),
        Err(Stop::Memory) => Err(MendFault::Memory),
    }
}

/// A joined choreography with its added messages numbered, and marked.
#[tactic(auto, using(crate::proofs::Bounds::numbered_size))]
fn finished(alloc: Global, joined: Choreo) -> Result<Choreo, Memory>
    requires { nodes (term joined) ≤ 4294967295 }
    ensures { IfOk result (λ made. term made ≡ indexed (with_numbers 0 (term joined))) }
{
    let mut made = joined;
    match number(alloc, &mut made, 0) {
        Ok(_) => {
            mark(&mut made);
            Ok(made)
        }
        Err(fault) => give_up(made, fault),
    }
}

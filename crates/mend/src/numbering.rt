//! The numbers of added messages.

ghost use Rattle.std.specs.Prelude.{◌≡◌, ◌+◌, ◌≤◌, if◌then◌else◌, IfOk, OnOk};
ghost use Rattle.dioc_terms.specs.Terms.{term, nodes};
ghost use Rattle.mend.specs.Mended.{added_messages, with_numbers};
ghost use Rattle.mend.specs.Names.{begins_sq, sq_name};

use crate::building::name;
use crate::names::is_taken;
use dioc_terms::{Choreo, Memory, Name};
use itoa::Buffer;
use std::alloc::Global;

/// The operation of the added message of this number.
#[tactic(auto, using(crate::proofs::Numbers::sq_name_is_name))]
fn sq_name(alloc: Global, number: u32) -> Result<Name, Memory>
    ensures { IfOk result (λ name. name ≡ sq_name number) }
{
    let mut digits = Buffer::new();
    let mut bytes = b"sq_".to_vec(alloc)?;
    bytes.extend_from_slice(digits.format(number).as_bytes())?;
    name(alloc, &bytes)
}

/// Numbers one operation where it is an added message's, and answers the number of the next.
fn number_one(alloc: Global, op: &mut Name, before: u32) -> Result<u32, Memory>
    requires { before + 1 ≤ 4294967295 }
    ensures name { OnOk result (op.new ≡ (if begins_sq op.old then sq_name before else op.old)) }
    ensures next { IfOk result (λ next. next ≡ before + (if begins_sq op.old then 1 else 0)) }
{
    if !is_taken(op) {
        return Ok(before);
    }
    *op = sq_name(alloc, before)?;
    Ok(before + 1)
}

/// Numbers the added messages of a part in the order of its text, where so many stand before it,
/// and answers how many stand before what follows it.
pub(crate) fn number(alloc: Global, choreo: &mut Choreo, before: u32) -> Result<u32, Memory>
    requires { before + nodes (term choreo.old) ≤ 4294967295 }
    ensures numbered { OnOk result (term choreo.new ≡ with_numbers before (term choreo.old)) }
    ensures next { IfOk result (λ next. next ≡ before + added_messages (term choreo.old)) }
    ensures few { OnOk result (added_messages (term choreo.old) ≤ nodes (term choreo.old)) }
{
    match choreo {
        Choreo::Com { op, .. } => number_one(alloc, op, before),
        Choreo::Seq(first, second) => {
            let between = number(alloc, first, before)?;
            number(alloc, second, between)
        }
        Choreo::Par(left, right) => {
            let between = number(alloc, left, before)?;
            number(alloc, right, between)
        }
        Choreo::If { yes, no, .. } => {
            let between = number(alloc, yes, before)?;
            number(alloc, no, between)
        }
        Choreo::While { body, .. } => number(alloc, body, before),
        Choreo::Scope { body, .. } => number(alloc, body, before),
        Choreo::Skip | Choreo::Set { .. } | Choreo::Input { .. } => Ok(before),
    }
}

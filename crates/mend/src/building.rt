//! The pieces of a mended choreography: added messages, and constructs with one behind or before
//! them. Each counts the nodes that it adds.
//!
//! A part is changed in its place: what is held while something may fail is let go at each such
//! place, and that is proved through all forms of a choreography.

ghost use Rattle.std.specs.Prelude.{◌≡◌, ◌+◌, ◌<◌, true, OnOk, IfOk, IfErr};
ghost use Rattle.dioc_terms.specs.Equality.{role_eq};
ghost use Rattle.dioc_terms.specs.Names.{is_name};
ghost use Rattle.dioc_terms.specs.Terms.{term, is_in, nodes};
ghost use Rattle.mend.specs.Building.{IsStopOf};
ghost use Rattle.mend.specs.Mended.{message, told, led_in};

use crate::faults::{Stop, stopped};
use dioc_terms::{Choreo, Expr, Index, Memory, Name, NameFault, Role, Value, names_role, new_box};
use index_marks::nodes;
use std::alloc::Global;
use std::mem;

/// A name of these bytes.
pub(crate) fn name(alloc: Global, bytes: &[u8]) -> Result<Name, Memory>
    requires { is_name bytes.now ≡ true }
    ensures { IfOk result (λ name. name ≡ bytes.now) }
{
    match Name::read(alloc, bytes) {
        Ok(name) => Ok(name),
        Err(NameFault::Memory) => Err(Memory),
        Err(NameFault::NotAName) => unreachable!(),
    }
}

/// A message to add, without its number and its index.
fn message(alloc: Global, from: &Role, to: &Role) -> Result<Choreo, Memory>
    ensures { IfOk result (λ made. term made ≡ message from.now to.now) }
{
    let op = name(alloc, b"sq_")?;
    let var = name(alloc, b"sq_v")?;
    let from = from.copy(alloc)?;
    let to = to.copy(alloc)?;
    Ok(Choreo::Com {
        index: Index { epoch: 0, place: 0 },
        op,
        from,
        expr: Expr::Const(Value::Nil),
        to,
        var,
    })
}

/// Spends so many of the nodes that are left.
fn spend(left: &mut u32, count: u32) -> Result<(), Stop>
    ensures spent { OnOk result (left.new + count ≡ left.old) }
    ensures stop { IfErr result (IsStopOf left.old count) }
{
    if *left < count {
        return Err(Stop::TooMany);
    }
    *left -= count;
    Ok(())
}

/// Spends as many nodes as the part has.
pub(crate) fn spend_nodes(left: &mut u32, part: &Choreo) -> Result<(), Stop>
    ensures spent { OnOk result (left.new + nodes (term part.now) ≡ left.old) }
    ensures stop { IfErr result (IsStopOf left.old (nodes (term part.now))) }
{
    let count = nodes(part);
    if (*left as usize) < count {
        return Err(Stop::TooMany);
    }
    *left -= count as u32;
    Ok(())
}

/// A message to add, in a box, with its nodes and those of the sequence with it spent.
fn added(alloc: Global, left: &mut u32, from: &Role, to: &Role) -> Result<Box<Choreo>, Stop>
    ensures made { IfOk result (λ made. term made.value ≡ message from.now to.now) }
    ensures spent { OnOk result (left.new + 2 ≡ left.old) }
    ensures stop { IfErr result (IsStopOf left.old 2) }
{
    spend(left, 2)?;
    let added = message(alloc, from, to)?;
    Ok(new_box(alloc, added)?)
}

/// The part, taken out into a box of its own; nothing is left in its place.
fn taken_out(alloc: Global, part: &mut Choreo) -> Result<Box<Choreo>, Memory>
    ensures { IfOk result (λ taken. taken.value ≡ part.old) }
{
    let mut taken = new_box(alloc, Choreo::Skip)?;
    mem::swap(&mut *taken, part);
    Ok(taken)
}

/// Puts another choreography in place of the part.
fn put(part: &mut Choreo, choreo: Choreo)
    ensures { part.new ≡ choreo }
{
    drop(mem::replace(part, choreo));
}

/// Puts a message from one of its last roles to the role behind the part, unless the part has the
/// role.
pub(crate) fn tell(
    alloc: Global,
    left: &mut u32,
    part: &mut Choreo,
    last: &Role,
    role: &Role,
) -> Result<(), Stop>
    ensures made { OnOk result (term part.new
        ≡ told (is_in role.now (term part.old)) (term part.old) last.now role.now) }
    ensures spent { OnOk result (left.new + nodes (term part.new)
        ≡ left.old + nodes (term part.old)) }
    ensures stop { IfErr result (IsStopOf (left.old + nodes (term part.old))
        (nodes (told (is_in role.now (term part.old)) (term part.old) last.now role.now))) }
{
    if names_role(part, role) {
        return Ok(());
    }
    let added = added(alloc, left, last, role)?;
    match taken_out(alloc, part) {
        Ok(whole) => {
            put(part, Choreo::Seq(whole, added));
            Ok(())
        }
        Err(_) => stopped(added, Stop::Memory),
    }
}

/// Puts a message from the role to the role that begins it before the part, unless they are the
/// same.
pub(crate) fn ask(
    alloc: Global,
    left: &mut u32,
    part: &mut Choreo,
    first: &Role,
    role: &Role,
) -> Result<(), Stop>
    ensures made { OnOk result (term part.new
        ≡ led_in (role_eq role.now first.now) (term part.old) first.now role.now) }
    ensures spent { OnOk result (left.new + nodes (term part.new)
        ≡ left.old + nodes (term part.old)) }
    ensures stop { IfErr result (IsStopOf (left.old + nodes (term part.old))
        (nodes (led_in (role_eq role.now first.now) (term part.old) first.now role.now))) }
{
    if role == first {
        return Ok(());
    }
    let added = added(alloc, left, role, first)?;
    match taken_out(alloc, part) {
        Ok(whole) => {
            put(part, Choreo::Seq(added, whole));
            Ok(())
        }
        Err(_) => stopped(added, Stop::Memory),
    }
}

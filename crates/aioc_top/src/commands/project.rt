//! `project`: what each role does of a bundle's choreography.

ghost use Rattle.std.specs.Prelude.{◌≡◌, ◌++◌, true, codes, flat_map, IfOk, OnOk};
ghost use Rattle.dioc_terms.specs.Bundles.{IsFormed};
ghost use Rattle.dioc_terms.specs.Equality.{member};
ghost use Rattle.dioc_terms.specs.Plain.{plain};
ghost use Rattle.dioc_terms.specs.Processes.{process};
ghost use Rattle.dioc_terms.specs.Terms.{term, is_in};
ghost use Rattle.trace_text.specs.Process.{has_text, process_text};
ghost use Rattle.aioc_top.specs.Replies.{line_of_text, project_text, reply_of, role_line};
ghost use Rattle.aioc_top.specs.declared.replies.End.TheVariants as end;

use crate::replies::{End, Written};
use dioc_terms::{Bundle, Choreo, Memory, Proc, Role, casts_are_roles};
use std::alloc::Global;
use text_pieces::write_bytes;
use trace_text::write_process;

/// A line for each role, in the order of the cast: its name and its process.
pub fn project(alloc: Global, bundle: &Bundle) -> Result<Written, Memory>
    requires formed { IsFormed (plain bundle.now) }
    ensures { IfOk result (λ written. reply_of written
        ≡ record { end = end.Done; text = project_text (plain bundle.now) }) }
{
    casts_are_roles();
    let mut text = Vec::new(alloc);
    write_roles(alloc, &bundle.choreo, bundle.cast.as_slice(), &mut text)?;
    Ok(Written {
        end: End::Done,
        text,
    })
}

// Appends the line of each role of the cast.
fn write_roles(
    alloc: Global,
    choreo: &Choreo,
    cast: &[Role],
    out: &mut Vec<u8>,
) -> Result<(), Memory>
    requires named { (q : Role) → is_in q (term choreo.now) ≡ true
        → member q cast.now ≡ true }
    ensures ok { OnOk result (out.new.items
        ≡ out.old.items ++ flat_map (role_line cast.now (term choreo.now)) cast.now) }
{
    for role in cast {
        write_role(alloc, choreo, role, cast, out)?;
    }
    Ok(())
}

// Appends the line of a role.
fn write_role(
    alloc: Global,
    choreo: &Choreo,
    role: &Role,
    cast: &[Role],
    out: &mut Vec<u8>,
) -> Result<(), Memory>
    requires named { (q : Role) → is_in q (term choreo.now) ≡ true
        → member q cast.now ≡ true }
    ensures ok { OnOk result (out.new.items
        ≡ out.old.items ++ role_line cast.now (term choreo.now) role.now) }
{
    let proc = projection::project(alloc, choreo, role, cast)?;
    let written = write_line(role, &proc, out);
    drop(proc);
    written
}

// Appends the line of a role with its process.
fn write_line(role: &Role, proc: &Proc, out: &mut Vec<u8>) -> Result<(), Memory>
    requires { has_text (process proc.now) ≡ true }
    ensures ok { OnOk result (out.new.items ≡ out.old.items
        ++ line_of_text (role.now.0 ++ codes " = " ++ process_text (process proc.now))) }
{
    write_bytes(role.0.bytes(), out)?;
    write_bytes(b" = ", out)?;
    write_process(proc, out)?;
    write_bytes(b"\n", out)
}

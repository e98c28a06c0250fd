//! Why there is no reply, and the lines that tell a person so.

ghost use Rattle.std.specs.Prelude.{◌≡◌, IfOk};
ghost use Rattle.aioc_top.specs.Messages.{refusal_line, syntax_line};
ghost use Rattle.aioc_top.specs.Reasons.{MayNotRun, CannotBeMended};

use dioc_terms::{Memory, SyntaxFault};
use mend::MendRefusal;
use rule_checks::Refusal;
use std::alloc::Global;
use text_pieces::{write_bytes, write_number};

/// Why there is no reply.
#[derive(Drop)]
pub enum Fault {
    /// The words ask for nothing.
    Usage,
    /// The source failed.
    ReadFault,
    /// The source gave more bytes than are allowed.
    TooLong,
    /// The bytes spell nothing that the command reads; their reading ends at this byte.
    Syntax(usize),
    /// The bundle may not run.
    Refused(Refusal),
    /// The bundle can't be mended.
    Unmendable(MendRefusal),
    /// Memory ran out.
    Memory,
}

impl From<Memory> for Fault {
    ghost use Rattle.aioc_top.specs.declared.faults.Fault.TheVariants as fault;

    ghost from_gives = { λ _ e. e ≡ fault.Memory };

    fn from(_: Memory) -> Self {
        Fault::Memory
    }
}

impl From<SyntaxFault> for Fault {
    ghost use Rattle.aioc_top.specs.Faults.{syntax_fault};

    ghost from_gives = { λ told made. made ≡ syntax_fault told };

    fn from(fault: SyntaxFault) -> Self {
        match fault {
            SyntaxFault::Syntax(byte) => Fault::Syntax(byte),
            SyntaxFault::Memory => Fault::Memory,
        }
    }
}

impl From<Refusal> for Fault {
    ghost use Rattle.aioc_top.specs.Faults.{refusal_fault};

    ghost from_gives = { λ told made. made ≡ refusal_fault told };

    fn from(refusal: Refusal) -> Self {
        match refusal {
            Refusal::Memory => Fault::Memory,
            _ => Fault::Refused(refusal),
        }
    }
}

impl From<MendRefusal> for Fault {
    ghost use Rattle.aioc_top.specs.Faults.{mend_refusal_fault};

    ghost from_gives = { λ told made. made ≡ mend_refusal_fault told };

    fn from(refusal: MendRefusal) -> Self {
        match refusal {
            MendRefusal::Refused(Refusal::Memory) => Fault::Memory,
            _ => Fault::Unmendable(refusal),
        }
    }
}

/// The line of a text that spells no bundle.
pub fn make_syntax_line(alloc: Global, byte: usize) -> Result<Vec<u8>, Memory>
    ensures { IfOk result (λ line. line.items ≡ syntax_line byte) }
{
    let mut line = Vec::new(alloc);
    write_bytes(b"syntax: byte ", &mut line)?;
    write_number(byte as u64, &mut line)?;
    write_bytes(b"\n", &mut line)?;
    Ok(line)
}

/// The line of a bundle that may not run.
pub fn make_refusal_line(alloc: Global, refusal: &Refusal) -> Result<Vec<u8>, Memory>
    ensures { IfOk result (λ line. line.items ≡ refusal_line (MayNotRun refusal.now)) }
{
    let line = format!(in alloc; "refused: {refusal}\n")?;
    Ok(line.into_bytes())
}

/// The line of a bundle that can't be mended.
pub fn make_mend_refusal_line(alloc: Global, refusal: &MendRefusal) -> Result<Vec<u8>, Memory>
    ensures { IfOk result (λ line. line.items ≡ refusal_line (CannotBeMended refusal.now)) }
{
    let line = format!(in alloc; "refused: {refusal}\n")?;
    Ok(line.into_bytes())
}

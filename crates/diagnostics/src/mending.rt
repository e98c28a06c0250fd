//! The messages that mending adds, as a person is told of them.

ghost use Rattle.dioc_terms.specs.Bundles.{IsFormed};
ghost use Rattle.dioc_terms.specs.Plain.{plain};

use crate::wording::{Piece, write_pieces};
use dioc_terms::{Bundle, Choreo, Memory, Name, Role};
use mend::{MendRefusal, mend_bundle};
use rule_checks::{Refusal, Where};
use std::alloc::Global;
use text_pieces::write_bytes;

/// So many added messages are told at most.
const MOST_MESSAGES: usize = 4;

/// Whether an operation is that of a message that mending adds.
fn is_added(op: &Name) -> bool {
    op.bytes().starts_with(b"sq_")
}

/// Appends an added message, the one with this number, and answers the next number.
fn write_message<'a>(
    number: usize,
    from: &'a Role,
    to: &'a Role,
    out: &mut Vec<u8>,
) -> Result<usize, Memory> {
    if number > 0 && number < MOST_MESSAGES {
        write_bytes(b", ", out)?;
    }
    if number < MOST_MESSAGES {
        write_pieces(
            &[
                Piece::Bytes(from.0.bytes()),
                Piece::Bytes(b" -> "),
                Piece::Bytes(to.0.bytes()),
            ],
            out,
        )?;
    }
    if number == MOST_MESSAGES {
        write_bytes(b", ..", out)?;
    }
    Ok(number.saturating_add(1))
}

/// Appends the added messages of a choreography, before which so many were told, and answers how
/// many were told then.
fn write_messages(choreo: &Choreo, told: usize, out: &mut Vec<u8>) -> Result<usize, Memory> {
    match choreo {
        Choreo::Com { op, from, to, .. } => {
            if is_added(op) {
                write_message(told, from, to, out)
            } else {
                Ok(told)
            }
        }
        Choreo::Seq(first, second) | Choreo::Par(first, second) => {
            let between = write_messages(first, told, out)?;
            write_messages(second, between, out)
        }
        Choreo::If { yes, no, .. } => {
            let between = write_messages(yes, told, out)?;
            write_messages(no, between, out)
        }
        Choreo::While { body, .. } | Choreo::Scope { body, .. } => write_messages(body, told, out),
        Choreo::Skip | Choreo::Set { .. } | Choreo::Input { .. } => Ok(told),
    }
}

/// The choreography, or the body of a rule.
fn part_of(bundle: &Bundle, part: Where) -> &Choreo {
    match part {
        Where::Program => &bundle.choreo,
        Where::Rule(number) => match bundle.rules.as_slice().get(number as usize) {
            Some(rule) => &rule.body,
            None => &bundle.choreo,
        },
    }
}

/// Appends which messages `aioc mend` adds to a part of a bundle, or why it adds none.
pub fn write_mended(
    alloc: Global,
    bundle: &Bundle,
    part: Where,
    out: &mut Vec<u8>,
) -> Result<(), Memory>
    requires { IsFormed (plain bundle.now) }
{
    match mend_bundle(alloc, bundle) {
        Ok(made) => {
            write_bytes(b"`aioc mend` would add here: ", out)?;
            write_messages(part_of(&made, part), 0, out)?;
            Ok(())
        }
        Err(MendRefusal::Refused(Refusal::Memory)) => Err(Memory),
        Err(MendRefusal::NameTaken(_, name)) => write_pieces(
            &[
                Piece::Bytes(b"`aioc mend` would add messages, but the name '"),
                Piece::Bytes(name.bytes()),
                Piece::Bytes(b"' begins with 'sq_' as theirs do"),
            ],
            out,
        ),
        Err(_) => write_bytes(
            b"`aioc mend` adds the messages that link a sequence, once nothing else is refused",
            out,
        ),
    }
}

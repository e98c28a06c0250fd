//! The numbers that are drawn, and the kinds of blocks that they give.

ghost use Rattle.std.specs.Prelude.{◌≡◌, IfOk};
ghost use Rattle.load_gen.specs.Draws.{drawn, kind_of, kinds};

use dioc_terms::Memory;
use std::alloc::Global;

/// What a block is.
#[derive(Clone, Copy)]
pub(crate) enum Kind {
    /// A message to the next role.
    Message,
    /// A choice between two messages to the next role.
    Choice,
    /// A loop of two turns with a message to the next role.
    Loop,
    /// A scope with a message to the next role.
    Scope,
}

/// The number that is drawn after another one.
fn draw(last: u64) -> u64
    ensures { result ≡ drawn last }
{
    last.wrapping_mul(6364136223846793005)
        .wrapping_add(1442695040888963407)
}

/// The kind that a drawn number gives.
fn kind_of(number: u64) -> Kind
    ensures { result ≡ kind_of number }
{
    match (number >> 33) % 4 {
        0 => Kind::Message,
        1 => Kind::Choice,
        2 => Kind::Loop,
        _ => Kind::Scope,
    }
}

/// The kinds of so many blocks, drawn from the seed on.
pub(crate) fn draw_kinds(alloc: Global, seed: u64, size: u32) -> Result<Vec<Kind>, Memory>
    ensures { IfOk result (λ made. made.items ≡ kinds size seed) }
{
    let mut kinds = Vec::new(alloc);
    let mut number = seed;
    for _block in 0..size {
        number = draw(number);
        kinds.push(kind_of(number))?;
    }
    Ok(kinds)
}

//! The choreography that is made: an opening, and then groups of blocks.

ghost use Rattle.std.specs.Prelude.{◌≡◌, ◌+◌, ◌-◌, ◌/◌, ◌<◌, ◌≤◌, ◌++◌, ◌∷◌, [], length, map, IfOk};
ghost use Rattle.dioc_terms.specs.Bundles.{numbers_from};
ghost use Rattle.dioc_terms.specs.Terms.{term};
ghost use Rattle.load_gen.specs.Blocks.{blocks, roles_after};
ghost use Rattle.load_gen.specs.Made.{choreography, groups_of_twenty, opening_steps, pass, sequence, text};
ghost use Rattle.load_gen.specs.Pieces.{number_literal, setting_variable, token};

use crate::blocks::{block, role_after};
use crate::draws::{Kind, draw_kinds};
use crate::pieces::{name, number, sending, sequence, setting, token, with_digit};
use dioc_terms::{Choreo, Memory, give_up};
use index_marks::mark;
use std::alloc::Global;

/// So many blocks are one part of the choreography.
const GROUP: usize = 20;

/// Who has the token after the blocks.
fn roles_after(kinds: &[Kind], c: u32) -> u32
    requires { c < 8 }
    ensures value { result ≡ roles_after kinds.now c }
    ensures below { result < 8 }
{
    match kinds {
        [] => c,
        [kind, rest @ ..] => roles_after(rest, role_after(*kind, c)),
    }
}

/// One after another, from block b on, where role number c has the token.
fn group(alloc: Global, kinds: &[Kind], b: u32, c: u32) -> Result<Choreo, Memory>
    requires some { 0 < length kinds.now }
    requires few { b + length kinds.now ≤ 400 }
    requires is_role { c < 8 }
    ensures { IfOk result (λ made. term made ≡ sequence (blocks kinds.now b c)) }
{
    let Some((kind, rest)) = kinds.split_first() else {
        unreachable!();
    };
    if rest.is_empty() {
        return block(alloc, *kind, b, c);
    }
    let later = group(alloc, rest, b + 1, role_after(*kind, c))?;
    match block(alloc, *kind, b, c) {
        Ok(first) => sequence(alloc, first, later),
        Err(fault) => give_up(later, fault),
    }
}

/// The groups of the blocks, one after another.
#[tactic(auto, using(crate::proofs::Rows::few_groups, crate::proofs::Rows::many_groups))]
fn groups(alloc: Global, kinds: &[Kind], b: u32, c: u32) -> Result<Choreo, Memory>
    requires some { 0 < length kinds.now }
    requires few { b + length kinds.now ≤ 400 }
    requires is_role { c < 8 }
    ensures { IfOk result (λ made. term made ≡ sequence
        (map sequence (groups_of_twenty ((length kinds.now + 19) / 20) (blocks kinds.now b c)))) }
{
    if kinds.len() <= GROUP {
        return group(alloc, kinds, b, c);
    }
    let (first, rest) = kinds.split_at(GROUP);
    let later = groups(alloc, rest, b + 20, roles_after(first, c))?;
    match group(alloc, first, b, c) {
        Ok(first) => sequence(alloc, first, later),
        Err(fault) => give_up(later, fault),
    }
}

/// Role number j passes the token on.
fn pass(alloc: Global, j: u32) -> Result<Choreo, Memory>
    requires { j < 8 }
    ensures { IfOk result (λ made. term made ≡ pass j) }
{
    let op = with_digit(alloc, b"pass", j)?;
    let token = token(alloc)?;
    sending(alloc, op, j, token)
}

/// The roles from number j on pass the token on, and then the rest comes.
#[tactic(auto, using(crate::proofs::Rows::pass_more, crate::proofs::Rows::pass_none))]
fn passed(alloc: Global, j: u32, rest: Choreo) -> Result<Choreo, Memory>
    requires { j ≤ 8 }
    ensures { IfOk result (λ made. term made
        ≡ sequence (map pass (numbers_from j (8 - j)) ++ term rest ∷ [])) }
{
    if j == 8 {
        return Ok(rest);
    }
    let later = passed(alloc, j + 1, rest)?;
    match pass(alloc, j) {
        Ok(first) => sequence(alloc, first, later),
        Err(fault) => give_up(later, fault),
    }
}

/// The first role sets the token.
fn first(alloc: Global) -> Result<Choreo, Memory>
    ensures { IfOk result (λ made. term made ≡ setting_variable token 0 (number_literal 1)) }
{
    let var = name(alloc, b"t")?;
    setting(alloc, var, 0, number(1))
}

/// The opening, and then the rest.
fn opened(alloc: Global, rest: Choreo) -> Result<Choreo, Memory>
    ensures { IfOk result (λ made. term made ≡ sequence (opening_steps ++ term rest ∷ [])) }
{
    let later = passed(alloc, 0, rest)?;
    match first(alloc) {
        Ok(first) => sequence(alloc, first, later),
        Err(fault) => give_up(later, fault),
    }
}

/// The text that is made, without its indices.
#[tactic(auto, using(crate::proofs::Rows::text_joined, crate::proofs::Accepting::kinds_count))]
fn text(alloc: Global, seed: u64, size: u32) -> Result<Choreo, Memory>
    requires some { 1 ≤ size }
    requires few { size ≤ 400 }
    ensures { IfOk result (λ made. term made ≡ text seed size) }
{
    let kinds = draw_kinds(alloc, seed, size)?;
    let blocks = groups(alloc, kinds.as_slice(), 0, 0)?;
    opened(alloc, blocks)
}

/// The choreography that is made.
#[tactic(auto, using(crate::proofs::Accepting::text_nodes))]
pub(crate) fn choreography(alloc: Global, seed: u64, size: u32) -> Result<Choreo, Memory>
    requires some { 1 ≤ size }
    requires few { size ≤ 400 }
    ensures { IfOk result (λ made. term made ≡ choreography seed size) }
{
    let mut made = text(alloc, seed, size)?;
    mark(&mut made);
    Ok(made)
}

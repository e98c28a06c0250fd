//! `leader_plan LEADER OTHER..: TAG`: the messages by which a leader tells the other roles.

use aux_messages::leader_plan;
use case_tables::{Case, Problem};
use dioc_terms::{Entry, Index, Key, Memory, Name, Note, Role, Tag};
use std::alloc::Global;
use text_pieces::write_bytes;
use trace_text::write_line;

const INDEX: Index = Index { epoch: 1, place: 6 };

/// Appends the lines of the messages.
pub fn answer_plan(alloc: Global, case: &Case, out: &mut Vec<u8>) -> Result<(), Problem> {
    let roles = roles_of(alloc, case)?;
    let written = write_plan(alloc, &case.text, roles.as_slice(), out);
    drop(roles);
    written
}

// Appends the lines by which the first of the roles tells the others.
fn write_plan(
    alloc: Global,
    text: &[u8],
    roles: &[Role],
    out: &mut Vec<u8>,
) -> Result<(), Problem> {
    let [leader, others @ ..] = roles else {
        return Err(Problem::Bad("the first option is the leader"));
    };
    let tag = tag_of(alloc, text)?;
    let keys = leader_plan(alloc, tag, INDEX, leader, others)?;
    Ok(write_puts(keys, out)?)
}

fn write_puts(keys: Vec<Key>, out: &mut Vec<u8>) -> Result<(), Memory> {
    for key in keys {
        write_put(key, out)?;
    }
    Ok(())
}

fn write_put(key: Key, out: &mut Vec<u8>) -> Result<(), Memory> {
    let entry = Entry::Put {
        key,
        note: Note::Done,
    };
    let written = write_line(&entry, out);
    drop(entry);
    written?;
    write_bytes(b"\n", out)
}

fn tag_of(alloc: Global, text: &[u8]) -> Result<Tag, Problem> {
    match text {
        b"!choice" => Ok(Tag::Choice),
        b"!go" => Ok(Tag::Go),
        b"!turn" => Ok(Tag::Turn),
        b"!begin" => Ok(Tag::Begin),
        b"!end" => Ok(Tag::End),
        b"!out" => Ok(Tag::Out),
        _ => Ok(Tag::Op(name_of(alloc, text)?)),
    }
}

fn roles_of(alloc: Global, case: &Case) -> Result<Vec<Role>, Problem> {
    let mut roles = Vec::new(alloc);
    for option in case.options.as_slice() {
        roles.push(role_of(alloc, option)?)?;
    }
    Ok(roles)
}

fn role_of(alloc: Global, bytes: &[u8]) -> Result<Role, Problem> {
    Ok(Role(name_of(alloc, bytes)?))
}

fn name_of(alloc: Global, bytes: &[u8]) -> Result<Name, Problem> {
    match Name::read(alloc, bytes) {
        Ok(name) => Ok(name),
        Err(_) => Err(Problem::Bad("no name stands where one is wanted")),
    }
}

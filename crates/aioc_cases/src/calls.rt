//! The calls that a case can name, each in a module of its own.

mod auxiliary;
mod bundles;
mod casts;
mod choreographies;
mod copies;
mod expressions;
mod indices;
mod lexemes;
mod links;
mod lists;
mod refusals;
mod rules;
mod sizes;
mod spellings;
mod tokenizing;
mod traces;
mod values;
mod words;

use case_tables::{Case, Problem};
use std::alloc::Global;

/// The lines that answer a case.
pub fn answer(alloc: Global, case: &Case) -> Result<Vec<u8>, Problem> {
    let mut out = Vec::new(alloc);
    match write_answer(alloc, case, &mut out) {
        Ok(()) => Ok(out),
        Err(problem) => {
            drop(out);
            Err(problem)
        }
    }
}

fn write_answer(alloc: Global, case: &Case, out: &mut Vec<u8>) -> Result<(), Problem> {
    match case.call.as_slice() {
        b"name" => spellings::answer_name(alloc, case, out),
        b"text" => spellings::answer_text(alloc, case, out),
        b"tokens" => tokenizing::answer(alloc, case, out),
        b"lexemes" => lexemes::answer(alloc, case, out),
        b"read_expr" => expressions::answer(alloc, case, out),
        b"eval" => values::answer(alloc, case, out),
        b"read_choreo" => choreographies::answer(alloc, case, out),
        b"nodes" => sizes::answer_nodes(alloc, case, out),
        b"depth" => sizes::answer_depth(alloc, case, out),
        b"indices" => indices::answer(alloc, case, out),
        b"copy" => copies::answer_copy(alloc, case, out),
        b"stamped" => copies::answer_stamped(alloc, case, out),
        b"roles" => casts::answer(alloc, case, out),
        b"check" => links::answer(alloc, case, out),
        b"leader_plan" => auxiliary::answer_plan(alloc, case, out),
        b"read_trace" => traces::answer_trace(alloc, case, out),
        b"trace_line" => traces::answer_line(alloc, case, false, out),
        b"json_line" => traces::answer_line(alloc, case, true, out),
        b"read_rule" => rules::answer_rule(alloc, case, out),
        b"read_change" => rules::answer_change(alloc, case, out),
        b"read_bundle" => bundles::answer_read(alloc, case, out),
        b"write_bundle" => bundles::answer_written(alloc, case, out),
        b"read_sessions" => bundles::answer_sessions(alloc, case, out),
        b"accept" => refusals::answer(alloc, case, out),
        b"read_words" => words::answer(alloc, case, out),
        _ => Err(Problem::Bad("there is no such call")),
    }
}

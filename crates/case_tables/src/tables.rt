//! A table of cases, and its answers.
//!
//! An empty line and a line that begins with `#` are for the reader. A line that begins with `|`
//! adds a line to the text of the case above it. Every other line begins a case.

ghost use Rattle.text_pieces.specs.Pieces.{KeepsFront};

use crate::cases::Case;
use crate::problems::Problem;
use aioc_io::{Sink, Source, read_all, write_all};
use dioc_terms::Memory;
use std::alloc::Global;
use text_pieces::write_bytes;

// The most bytes of a table.
const TABLE_LIMIT: usize = 1_048_576;

/// Reads a table from the source, and writes it to `out` with the answer to each of its cases, as
/// it is to stand there, or says why not.
pub fn answer_source<F, S: Source, O: Sink>(
    alloc: Global,
    answer: &F,
    source: &mut S,
    out: &mut O,
) -> Result<(), &'static str>
where
    F: Fn(Global, &Case) -> Result<Vec<u8>, Memory>,
    requires { F.IsAlwaysCallable answer.now }
{
    let Ok(table) = read_all(alloc, source, TABLE_LIMIT) else {
        return Err("the table can't be read whole");
    };
    let Ok(lines) = answer_table(alloc, answer, &table) else {
        return Err("out of memory");
    };
    match write_all(out, &lines) {
        Ok(()) => Ok(()),
        Err(_) => Err("the answers can't be written"),
    }
}

// The lines of the table, with the answer of each case behind its lines.
fn answer_table<F>(alloc: Global, answer: &F, table: &[u8]) -> Result<Vec<u8>, Memory>
where
    F: Fn(Global, &Case) -> Result<Vec<u8>, Memory>,
    requires { F.IsAlwaysCallable answer.now }
{
    let mut out = Vec::new(alloc);
    let mut begun = None;
    for line in lines(table).split(|byte| *byte == b'\n') {
        begun = match line {
            [b'|', rest @ ..] => continued(begun, rest),
            _ => {
                write_answer(alloc, answer, begun, &mut out)?;
                begin(alloc, line)
            }
        };
        write_bytes(line, &mut out)?;
        write_bytes(b"\n", &mut out)?;
    }
    write_answer(alloc, answer, begun, &mut out)?;
    Ok(out)
}

// The table without the line feed at its end.
fn lines(table: &[u8]) -> &[u8] {
    match table {
        [rest @ .., b'\n'] => rest,
        _ => table,
    }
}

// The case that a line begins, if any.
fn begin(alloc: Global, line: &[u8]) -> Option<Result<Case, Problem>> {
    match line {
        [] | [b'#', ..] => None,
        _ => Some(Case::read(alloc, line)),
    }
}

// The case with a further line of its text.
fn continued(begun: Option<Result<Case, Problem>>, line: &[u8]) -> Option<Result<Case, Problem>> {
    match begun {
        None => Some(Err(Problem::Bad("a line of a text has no case above it"))),
        Some(Err(problem)) => Some(Err(problem)),
        Some(Ok(case)) => Some(with_line(case, line)),
    }
}

fn with_line(mut case: Case, line: &[u8]) -> Result<Case, Problem> {
    case.add_line(line)?;
    Ok(case)
}

// The lines of the answer to a case, where there is one.
fn write_answer<F>(
    alloc: Global,
    answer: &F,
    begun: Option<Result<Case, Problem>>,
    out: &mut Vec<u8>,
) -> Result<(), Memory>
where
    F: Fn(Global, &Case) -> Result<Vec<u8>, Memory>,
    requires { F.IsAlwaysCallable answer.now }
{
    match begun {
        None => Ok(()),
        Some(Err(problem)) => write_problem(problem, out),
        Some(Ok(case)) => {
            let lines = answer(alloc, &case)?;
            write_bytes(&lines, out)
        }
    }
}

/// The answer to a case as it stands in the table: its lines, each with two spaces before it, or
/// the line that says why the case is bad.
pub fn answer_lines(alloc: Global, answer: Result<Vec<u8>, Problem>) -> Result<Vec<u8>, Memory> {
    let mut out = Vec::new(alloc);
    match answer {
        Ok(lines) => write_lines(b"  ", &lines, &mut out)?,
        Err(problem) => write_problem(problem, &mut out)?,
    }
    Ok(out)
}

fn write_problem(problem: Problem, out: &mut Vec<u8>) -> Result<(), Memory> {
    match problem {
        Problem::Memory => Err(Memory),
        Problem::Bad(why) => {
            write_bytes(b"  bad case: ", out)?;
            write_bytes(why.as_bytes(), out)?;
            write_bytes(b"\n", out)
        }
    }
}

/// Appends the lines of a text, each with a head before it and a line feed behind it. What stands
/// there already stays; after `Memory` some of the lines may stand behind it.
#[tactic(auto, using(text_pieces::proofs::KeptFronts::front_of_front))]
pub fn write_lines(head: &[u8], text: &[u8], out: &mut Vec<u8>) -> Result<(), Memory>
    ensures { KeepsFront out.old.items out.new.items }
{
    if text.is_empty() {
        return Ok(());
    }
    for line in lines(text).split(|byte| *byte == b'\n') {
        write_bytes(head, out)?;
        write_bytes(line, out)?;
        write_bytes(b"\n", out)?;
    }
    Ok(())
}

//! The lines of entries, and last lines.

ghost use Rattle.std.specs.Prelude.{◌≡◌};
ghost use Rattle.trace_syntax.specs.Grammar.{is_operation};
ghost use Rattle.trace_syntax.specs.Reading.{first_flag, first_done, first_payload, first_keep, first_part, first_begin, first_note, first_setting, first_rule, first_kept, first_choice, first_put, first_take, first_set, first_input, first_pick, first_scope, first_add, first_drop, first_env, first_ended, first_stopped, line_behind, first_line, ReadsAt};

use crate::parts::{
    index_at, key_at, name_at, number_at, short_number_at, symbol_at, truth_at, value_at, word_at,
};
use crate::words::{Line, LineFault, LineWord, ReadPart, Setting, find_line_word};
use aioc_tokens::{Lexed, Punctuator, Sort, Word};
use dioc_terms::{Chosen, Entry, Last, Note, Role, Tag};
use expr_syntax::GREATEST;
use std::alloc::Global;

#[tactic(auto, unfolding(crate::specs::Reading::first_flag))]
fn flag_at(text: &Lexed<'_>, at: usize) -> ReadPart<Note>
    ensures { ReadsAt first_flag text.now at result }
{
    let (flag, at) = truth_at(text, at)?;
    Ok((Note::Flag(flag), at))
}

#[tactic(auto, unfolding(crate::specs::Reading::first_done))]
fn done_at(text: &Lexed<'_>, at: usize) -> ReadPart<Note>
    ensures { ReadsAt first_done text.now at result }
{
    let at = word_at(text, at, b"done")?;
    Ok((Note::Done, at))
}

#[tactic(auto, unfolding(crate::specs::Reading::first_payload))]
fn payload_at(alloc: Global, text: &Lexed<'_>, at: usize) -> ReadPart<Note>
    ensures { ReadsAt first_payload text.now at result }
{
    let (value, at) = value_at(alloc, text, at)?;
    Ok((Note::Val(value), at))
}

#[tactic(auto, unfolding(crate::specs::Reading::first_keep))]
fn keep_at(text: &Lexed<'_>, at: usize) -> ReadPart<Note>
    ensures { ReadsAt first_keep text.now at result }
{
    let at = word_at(text, at, b"keep")?;
    Ok((Note::Keep, at))
}

/// As `part 1`.
#[tactic(auto, unfolding(crate::specs::Reading::first_part))]
fn part_at(text: &Lexed<'_>, at: usize) -> ReadPart<Note>
    ensures { ReadsAt first_part text.now at result }
{
    let at = word_at(text, at, b"part")?;
    let (epoch, at) = short_number_at(text, at)?;
    Ok((Note::Part(epoch), at))
}

/// As `keep` or `part 1`.
#[tactic(auto, unfolding(crate::specs::Reading::first_begin))]
fn begin_at(text: &Lexed<'_>, at: usize) -> ReadPart<Note>
    ensures { ReadsAt first_begin text.now at result }
{
    match keep_at(text, at) {
        Ok(read) => Ok(read),
        Err(LineFault::NoLine) => part_at(text, at),
        Err(LineFault::Memory) => Err(LineFault::Memory),
    }
}

/// The payload of a message with this tag.
#[tactic(auto, unfolding(crate::specs::Reading::first_note))]
fn note_at(alloc: Global, text: &Lexed<'_>, tag: &Tag, at: usize) -> ReadPart<Note>
    ensures { ReadsAt (first_note tag.now) text.now at result }
{
    match tag {
        Tag::Op(_) => payload_at(alloc, text, at),
        Tag::Choice => flag_at(text, at),
        Tag::Go => flag_at(text, at),
        Tag::Turn => done_at(text, at),
        Tag::Begin => begin_at(text, at),
        Tag::End => done_at(text, at),
        Tag::Out => done_at(text, at),
    }
}

/// As `x@a #0.3 = 5`.
#[tactic(auto, unfolding(crate::specs::Reading::first_setting))]
fn setting_at(alloc: Global, text: &Lexed<'_>, at: usize) -> ReadPart<Setting>
    ensures { ReadsAt first_setting text.now at result }
{
    let (var, at) = name_at(alloc, text, at)?;
    let at = symbol_at(text, at, Punctuator::At)?;
    let (owner, at) = name_at(alloc, text, at)?;
    let (index, at) = index_at(text, at)?;
    let at = symbol_at(text, at, Punctuator::Equal)?;
    let (value, at) = value_at(alloc, text, at)?;
    let setting = Setting {
        index,
        role: Role(owner),
        var,
        value,
    };
    Ok((setting, at))
}

/// Behind the word `rule`, as `cheap as 1`.
#[tactic(auto, unfolding(crate::specs::Reading::first_rule))]
fn rule_at(alloc: Global, text: &Lexed<'_>, at: usize) -> ReadPart<Chosen>
    ensures { ReadsAt first_rule text.now at result }
{
    let (name, at) = name_at(alloc, text, at)?;
    let at = word_at(text, at, b"as")?;
    let (epoch, at) = short_number_at(text, at)?;
    Ok((Chosen::Rule { name, epoch }, at))
}

#[tactic(auto, unfolding(crate::specs::Reading::first_kept))]
fn kept_at(text: &Lexed<'_>, at: usize) -> ReadPart<Chosen>
    ensures { ReadsAt first_kept text.now at result }
{
    let at = word_at(text, at, b"keep")?;
    Ok((Chosen::Keep, at))
}

/// As `keep` or `rule cheap as 1`.
fn choice_at(alloc: Global, text: &Lexed<'_>, at: usize) -> ReadPart<Chosen>
    ensures { ReadsAt first_choice text.now at result }
{
    if text.has(at, Sort::Reserved(Word::Rule)) {
        return rule_at(alloc, text, at + 1);
    }
    kept_at(text, at)
}

fn is_operation(tag: &Tag) -> bool
    ensures { result ≡ is_operation tag.now }
{
    matches!(tag, Tag::Op(_))
}

/// Behind the word `put`, as `a -> b o#0.3 = 5`.
#[tactic(auto, unfolding(crate::specs::Reading::first_put))]
fn put_at(alloc: Global, text: &Lexed<'_>, at: usize) -> ReadPart<Line>
    ensures { ReadsAt first_put text.now at result }
{
    let (key, at) = key_at(alloc, text, at)?;
    let at = symbol_at(text, at, Punctuator::Equal)?;
    let (note, at) = note_at(alloc, text, &key.tag, at)?;
    Ok((Line::Entry(Entry::Put { key, note }), at))
}

/// Behind the word `take`, as `a -> b o#0.3 x`.
#[tactic(auto, unfolding(crate::specs::Reading::first_take, crate::specs::Reading::first_variable))]
fn take_at(alloc: Global, text: &Lexed<'_>, at: usize) -> ReadPart<Line>
    ensures { ReadsAt first_take text.now at result }
{
    let (key, at) = key_at(alloc, text, at)?;
    if is_operation(&key.tag) {
        let (name, at) = name_at(alloc, text, at)?;
        let var = Some(name);
        return Ok((Line::Entry(Entry::Take { key, var }), at));
    }
    Ok((Line::Entry(Entry::Take { key, var: None }), at))
}

#[tactic(auto, unfolding(crate::specs::Reading::first_set))]
fn set_at(alloc: Global, text: &Lexed<'_>, at: usize) -> ReadPart<Line>
    ensures { ReadsAt first_set text.now at result }
{
    let (setting, at) = setting_at(alloc, text, at)?;
    let entry = Entry::Set {
        index: setting.index,
        role: setting.role,
        var: setting.var,
        value: setting.value,
    };
    Ok((Line::Entry(entry), at))
}

#[tactic(auto, unfolding(crate::specs::Reading::first_input))]
fn input_at(alloc: Global, text: &Lexed<'_>, at: usize) -> ReadPart<Line>
    ensures { ReadsAt first_input text.now at result }
{
    let (setting, at) = setting_at(alloc, text, at)?;
    let entry = Entry::Input {
        index: setting.index,
        role: setting.role,
        var: setting.var,
        value: setting.value,
    };
    Ok((Line::Entry(entry), at))
}

/// Behind the word `pick`, as `a #0.4 true`.
#[tactic(auto, unfolding(crate::specs::Reading::first_pick))]
fn pick_at(alloc: Global, text: &Lexed<'_>, at: usize) -> ReadPart<Line>
    ensures { ReadsAt first_pick text.now at result }
{
    let (name, at) = name_at(alloc, text, at)?;
    let (index, at) = index_at(text, at)?;
    let (flag, at) = truth_at(text, at)?;
    let role = Role(name);
    Ok((Line::Entry(Entry::Pick { index, role, flag }), at))
}

/// Behind the word `scope`, as `s #0.6 keep`.
#[tactic(auto, unfolding(crate::specs::Reading::first_scope))]
fn scope_at(alloc: Global, text: &Lexed<'_>, at: usize) -> ReadPart<Line>
    ensures { ReadsAt first_scope text.now at result }
{
    let (name, at) = name_at(alloc, text, at)?;
    let (index, at) = index_at(text, at)?;
    let (chosen, at) = choice_at(alloc, text, at)?;
    let entry = Entry::Scope {
        index,
        role: Role(name),
        chosen,
    };
    Ok((Line::Entry(entry), at))
}

#[tactic(auto, unfolding(crate::specs::Reading::first_add))]
fn add_at(alloc: Global, text: &Lexed<'_>, at: usize) -> ReadPart<Line>
    ensures { ReadsAt first_add text.now at result }
{
    let (name, at) = name_at(alloc, text, at)?;
    Ok((Line::Entry(Entry::Add { name }), at))
}

#[tactic(auto, unfolding(crate::specs::Reading::first_drop))]
fn drop_at(alloc: Global, text: &Lexed<'_>, at: usize) -> ReadPart<Line>
    ensures { ReadsAt first_drop text.now at result }
{
    let (name, at) = name_at(alloc, text, at)?;
    Ok((Line::Entry(Entry::Drop { name }), at))
}

/// Behind the word `env`, as `k = 5`.
#[tactic(auto, unfolding(crate::specs::Reading::first_env))]
fn env_at(alloc: Global, text: &Lexed<'_>, at: usize) -> ReadPart<Line>
    ensures { ReadsAt first_env text.now at result }
{
    let (key, at) = name_at(alloc, text, at)?;
    let at = symbol_at(text, at, Punctuator::Equal)?;
    let (value, at) = value_at(alloc, text, at)?;
    Ok((Line::Entry(Entry::Env { key, value }), at))
}

#[tactic(auto, unfolding(crate::specs::Reading::first_ended))]
fn ended_at(text: &Lexed<'_>, at: usize) -> ReadPart<Line>
    ensures { ReadsAt first_ended text.now at result }
{
    let (count, at) = number_at(text, at, GREATEST)?;
    Ok((Line::Last(Last::Ended(count)), at))
}

#[tactic(auto, unfolding(crate::specs::Reading::first_stopped))]
fn stopped_at(text: &Lexed<'_>, at: usize) -> ReadPart<Line>
    ensures { ReadsAt first_stopped text.now at result }
{
    let (count, at) = number_at(text, at, GREATEST)?;
    Ok((Line::Last(Last::Stopped(count)), at))
}

/// What stands behind the word that begins a line.
#[tactic(auto, unfolding(crate::specs::Reading::line_behind))]
fn line_behind(alloc: Global, text: &Lexed<'_>, word: LineWord, at: usize) -> ReadPart<Line>
    ensures { ReadsAt (line_behind word) text.now at result }
{
    match word {
        LineWord::Put => put_at(alloc, text, at),
        LineWord::Take => take_at(alloc, text, at),
        LineWord::Set => set_at(alloc, text, at),
        LineWord::Pick => pick_at(alloc, text, at),
        LineWord::Add => add_at(alloc, text, at),
        LineWord::Drop => drop_at(alloc, text, at),
        LineWord::Env => env_at(alloc, text, at),
        LineWord::Ended => ended_at(text, at),
        LineWord::Stopped => stopped_at(text, at),
    }
}

/// The line at a place of the text, and the place behind it.
pub fn line_at(alloc: Global, text: &Lexed<'_>, at: usize) -> ReadPart<Line>
    ensures { ReadsAt first_line text.now at result }
{
    if text.has(at, Sort::Name) {
        return match find_line_word(text.name(at)) {
            Some(word) => line_behind(alloc, text, word, at + 1),
            None => Err(LineFault::NoLine),
        };
    }
    if text.has(at, Sort::Reserved(Word::Input)) {
        return input_at(alloc, text, at + 1);
    }
    if text.has(at, Sort::Reserved(Word::Scope)) {
        return scope_at(alloc, text, at + 1);
    }
    Err(LineFault::NoLine)
}

//! The first token of a text that may not stand there.

ghost use Rattle.std.specs.Prelude.{◌≡◌, ◌++◌, ◌∷◌, [], reverse, true, false, Some, None, OnOk, IfOk, if◌then◌else◌};
ghost use Rattle.wanted_tokens.specs.declared.looks.Look.TheVariants as looks;
ghost use Rattle.wanted_tokens.specs.Groups.{is_of_section, is_part};
ghost use Rattle.wanted_tokens.specs.Takings.{effect, listed};
ghost use Rattle.wanted_tokens.specs.Wanted.{taking, version_behind, reading_behind, is_passed, may_end, unwanted};

use crate::choreographies::{assigned, next_step, optional, step, step_behind_name};
use crate::expressions::{expression, more_operands, more_values, negated, operand, value};
use crate::goals::Goal;
use crate::looks::{Look, look_at};
use crate::rules::{change, priority, rank, rules};
use crate::sections::{
    bindings, bundle, inputs, last_sections, later_sections, script, sections,
    sections_behind_trace, session,
};
use crate::takings::Taking;
use crate::tokens::{as_word, done, name, number, reserved, symbol, truth, two};
use crate::traces::{
    auxiliary_of_put, auxiliary_of_take, begun, chosen, lines, tag_of_put, tag_of_take,
};
use aioc_tokens::Lexed;
use dioc_terms::Memory;
use std::alloc::Global;

/// What a goal makes of a token, in a text of the second version or not.
fn taking(second: bool, goal: Goal, look: Look) -> Taking
    ensures { effect result ≡ taking second goal look }
{
    match goal {
        Goal::Symbol(wanted) => symbol(wanted, look),
        Goal::Reserved(wanted) => reserved(wanted, look),
        Goal::Name => name(look),
        Goal::Number(most) => number(most, look),
        Goal::Done => done(look),
        Goal::As => as_word(look),
        Goal::Truth => truth(look),
        Goal::Two => two(look),
        Goal::Value => value(look),
        Goal::MoreValues => more_values(look),
        Goal::Expression(kind) => expression(kind, look),
        Goal::Operand(kind, comparable) => operand(kind, comparable, look),
        Goal::Negated(kind, comparable) => negated(kind, comparable, look),
        Goal::MoreOperands(kind, comparable) => more_operands(kind, comparable, look),
        _ => taking_of_part(second, goal, look),
    }
}

/// What a goal that is more than an expression makes of a token.
fn taking_of_part(second: bool, goal: Goal, look: Look) -> Taking
    requires { is_part goal ≡ true }
    ensures { effect result ≡ taking second goal look }
{
    match goal {
        Goal::Step => step(look),
        Goal::StepBehindName => step_behind_name(look),
        Goal::Assigned => assigned(look),
        Goal::NextStep => next_step(look),
        Goal::MoreSteps
        | Goal::MoreParts
        | Goal::Otherwise
        | Goal::ExtraRoles
        | Goal::MoreNames
        | Goal::Properties
        | Goal::FirstProperty
        | Goal::MoreProperties => optional(second, goal, look),
        _ => taking_of_section(second, goal, look),
    }
}

/// What a goal that is a section of a bundle or stands in one, outside of choreographies and
/// expressions, makes of a token.
fn taking_of_section(second: bool, goal: Goal, look: Look) -> Taking
    requires { is_of_section goal ≡ true }
    ensures { effect result ≡ taking second goal look }
{
    match goal {
        Goal::Rules => rules(look),
        Goal::Priority => priority(second, look),
        Goal::Rank => rank(look),
        Goal::Change => change(look),
        Goal::Lines => lines(look),
        Goal::TagOfPut => tag_of_put(look),
        Goal::AuxiliaryOfPut => auxiliary_of_put(look),
        Goal::Begun => begun(look),
        Goal::TagOfTake => tag_of_take(look),
        Goal::AuxiliaryOfTake => auxiliary_of_take(look),
        Goal::Chosen => chosen(look),
        Goal::Bindings => bindings(look),
        Goal::Inputs => inputs(look),
        Goal::Script => script(look),
        Goal::Bundle => bundle(look),
        Goal::Sections => sections(look),
        Goal::SectionsBehindTrace => sections_behind_trace(look),
        Goal::LaterSections => later_sections(look),
        Goal::LastSections => last_sections(look),
        Goal::Sessions => session(Taking::Stops, look),
        Goal::MoreSessions => session(Taking::Passes, look),
        _ => unreachable!(),
    }
}

/// Whether the text is of the second version, once the goal took a token.
fn version_behind(second: bool, goal: Goal) -> bool
    ensures { result ≡ version_behind second goal }
{
    match goal {
        Goal::Two => true,
        Goal::MoreSessions => false,
        _ => second,
    }
}

/// Whether the goal wants no token.
fn is_passed(second: bool, goal: Goal) -> bool
    ensures { result ≡ is_passed (taking second goal looks.End) }
{
    match taking(second, goal, Look::End) {
        Taking::Passes => true,
        _ => false,
    }
}

/// Puts goals onto the stack, whose last one is wanted first.
fn put_all(stack: &mut Vec<Goal>, wanted: &[Goal]) -> Result<(), Memory>
    ensures { OnOk result (reverse stack.new.items ≡ wanted.now ++ reverse stack.old.items) }
{
    let mut left = wanted.len();
    'goals: while left > 0 {
        left -= 1;
        stack.push(wanted[left])?;
    }
    Ok(())
}

/// Puts goals onto the stack, and below them this one.
fn put_before(stack: &mut Vec<Goal>, wanted: &[Goal], last: Option<Goal>) -> Result<(), Memory>
    ensures { OnOk result
        (reverse stack.new.items ≡ (wanted.now ++ listed last) ++ reverse stack.old.items) }
{
    if let Some(last) = last {
        stack.push(last)?;
    }
    put_all(stack, wanted)
}

/// Takes a token off what is wanted, whose last goal comes first, and says whether it is wanted at
/// all. After `false` nothing of the goals is kept.
pub fn take(stack: &mut Vec<Goal>, second: &mut bool, look: Look) -> Result<bool, Memory>
    ensures { IfOk result (λ is_wanted. reading_behind second.old (reverse stack.old.items) look
        ≡ (if is_wanted
        then Some (record { second = second.new; wanted = reverse stack.new.items })
        else None)) }
{
    'goals: while let Some(goal) = stack.pop() {
        match taking(*second, goal, look) {
            Taking::Takes(wanted, last) => {
                *second = version_behind(*second, goal);
                put_before(stack, wanted, last)?;
                return Ok(true);
            }
            Taking::Passes => {}
            Taking::Stops => return Ok(false),
        }
    }
    Ok(false)
}

/// Whether none of the goals wants a token.
pub fn is_over(stack: &[Goal], second: bool) -> bool
    ensures { result ≡ may_end second stack.now }
{
    stack.iter().all(|goal| is_passed(second, *goal))
}

/// The place of the first token of a text that may not stand there, or the text's length where more
/// is wanted, or `None` where the whole text goes through. Brackets and depths have no limit here.
/// The error says that memory ran out.
pub fn first_unwanted(alloc: Global, text: &Lexed<'_>, whole: Goal) -> Result<Option<usize>, Memory>
    ensures { IfOk result (λ place. place ≡ unwanted whole text.now) }
{
    let mut stack = Vec::new(alloc);
    stack.push(whole)?;
    let mut second = false;
    let mut at = 0;
    'tokens: while at < text.len() {
        if !take(&mut stack, &mut second, look_at(text, at))? {
            return Ok(Some(at));
        }
        at += 1;
    }
    if is_over(&stack, second) {
        Ok(None)
    } else {
        Ok(Some(at))
    }
}

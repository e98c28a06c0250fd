//! Bundles as they are written.

ghost use Rattle.std.specs.Prelude.{◌≡◌, ◌++◌, [], ◌∷◌, codes, map, take, OnOk, OnErr};
ghost use Rattle.std.specs.List.{flat_map};
ghost use Rattle.dioc_terms.specs.Plain.{plain, plain_rule};
ghost use Rattle.dioc_terms.specs.Terms.{term};
ghost use Rattle.text_pieces.specs.Pieces.{KeepsFront};
ghost use Rattle.bundle_text.specs.Writing.{entry_text, end_text, version_text, bundle_text};
ghost use Rattle.bundle_text.specs.Pieces.{choreography_text, items_text, rule_text, bound_text, input_text, next_value_text, values_text, after_text, added_text, timed_text, trace_text, sections_text, pieces_text};

use dioc_syntax::write_choreo;
use dioc_terms::{
    Bundle, Change, Choreo, Entry, Last, Memory, Name, Role, Rule, Timed, Trace, Value, Values,
};
use expr_syntax::write_value;
use rule_syntax::write_rule;
use text_pieces::{cut_back, write_bytes, write_number};
use trace_text::{write_last, write_line};

/// Appends the text of a bundle: its sections in the order aioc, rules, env, inputs, script, trace,
/// each with one space between two tokens and a line end behind it. An empty list writes no
/// section. The trace has a line for each entry and for its last line, as a run prints them; one
/// without any writes no section. Where the version is 2, the line `version 2` stands before all.
///
/// Where memory runs out, `out` is as it was.
pub fn write_bundle(bundle: &Bundle, out: &mut Vec<u8>) -> Result<(), Memory>
    ensures ok { OnOk result (out.new.items ≡ out.old.items ++ bundle_text (plain bundle.now)) }
    ensures memory { OnErr result (out.new.items ≡ out.old.items) }
{
    let start = out.len();
    let written = write_pieces(bundle, out);
    cut_back(written, start, out)
}

fn write_pieces(bundle: &Bundle, out: &mut Vec<u8>) -> Result<(), Memory>
    ensures ok { OnOk result (out.new.items ≡ out.old.items ++ pieces_text (plain bundle.now)) }
    ensures memory { OnErr result (KeepsFront out.old.items out.new.items) }
{
    write_version(bundle.version, out)?;
    write_choreography(&bundle.choreo, out)?;
    write_sections(bundle, out)?;
    write_trace(&bundle.trace, out)
}

/// The sections between the choreography and the trace.
fn write_sections(bundle: &Bundle, out: &mut Vec<u8>) -> Result<(), Memory>
    ensures ok { OnOk result (out.new.items ≡ out.old.items
        ++ sections_text (plain bundle.now)) }
    ensures memory { OnErr result (KeepsFront out.old.items out.new.items) }
{
    write_opening(bundle, out)?;
    write_environment(bundle.env.as_slice(), out)?;
    write_inputs(bundle.inputs.as_slice(), out)?;
    write_script(bundle.rules.as_slice(), bundle.script.as_slice(), out)
}

/// The section of the rules that are in the book from the start.
#[tactic(auto, using(crate::proofs::Spells::opening_rules))]
fn write_opening(bundle: &Bundle, out: &mut Vec<u8>) -> Result<(), Memory>
    ensures ok { OnOk result (out.new.items ≡ out.old.items ++ items_text (codes "rules {")
        rule_text (take bundle.now.opening (map plain_rule bundle.now.rules))) }
    ensures memory { OnErr result (KeepsFront out.old.items out.new.items) }
{
    let rules = bundle.rules.as_slice();
    let opening = (bundle.opening as usize).min(rules.len());
    write_rules(&rules[..opening], out)
}

fn write_version(version: u32, out: &mut Vec<u8>) -> Result<(), Memory>
    ensures ok { OnOk result (out.new.items ≡ out.old.items ++ version_text version) }
    ensures memory { OnErr result (KeepsFront out.old.items out.new.items) }
{
    if version == 2 {
        write_bytes(b"version 2\n", out)
    } else {
        Ok(())
    }
}

fn write_choreography(choreo: &Choreo, out: &mut Vec<u8>) -> Result<(), Memory>
    ensures ok { OnOk result (out.new.items ≡ out.old.items
        ++ choreography_text (term choreo.now)) }
    ensures memory { OnErr result (KeepsFront out.old.items out.new.items) }
{
    write_bytes(b"aioc { ", out)?;
    write_choreo(choreo, out)?;
    write_bytes(b" }\n", out)
}

fn write_rules(rules: &[Rule], out: &mut Vec<u8>) -> Result<(), Memory>
    ensures ok { OnOk result (out.new.items ≡
        out.old.items ++ items_text (codes "rules {") rule_text (map plain_rule rules.now)) }
    ensures memory { OnErr result (KeepsFront out.old.items out.new.items) }
{
    if rules.is_empty() {
        return Ok(());
    }
    write_bytes(b"rules {", out)?;
    write_each_rule(rules, out)?;
    write_bytes(b" }\n", out)
}

#[tactic(auto, using(text_pieces::proofs::KeptFronts::front_of_front))]
fn write_each_rule(rules: &[Rule], out: &mut Vec<u8>) -> Result<(), Memory>
    ensures ok { OnOk result (out.new.items ≡ out.old.items
        ++ flat_map rule_text (map plain_rule rules.now)) }
    ensures memory { OnErr result (KeepsFront out.old.items out.new.items) }
{
    for rule in rules {
        write_spaced_rule(rule, out)?;
    }
    Ok(())
}

/// A rule with a space before it.
fn write_spaced_rule(rule: &Rule, out: &mut Vec<u8>) -> Result<(), Memory>
    ensures ok { OnOk result (out.new.items ≡ out.old.items ++ rule_text (plain_rule rule.now)) }
    ensures memory { OnErr result (KeepsFront out.old.items out.new.items) }
{
    write_bytes(b" ", out)?;
    write_rule(rule, out)
}

fn write_environment(env: &[(Name, Value)], out: &mut Vec<u8>) -> Result<(), Memory>
    ensures ok { OnOk result (out.new.items ≡
        out.old.items ++ items_text (codes "env {") bound_text env.now) }
    ensures memory { OnErr result (KeepsFront out.old.items out.new.items) }
{
    if env.is_empty() {
        return Ok(());
    }
    write_bytes(b"env {", out)?;
    write_each_bound(env, out)?;
    write_bytes(b" }\n", out)
}

#[tactic(auto, using(text_pieces::proofs::KeptFronts::front_of_front))]
fn write_each_bound(env: &[(Name, Value)], out: &mut Vec<u8>) -> Result<(), Memory>
    ensures ok { OnOk result (out.new.items ≡ out.old.items ++ flat_map bound_text env.now) }
    ensures memory { OnErr result (KeepsFront out.old.items out.new.items) }
{
    for bound in env {
        write_bound(bound, out)?;
    }
    Ok(())
}

/// A binding with a space before it and a `;` behind it.
fn write_bound(bound: &(Name, Value), out: &mut Vec<u8>) -> Result<(), Memory>
    ensures ok { OnOk result (out.new.items ≡ out.old.items ++ bound_text bound.now) }
    ensures memory { OnErr result (KeepsFront out.old.items out.new.items) }
{
    write_bytes(b" ", out)?;
    write_bytes(bound.0.bytes(), out)?;
    write_bytes(b" = ", out)?;
    write_value(&bound.1, out)?;
    write_bytes(b" ;", out)
}

fn write_inputs(inputs: &[(Role, Values)], out: &mut Vec<u8>) -> Result<(), Memory>
    ensures ok { OnOk result (out.new.items ≡
        out.old.items ++ items_text (codes "inputs {") input_text inputs.now) }
    ensures memory { OnErr result (KeepsFront out.old.items out.new.items) }
{
    if inputs.is_empty() {
        return Ok(());
    }
    write_bytes(b"inputs {", out)?;
    write_each_input(inputs, out)?;
    write_bytes(b" }\n", out)
}

#[tactic(auto, using(text_pieces::proofs::KeptFronts::front_of_front))]
fn write_each_input(inputs: &[(Role, Values)], out: &mut Vec<u8>) -> Result<(), Memory>
    ensures ok { OnOk result (out.new.items ≡ out.old.items ++ flat_map input_text inputs.now) }
    ensures memory { OnErr result (KeepsFront out.old.items out.new.items) }
{
    for input in inputs {
        write_input(input, out)?;
    }
    Ok(())
}

/// The inputs of a role with a space before them and a `;` behind them.
fn write_input(input: &(Role, Values), out: &mut Vec<u8>) -> Result<(), Memory>
    ensures ok { OnOk result (out.new.items ≡ out.old.items ++ input_text input.now) }
    ensures memory { OnErr result (KeepsFront out.old.items out.new.items) }
{
    write_bytes(b" ", out)?;
    write_bytes(input.0.0.bytes(), out)?;
    write_bytes(b" :", out)?;
    write_values(input.1.as_slice(), out)?;
    write_bytes(b" ;", out)
}

/// Values with a space before each, and a `,` between two.
fn write_values(values: &[Value], out: &mut Vec<u8>) -> Result<(), Memory>
    ensures ok { OnOk result (out.new.items ≡ out.old.items ++ values_text values.now) }
    ensures memory { OnErr result (KeepsFront out.old.items out.new.items) }
{
    match values {
        [] => Ok(()),
        [first, rest @ ..] => {
            write_bytes(b" ", out)?;
            write_value(first, out)?;
            write_next_values(rest, out)
        }
    }
}

#[tactic(auto, using(text_pieces::proofs::KeptFronts::front_of_front))]
fn write_next_values(rest: &[Value], out: &mut Vec<u8>) -> Result<(), Memory>
    ensures ok { OnOk result (out.new.items ≡ out.old.items ++ flat_map next_value_text rest.now) }
    ensures memory { OnErr result (KeepsFront out.old.items out.new.items) }
{
    for next in rest {
        write_next_value(next, out)?;
    }
    Ok(())
}

fn write_next_value(next: &Value, out: &mut Vec<u8>) -> Result<(), Memory>
    ensures ok { OnOk result (out.new.items ≡ out.old.items ++ next_value_text next.now) }
    ensures memory { OnErr result (KeepsFront out.old.items out.new.items) }
{
    write_bytes(b" , ", out)?;
    write_value(next, out)
}

fn write_script(rules: &[Rule], script: &[Timed], out: &mut Vec<u8>) -> Result<(), Memory>
    ensures ok { OnOk result (out.new.items ≡
        out.old.items
        ++ items_text (codes "script {") (timed_text (map plain_rule rules.now)) script.now) }
    ensures memory { OnErr result (KeepsFront out.old.items out.new.items) }
{
    if script.is_empty() {
        return Ok(());
    }
    write_bytes(b"script {", out)?;
    write_each_timed(rules, script, out)?;
    write_bytes(b" }\n", out)
}

#[tactic(auto, using(text_pieces::proofs::KeptFronts::front_of_front))]
fn write_each_timed(rules: &[Rule], script: &[Timed], out: &mut Vec<u8>) -> Result<(), Memory>
    ensures ok { OnOk result (out.new.items ≡
        out.old.items ++ flat_map (timed_text (map plain_rule rules.now)) script.now) }
    ensures memory { OnErr result (KeepsFront out.old.items out.new.items) }
{
    for timed in script {
        write_timed(rules, timed, out)?;
    }
    Ok(())
}

/// A change of the script with a space before it.
fn write_timed(rules: &[Rule], timed: &Timed, out: &mut Vec<u8>) -> Result<(), Memory>
    ensures ok { OnOk result (out.new.items ≡ out.old.items
        ++ timed_text (map plain_rule rules.now) timed.now) }
    ensures memory { OnErr result (KeepsFront out.old.items out.new.items) }
{
    match &timed.change {
        Change::Add(number) => match rules.get(*number as usize) {
            Some(rule) => write_added(timed.after, rule, out),
            // No formed bundle adds a rule that it doesn't have.
            None => Ok(()),
        },
        Change::Drop(name) => {
            write_after(timed.after, b" drop ", out)?;
            write_bytes(name.bytes(), out)
        }
        Change::Env(key, value) => {
            write_after(timed.after, b" env ", out)?;
            write_bytes(key.bytes(), out)?;
            write_bytes(b" = ", out)?;
            write_value(value, out)
        }
    }
}

/// When a change may come, and the word of the change.
fn write_after(after: u64, word: &[u8], out: &mut Vec<u8>) -> Result<(), Memory>
    ensures ok { OnOk result (out.new.items ≡ out.old.items ++ after_text after word.now) }
    ensures memory { OnErr result (KeepsFront out.old.items out.new.items) }
{
    write_bytes(b" after ", out)?;
    write_number(after, out)?;
    write_bytes(word, out)
}

fn write_added(after: u64, rule: &Rule, out: &mut Vec<u8>) -> Result<(), Memory>
    ensures ok { OnOk result (out.new.items ≡ out.old.items
        ++ added_text after (plain_rule rule.now)) }
    ensures memory { OnErr result (KeepsFront out.old.items out.new.items) }
{
    write_after(after, b" add ", out)?;
    write_rule(rule, out)
}

/// The lines of a trace, or nothing where it has none.
fn write_trace(trace: &Trace, out: &mut Vec<u8>) -> Result<(), Memory>
    ensures ok { OnOk result (out.new.items ≡ out.old.items ++ trace_text trace.now) }
    ensures memory { OnErr result (KeepsFront out.old.items out.new.items) }
{
    let entries = trace.entries.as_slice();
    if entries.is_empty() && trace.last.is_none() {
        return Ok(());
    }
    write_bytes(b"trace {\n", out)?;
    write_entries(entries, out)?;
    write_end(&trace.last, out)?;
    write_bytes(b"}\n", out)
}

#[tactic(auto, using(text_pieces::proofs::KeptFronts::front_of_front))]
fn write_entries(entries: &[Entry], out: &mut Vec<u8>) -> Result<(), Memory>
    ensures ok { OnOk result (out.new.items ≡ out.old.items ++ flat_map entry_text entries.now) }
    ensures memory { OnErr result (KeepsFront out.old.items out.new.items) }
{
    for entry in entries {
        write_entry(entry, out)?;
    }
    Ok(())
}

/// The line of an entry with its end.
fn write_entry(entry: &Entry, out: &mut Vec<u8>) -> Result<(), Memory>
    ensures ok { OnOk result (out.new.items ≡ out.old.items ++ entry_text entry.now) }
    ensures memory { OnErr result (KeepsFront out.old.items out.new.items) }
{
    write_line(entry, out)?;
    write_bytes(b"\n", out)
}

/// The last line with its end, where there is one.
fn write_end(last: &Option<Last>, out: &mut Vec<u8>) -> Result<(), Memory>
    ensures ok { OnOk result (out.new.items ≡ out.old.items ++ end_text last.now) }
    ensures memory { OnErr result (KeepsFront out.old.items out.new.items) }
{
    match last {
        Some(last) => {
            write_last(last, false, out)?;
            write_bytes(b"\n", out)
        }
        None => Ok(()),
    }
}

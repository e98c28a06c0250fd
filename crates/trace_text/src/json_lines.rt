//! Lines as JSON objects.

ghost use Rattle.std.specs.Prelude.{◌≡◌, ℕ, List, ◌++◌, true, codes, decimal, IfOk, OnOk, OnErr};
ghost use Rattle.std.specs.List.{list_all};
ghost use Rattle.dioc_terms.specs.declared.entries.Entry.TheVariants as entry;
ghost use Rattle.aioc_tokens.specs.Tokens.{is_printable, quoted};
ghost use Rattle.text_pieces.specs.Pieces.{truth_text};
ghost use Rattle.trace_text.specs.Lines.{tag_text};
ghost use Rattle.trace_text.specs.Json.{value_json, note_json, index_json, variable_members, setting_json, kept_json, replaced_json, rule_json, end_json, json_line, json_last_line};
ghost use Rattle.trace_text.specs.JsonValues.{IsJson, Puts};

use dioc_terms::{Chosen, Entry, Index, Key, Last, Memory, Name, Note, Role, Tag, Value};
use serde_json::{Map, Value as Json};
use std::alloc::Global;
use text_pieces::{write_bytes, write_number};

type Members = Map<String, Json>;

/// Puts a value at a key.
fn put_json(members: &mut Members, alloc: Global, key: &str, json: Json) -> Result<(), Memory>
    ensures { OnOk result ((text : List ℕ) → IsJson json text
        → Puts members.old.entries members.new.entries key.now text) }
{
    serde_json::put(members, alloc, key, json)?;
    Ok(())
}

/// Puts a text, which is a literal, at a key.
fn put_word(members: &mut Members, alloc: Global, key: &str, word: &str) -> Result<(), Memory>
    requires { list_all is_printable word.now ≡ true }
    ensures { OnOk result (Puts members.old.entries members.new.entries key.now (quoted word.now)) }
{
    put_json(members, alloc, key, Json::try_from_str(alloc, word)?)
}

/// Puts a text of printable bytes at a key.
fn put_text(members: &mut Members, alloc: Global, key: &str, text: &[u8]) -> Result<(), Memory>
    requires { list_all is_printable text.now ≡ true }
    ensures { OnOk result (Puts members.old.entries members.new.entries key.now (quoted text.now)) }
{
    match std::str::from_utf8(text) {
        Ok(text) => put_word(members, alloc, key, text),
        Err(_) => unreachable!(),
    }
}

fn put_name(members: &mut Members, alloc: Global, key: &str, name: &Name) -> Result<(), Memory>
    ensures { OnOk result (Puts members.old.entries members.new.entries key.now (quoted name.now)) }
{
    put_text(members, alloc, key, name.bytes())
}

fn put_number(members: &mut Members, alloc: Global, key: &str, number: u64) -> Result<(), Memory>
    ensures { OnOk result (Puts members.old.entries members.new.entries key.now (decimal number)) }
{
    put_json(members, alloc, key, Json::from(number))
}

fn put_truth(members: &mut Members, alloc: Global, key: &str, truth: bool) -> Result<(), Memory>
    ensures { OnOk result (Puts members.old.entries members.new.entries key.now
        (truth_text truth)) }
{
    put_json(members, alloc, key, Json::Bool(truth))
}

fn put_value(members: &mut Members, alloc: Global, key: &str, value: &Value) -> Result<(), Memory>
    ensures { OnOk result (Puts members.old.entries members.new.entries key.now
        (value_json value.now)) }
{
    match value {
        Value::Nil => put_json(members, alloc, key, Json::Null),
        Value::Bool(truth) => put_truth(members, alloc, key, *truth),
        Value::Int(number) => put_json(members, alloc, key, Json::from(*number)),
        Value::Text(text) => put_text(members, alloc, key, text.bytes()),
    }
}

/// Puts an index, as "0.3".
fn put_index(members: &mut Members, alloc: Global, index: Index) -> Result<(), Memory>
    ensures { OnOk result (Puts members.old.entries members.new.entries (codes "index")
        (index_json index)) }
{
    let mut text = Vec::new(alloc);
    write_number(u64::from(index.epoch), &mut text)?;
    write_bytes(b".", &mut text)?;
    write_number(u64::from(index.place), &mut text)?;
    put_text(members, alloc, "index", &text)
}

/// Puts the name of an operation, or an auxiliary tag with its `!`.
fn put_tag(members: &mut Members, alloc: Global, tag: &Tag) -> Result<(), Memory>
    ensures { OnOk result (Puts members.old.entries members.new.entries (codes "name")
        (quoted (tag_text tag.now))) }
{
    match tag {
        Tag::Op(name) => put_name(members, alloc, "name", name),
        Tag::Choice => put_word(members, alloc, "name", "!choice"),
        Tag::Go => put_word(members, alloc, "name", "!go"),
        Tag::Turn => put_word(members, alloc, "name", "!turn"),
        Tag::Begin => put_word(members, alloc, "name", "!begin"),
        Tag::End => put_word(members, alloc, "name", "!end"),
        Tag::Out => put_word(members, alloc, "name", "!out"),
    }
}

/// Puts what an entry shows of a payload.
fn put_note(members: &mut Members, alloc: Global, note: &Note) -> Result<(), Memory>
    ensures { OnOk result (Puts members.old.entries members.new.entries (codes "value")
        (note_json note.now)) }
{
    match note {
        Note::Val(value) => put_value(members, alloc, "value", value),
        Note::Flag(flag) => put_truth(members, alloc, "value", *flag),
        Note::Keep => put_word(members, alloc, "value", "keep"),
        Note::Part(epoch) => put_part(members, alloc, *epoch),
        Note::Done => put_word(members, alloc, "value", "done"),
    }
}

fn put_part(members: &mut Members, alloc: Global, epoch: u32) -> Result<(), Memory>
    ensures { OnOk result (Puts members.old.entries members.new.entries (codes "value")
        (quoted (codes "part " ++ decimal epoch))) }
{
    let mut text = Vec::new(alloc);
    write_bytes(b"part ", &mut text)?;
    write_number(u64::from(epoch), &mut text)?;
    put_text(members, alloc, "value", &text)
}

fn json_of_put(alloc: Global, key: &Key, note: &Note) -> Result<Json, Memory>
    ensures { IfOk result (λ json. IsJson json (json_line (entry.Put key.now note.now))) }
{
    let mut members = Map::new(alloc);
    put_name(&mut members, alloc, "from", &key.from.0)?;
    put_index(&mut members, alloc, key.index)?;
    put_word(&mut members, alloc, "kind", "put")?;
    put_tag(&mut members, alloc, &key.tag)?;
    put_name(&mut members, alloc, "to", &key.to.0)?;
    put_note(&mut members, alloc, note)?;
    Ok(Json::Object(members))
}

fn json_of_take(alloc: Global, key: &Key, var: &Option<Name>) -> Result<Json, Memory>
    ensures { IfOk result (λ json. IsJson json (json_line (entry.Take key.now var.now))) }
{
    let mut members = Map::new(alloc);
    put_name(&mut members, alloc, "from", &key.from.0)?;
    put_index(&mut members, alloc, key.index)?;
    put_word(&mut members, alloc, "kind", "take")?;
    put_tag(&mut members, alloc, &key.tag)?;
    put_name(&mut members, alloc, "to", &key.to.0)?;
    match var {
        None => Ok(Json::Object(members)),
        Some(name) => {
            put_name(&mut members, alloc, "var", name)?;
            Ok(Json::Object(members))
        }
    }
}

/// Of an entry that sets a variable, its kind being one word.
fn json_of_setting(
    alloc: Global,
    kind: &str,
    index: Index,
    role: &Role,
    var: &Name,
    value: &Value,
) -> Result<Json, Memory>
    requires { list_all is_printable kind.now ≡ true }
    ensures { IfOk result (λ json. IsJson json
        (setting_json kind.now index role.now var.now value.now)) }
{
    let mut members = Map::new(alloc);
    put_index(&mut members, alloc, index)?;
    put_word(&mut members, alloc, "kind", kind)?;
    put_name(&mut members, alloc, "role", &role.0)?;
    put_value(&mut members, alloc, "value", value)?;
    put_name(&mut members, alloc, "var", var)?;
    Ok(Json::Object(members))
}

fn json_of_pick(alloc: Global, index: Index, role: &Role, flag: bool) -> Result<Json, Memory>
    ensures { IfOk result (λ json. IsJson json (json_line (entry.Pick index role.now flag))) }
{
    let mut members = Map::new(alloc);
    put_index(&mut members, alloc, index)?;
    put_word(&mut members, alloc, "kind", "pick")?;
    put_name(&mut members, alloc, "role", &role.0)?;
    put_truth(&mut members, alloc, "value", flag)?;
    Ok(Json::Object(members))
}

fn json_of_kept(alloc: Global, index: Index, role: &Role) -> Result<Json, Memory>
    ensures { IfOk result (λ json. IsJson json (kept_json index role.now)) }
{
    let mut members = Map::new(alloc);
    put_index(&mut members, alloc, index)?;
    put_word(&mut members, alloc, "kind", "scope")?;
    put_name(&mut members, alloc, "role", &role.0)?;
    put_word(&mut members, alloc, "value", "keep")?;
    Ok(Json::Object(members))
}

fn json_of_replaced(
    alloc: Global,
    index: Index,
    role: &Role,
    name: &Name,
    epoch: u32,
) -> Result<Json, Memory>
    ensures { IfOk result (λ json. IsJson json (replaced_json index role.now name.now epoch)) }
{
    let mut members = Map::new(alloc);
    put_number(&mut members, alloc, "epoch", u64::from(epoch))?;
    put_index(&mut members, alloc, index)?;
    put_word(&mut members, alloc, "kind", "scope")?;
    put_name(&mut members, alloc, "role", &role.0)?;
    put_name(&mut members, alloc, "rule", name)?;
    Ok(Json::Object(members))
}

/// Of a change of the rules, its kind being one word.
fn json_of_rule(alloc: Global, kind: &str, name: &Name) -> Result<Json, Memory>
    requires { list_all is_printable kind.now ≡ true }
    ensures { IfOk result (λ json. IsJson json (rule_json kind.now name.now)) }
{
    let mut members = Map::new(alloc);
    put_word(&mut members, alloc, "kind", kind)?;
    put_name(&mut members, alloc, "rule", name)?;
    Ok(Json::Object(members))
}

fn json_of_env(alloc: Global, key: &Name, value: &Value) -> Result<Json, Memory>
    ensures { IfOk result (λ json. IsJson json (json_line (entry.Env key.now value.now))) }
{
    let mut members = Map::new(alloc);
    put_name(&mut members, alloc, "key", key)?;
    put_word(&mut members, alloc, "kind", "env")?;
    put_value(&mut members, alloc, "value", value)?;
    Ok(Json::Object(members))
}

/// Of a last line, its kind being one word.
fn json_of_end(alloc: Global, kind: &str, count: u64) -> Result<Json, Memory>
    requires { list_all is_printable kind.now ≡ true }
    ensures { IfOk result (λ json. IsJson json (end_json kind.now count)) }
{
    let mut members = Map::new(alloc);
    put_number(&mut members, alloc, "entries", count)?;
    put_word(&mut members, alloc, "kind", kind)?;
    Ok(Json::Object(members))
}

fn json_of(alloc: Global, entry: &Entry) -> Result<Json, Memory>
    ensures { IfOk result (λ json. IsJson json (json_line entry.now)) }
{
    match entry {
        Entry::Put { key, note } => json_of_put(alloc, key, note),
        Entry::Take { key, var } => json_of_take(alloc, key, var),
        Entry::Set {
            index,
            role,
            var,
            value,
        } => json_of_setting(alloc, "set", *index, role, var, value),
        Entry::Input {
            index,
            role,
            var,
            value,
        } => json_of_setting(alloc, "input", *index, role, var, value),
        Entry::Pick { index, role, flag } => json_of_pick(alloc, *index, role, *flag),
        Entry::Scope {
            index,
            role,
            chosen,
        } => match chosen {
            Chosen::Keep => json_of_kept(alloc, *index, role),
            Chosen::Rule { name, epoch } => json_of_replaced(alloc, *index, role, name, *epoch),
        },
        Entry::Add { name } => json_of_rule(alloc, "add", name),
        Entry::Drop { name } => json_of_rule(alloc, "drop", name),
        Entry::Env { key, value } => json_of_env(alloc, key, value),
    }
}

/// Appends the compact text of a value.
fn write_json(json: &Json, out: &mut Vec<u8>) -> Result<(), Memory>
    ensures ok { OnOk result ((text : List ℕ) → IsJson json.now text → out.new.items ≡
        out.old.items ++ text) }
    ensures memory { OnErr result (out.new.items ≡ out.old.items) }
{
    let text = json.to_vec(*out.allocator())?;
    out.extend_from_slice(&text)?;
    Ok(())
}

/// Appends an entry as one compact JSON object, without a line end. Its keys stand in the order
/// of their bytes.
///
/// Where memory runs out, `out` is as it was.
pub fn write_json_line(entry: &Entry, out: &mut Vec<u8>) -> Result<(), Memory>
    ensures ok { OnOk result (out.new.items ≡ out.old.items ++ json_line entry.now) }
    ensures memory { OnErr result (out.new.items ≡ out.old.items) }
{
    let json = json_of(*out.allocator(), entry)?;
    write_json(&json, out)
}

/// Appends a last line as one compact JSON object, without a line end.
///
/// Where memory runs out, `out` is as it was.
pub fn write_json_last(last: &Last, out: &mut Vec<u8>) -> Result<(), Memory>
    ensures ok { OnOk result (out.new.items ≡ out.old.items ++ json_last_line last.now) }
    ensures memory { OnErr result (out.new.items ≡ out.old.items) }
{
    let json = match last {
        Last::Ended(count) => json_of_end(*out.allocator(), "ended", *count)?,
        Last::Stopped(count) => json_of_end(*out.allocator(), "stopped", *count)?,
    };
    write_json(&json, out)
}

//! From words to a command.

ghost use Rattle.std.specs.Prelude.{◌≡◌, map, true, false, IfOk, MatchOption, option_map};
ghost use Rattle.std.specs.List.{list_all};
ghost use Rattle.std.specs.Str.{is_utf8};
ghost use Rattle.clap.specs.Words.{first_value, found_of};
ghost use Rattle.command_words.specs.Grammar.{IsGrammar};
ghost use Rattle.command_words.specs.Commands.{known_options, command_of, command_by, command_with, options_of, gen_of};
ghost use Rattle.command_words.specs.Commands.{monitor_by, is_set, optional_number, number_or, most_seed, most_steps};
ghost use Rattle.command_words.specs.Commands.{usual_steps, named_first, word_texts};
ghost use Rattle.command_words.specs.declared.commands.Verb.{Verb};

use crate::commands::{Command, Options, Verb};
use crate::splits::split;
use crate::values::{number, small_number};
use aioc_tokens::find_word;
use clap::ArgMatches;
use dioc_terms::{Memory, Name, NameFault, Role};
use std::alloc::Global;
use std::str;

/// The command that the words after the program's name spell, `None` where they spell none.
///
/// The first word is the command's name. Behind it stand its options, in any order and each at most
/// once, as `--name value`, `--name=value` or, for a flag, `--name`; and its positional words. A
/// word `--` ends the options. A value that is a word of its own has no hyphen first. Help and
/// version are no commands. The error comes only where memory runs out.
pub fn read_words(alloc: Global, words: &[Vec<u8>]) -> Result<Option<Command>, Memory>
    ensures spelled { IfOk result (λ asked. asked ≡ command_of (word_texts words.now)) }
    ensures grammar { (verb : Verb) → IsGrammar (known_options verb) }
{
    match texts(alloc, words)? {
        Some(texts) => command_named(alloc, texts.as_slice()),
        None => Ok(None),
    }
}

/// The words as texts, `None` where one isn't UTF-8.
fn texts<'a>(alloc: Global, words: &'a [Vec<u8>]) -> Result<Option<Vec<&'a str>>, Memory>
    ensures { let bytes = word_texts words.entry.now in
        IfOk result (λ read. MatchOption read (list_all is_utf8 bytes ≡ false)
        (λ texts. (map (λ text. text.now) texts.items ≡ bytes) × (list_all is_utf8 bytes ≡ true))) }
{
    let mut texts = Vec::with_capacity(alloc, words.len())?;
    for word in words {
        match str::from_utf8(word.as_slice()) {
            Ok(text) => texts.push(text)?,
            Err(_error) => return Ok(None),
        }
    }
    Ok(Some(texts))
}

fn command_named(alloc: Global, words: &[&str]) -> Result<Option<Command>, Memory>
    requires { list_all is_utf8 (map (λ word. word.now) words.now) ≡ true }
    ensures { IfOk result (λ asked. asked ≡ named_first (map (λ word. word.now) words.now)) }
{
    match words.split_first() {
        Some((name, others)) => match Verb::named(name) {
            Some(verb) => command_by(alloc, verb, others),
            None => Ok(None),
        },
        None => Ok(None),
    }
}

fn command_by(alloc: Global, verb: Verb, words: &[&str]) -> Result<Option<Command>, Memory>
    requires { list_all is_utf8 (map (λ word. word.now) words.now) ≡ true }
    ensures { IfOk result (λ asked. asked ≡ command_by (map (λ word. word.now) words.now) verb) }
{
    match split(alloc, verb, words)? {
        Some(matches) => command_with(alloc, verb, &matches),
        None => Ok(None),
    }
}

fn command_with(alloc: Global, verb: Verb, matches: &ArgMatches) -> Result<Option<Command>, Memory>
    ensures { IfOk result (λ asked.
        asked ≡ command_with verb (first_value (found_of matches.now))) }
{
    Ok(match verb {
        Verb::Run => options(verb, matches).map(Command::Run),
        Verb::Step => options(verb, matches).map(Command::Step),
        Verb::Check => Some(Command::Check),
        Verb::Project => Some(Command::Project),
        Verb::Replay => Some(Command::Replay),
        Verb::Gen => gen_asked(matches),
        Verb::Upgrade => Some(Command::Upgrade),
        Verb::Mend => Some(Command::Mend),
        Verb::Drive => options(verb, matches).map(Command::Drive),
        Verb::Resume => options(verb, matches).map(Command::Resume),
        Verb::Monitor => match matches.get_str("role") {
            Some(role) => role_asked(alloc, role.as_bytes())?,
            None => None,
        },
        Verb::Sessions => options(verb, matches).map(Command::Sessions),
    })
}

fn options(verb: Verb, matches: &ArgMatches) -> Option<Options>
    ensures { result ≡ options_of verb (first_value (found_of matches.now)) }
{
    let seed = seed(matches.get_str("seed"))?;
    let steps = steps(verb, matches.get_str("steps"))?;
    let workers = workers(matches.get_str("workers"))?;
    Some(Options {
        seed,
        steps,
        workers,
        aux: is_set(matches.get_str("aux")),
        json: is_set(matches.get_str("json")),
    })
}

fn seed(text: Option<&str>) -> Option<Option<u64>>
    ensures { result ≡ optional_number 0 most_seed (option_map (λ read. read.now) text.entry) }
{
    match text {
        Some(text) => Some(Some(number(text, 0, u64::MAX)?)),
        None => Some(None),
    }
}

fn steps(verb: Verb, text: Option<&str>) -> Option<u64>
    ensures { let read = option_map (λ read. read.now) text.entry in
        result ≡ number_or (usual_steps verb) 1 (most_steps verb) read }
{
    let (usual, most) = match verb {
        Verb::Sessions => (2_000, 2_000),
        _ => (20_000, 100_000),
    };
    match text {
        Some(text) => number(text, 1, most),
        None => Some(usual),
    }
}

fn workers(text: Option<&str>) -> Option<u32>
    ensures { result ≡ number_or 4 1 16 (option_map (λ read. read.now) text.entry) }
{
    match text {
        Some(text) => small_number(text, 1, 16),
        None => Some(4),
    }
}

/// Whether a flag is set, by the text that `clap` gives it.
fn is_set(text: Option<&str>) -> bool
    ensures { result ≡ is_set (option_map (λ read. read.now) text.entry) }
{
    match text {
        Some(text) => text == "true",
        None => false,
    }
}

fn gen_asked(matches: &ArgMatches) -> Option<Command>
    ensures { result ≡ gen_of (first_value (found_of matches.now)) }
{
    let number = number(matches.get_str("number")?, 0, u64::MAX)?;
    let size = small_number(matches.get_str("size")?, 1, 400)?;
    Some(Command::Gen { number, size })
}

fn role_asked(alloc: Global, role: &[u8]) -> Result<Option<Command>, Memory>
    ensures { IfOk result (λ asked. asked ≡ monitor_by role.now) }
{
    if find_word(role).is_some() {
        return Ok(None);
    }
    match Name::read(alloc, role) {
        Ok(name) => Ok(Some(Command::Monitor(Role(name)))),
        Err(NameFault::NotAName) => Ok(None),
        Err(NameFault::Memory) => Err(Memory),
    }
}

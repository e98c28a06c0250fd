//! Words split by `clap`.

ghost use Rattle.std.specs.Prelude.{◌≡◌, map, fold, true, false, IfOk};
ghost use Rattle.std.specs.List.{list_all};
ghost use Rattle.std.specs.Str.{is_utf8};
ghost use Rattle.clap.specs.Words.{app_of, rule_of, new_rule, with_rule};
ghost use Rattle.command_words.specs.Splits.{known_in, given_rule, Splits};

use crate::commands::Verb;
use crate::tables::KnownOption;
use clap::error::ErrorKind;
use clap::{Arg, ArgAction, ArgMatches, Command};
use dioc_terms::Memory;
use std::alloc::{AllocError, Global};

/// Splits the words behind a command's name into its options, flags and positional words. `None`
/// where they aren't words of the command. `Memory` where memory runs out.
pub(crate) fn split<'a>(
    alloc: Global,
    verb: Verb,
    words: &'a [&'a str],
) -> Result<Option<ArgMatches<'a>>, Memory>
    requires { list_all is_utf8 (map (λ word. word.now) words.now) ≡ true }
    ensures { IfOk result (Splits verb (map (λ word. word.now) words.entry.now)) }
{
    let parser = Command::new(alloc, "aioc")
        .no_binary_name(true)
        .disable_help_flag(true);
    let parser = with_options(alloc, parser, verb.known_options())?;
    let parser = with_positional(alloc, parser, verb.positional_names())?;
    match parser.try_get_matches_from(words) {
        Ok(matches) => Ok(Some(matches)),
        Err(error) => match error.kind() {
            ErrorKind::OutOfMemory => Err(Memory),
            _ => Ok(None),
        },
    }
}

fn with_options<'a>(
    alloc: Global,
    mut parser: Command<'a>,
    options: &'static [KnownOption],
) -> Result<Command<'a>, AllocError>
    ensures { IfOk result (λ made. app_of made ≡
        fold with_rule (app_of parser.entry) (map given_rule (known_in options.now))) }
{
    for option in options {
        parser = parser.arg(argument(alloc, option))?;
    }
    Ok(parser)
}

fn with_positional<'a>(
    alloc: Global,
    mut parser: Command<'a>,
    names: &'static [&'static str],
) -> Result<Command<'a>, AllocError>
    ensures { IfOk result (λ made. app_of made ≡
        fold with_rule (app_of parser.entry) (map new_rule (map (λ name. name.now) names.now))) }
{
    for name in names {
        parser = parser.arg(Arg::new(alloc, name))?;
    }
    Ok(parser)
}

fn argument<'a>(alloc: Global, option: &KnownOption) -> Arg<'a>
    ensures rule { rule_of result ≡ given_rule (option.now.name.now, option.now.takes_value) }
    ensures local { result.global ≡ false }
{
    let action = if option.takes_value {
        ArgAction::Set
    } else {
        ArgAction::SetTrue
    };
    Arg::new(alloc, option.name)
        .long(option.name)
        .action(action)
}

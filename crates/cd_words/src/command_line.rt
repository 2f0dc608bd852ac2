//! The command line, as `clap` takes it.
ghost use Rattle.std.specs.Prelude.{◌≡◌, IfOk, IfErr, map, string_bytes, true, false};
ghost use Rattle.clap.specs.Words.{app_of, found_of, rows_of, matches_of, takes, kind_of, rule_of};
ghost use Rattle.cd_words.specs.CommandLine.{command_line, bare, option_rule, words_rule};
ghost use Rattle.cd_words.specs.Heard.{heard_of, texts_of, number_found, verb_found};

use crate::heard::{Heard, Verb};
use crate::numeral::numeral;
use crate::request::AskFault;
use clap::error::ErrorKind;
use clap::{Arg, ArgAction, ArgMatches, Error};
use std::alloc::{AllocError, Global};

/// One simple command: four options, and words of their own. It has no help flag, and an option may come more than once.
fn command_line<'a>(alloc: Global) -> Result<clap::Command<'a>, AllocError>
    ensures { IfOk result (λ command. app_of command ≡ command_line) }
{
    let command = bare(alloc)
        .arg(option(alloc, "workers"))?
        .arg(option(alloc, "cells"))?
        .arg(option(alloc, "max-contexts"))?
        .arg(option(alloc, "max-facts"))?;
    command.arg(words_argument(alloc))
}

/// The command without its arguments.
fn bare<'a>(alloc: Global) -> clap::Command<'a>
    ensures { app_of result ≡ bare }
{
    clap::Command::new(alloc, "condor")
        .no_binary_name(true)
        .disable_help_flag(true)
}

/// An option that takes one value at each use.
fn option<'a>(alloc: Global, name: &'a str) -> Arg<'a>
    ensures rule { rule_of result ≡ option_rule name.entry.now }
    ensures local { result.global ≡ false }
{
    Arg::new(alloc, name).long(name).action(ArgAction::Append)
}

/// The words that are no options and no values of options.
fn words_argument<'a>(alloc: Global) -> Arg<'a>
    ensures rule { rule_of result ≡ words_rule }
    ensures local { result.global ≡ false }
{
    Arg::new(alloc, "words").action(ArgAction::Append)
}

/// What `clap` finds in the words. `Usage` where it refuses them.
pub fn parsed<'a>(alloc: Global, words: &'a [String]) -> Result<ArgMatches<'a>, AskFault>
    ensures found { IfOk result (λ matches. rows_of (found_of matches)
        ≡ matches_of command_line (map string_bytes words.now)) }
    ensures taken { IfErr result (λ fault. takes command_line (map string_bytes words.now) ≡ true
        → fault ≡ AskFault.Memory) }
{
    match matches(alloc, words) {
        Ok(matches) => Ok(matches),
        Err(error) => Err(fault(error.kind())),
    }
}

/// The same, with the error as `clap` tells it.
fn matches<'a>(alloc: Global, words: &'a [String]) -> Result<ArgMatches<'a>, Error>
    ensures found { IfOk result (λ matches. rows_of (found_of matches)
        ≡ matches_of command_line (map string_bytes words.now)) }
    ensures taken { IfErr result (λ e. takes command_line (map string_bytes words.now) ≡ true
        → kind_of e ≡ ErrorKind.OutOfMemory) }
{
    command_line(alloc)?.try_get_matches_from(words)
}

/// What an error of `clap` says of the words.
fn fault(kind: ErrorKind) -> AskFault
    ensures { kind ≡ ErrorKind.OutOfMemory → result ≡ AskFault.Memory }
{
    match kind {
        ErrorKind::OutOfMemory => AskFault::Memory,
        _ => AskFault::Usage,
    }
}

impl Heard {
    /// What was heard, by what `clap` found: of an option one numeral, and of the words on their own a command.
    pub fn of(matches: &ArgMatches<'_>) -> Heard
        ensures { result ≡ heard_of (rows_of (found_of matches.now)) }
    {
        Heard {
            workers: number(matches.get_strs("workers")),
            cells: number(matches.get_strs("cells")),
            max_contexts: number(matches.get_strs("max-contexts")),
            max_facts: number(matches.get_strs("max-facts")),
            verb: verb(matches.get_strs("words")),
            waiting: None,
        }
    }
}

/// The number of an option that has one numeral.
fn number(values: Option<&[&str]>) -> Option<u64>
    ensures { result ≡ number_found (texts_of values.entry) }
{
    match values {
        Some([value]) => numeral(value),
        _ => None,
    }
}

/// The command that the words on their own make.
fn verb(words: Option<&[&str]>) -> Verb
    ensures { result ≡ verb_found (texts_of words.entry) }
{
    match words {
        Some([word]) if *word == "classify" => Verb::Classify,
        Some([word, size]) if *word == "trial" => Verb::Trial(numeral(size)),
        _ => Verb::Missing,
    }
}

//! From words to a command.

ghost use Rattle.std.specs.Prelude.{◌≡◌, IfOk, List, Some, map};
ghost use Rattle.std.specs.Option.{option_map};
ghost use Rattle.std.specs.List.{list_any};
ghost use Rattle.clap.specs.Words.{Row, Text, found_of, rows_of, subcommand_rows_of};
ghost use Rattle.commands.specs.Commands.{LineSoFar, called, topic_of, topic_in, command_named, command_of};
ghost use Rattle.commands.specs.Views.{command_seen, line_of};
ghost use Rattle.commands.specs.Lines.{TellsLine, is_refused};

use crate::command::{Command, Topic};
use crate::line::CommandLine;
use crate::reading::called;
use crate::syntax::{is_option, line_command};
use clap::ArgMatches;
use clap::error::ErrorKind;
use std::alloc::{AllocError, Global};

// Whether the word is empty, or begins with `-` and is no option.
fn is_refused(word: &str) -> bool
    ensures { result ≡ is_refused word.now }
{
    match word.as_bytes() {
        [] => true,
        [first, ..] => *first == b'-' && !is_option(word),
    }
}

// Whether some word is refused.
fn has_refused(words: &[&str]) -> bool
    ensures { result ≡ list_any is_refused (map (λ w. w.now) words.now) }
{
    match words {
        [] => false,
        [word, rest @ ..] => is_refused(word) || has_refused(rest),
    }
}

// What is left of a command's words once `clap` has parsed them.
fn line_in<'a>(matches: &ArgMatches<'a>) -> CommandLine<'a>
    ensures { (l : LineSoFar) → TellsLine (rows_of (found_of matches.now)) l → line_of result ≡ l }
{
    CommandLine {
        first: matches.get_str("first"),
        second: matches.get_str("second"),
        assume: matches.get_str("assume"),
        steps: matches.get_str("steps"),
        device: matches.get_str("device"),
        trials: matches.get_str("trials"),
        json: matches.get_flag("json"),
        why: matches.get_flag("why"),
    }
}

// The command that `clap` has parsed.
fn command_in<'a>(matches: &ArgMatches<'a>) -> Option<Command<'a>>
    ensures { (name : Text) (rows : List Row) (l : LineSoFar) → subcommand_rows_of matches.now ≡ Some (name, rows) → TellsLine rows l
        → option_map command_seen result ≡ called name l }
{
    match matches.subcommand() {
        Some((name, inner)) => called(name, line_in(inner)),
        None => None,
    }
}

// The command whose name is the first word. Words that are empty, or begin with `-` and are no option, are refused first. `clap` parses
// the rest, and numbers and the device are read from what it found.
fn command_named<'a>(alloc: Global, words: &'a [&'a str]) -> Result<Option<Command<'a>>, AllocError>
    ensures { IfOk result (λ o. option_map command_seen o ≡ command_named (map (λ w. w.now) words.entry.now)) }
{
    if has_refused(words) {
        return Ok(None);
    }
    match line_command(alloc)?.try_get_matches_from(words) {
        Ok(matches) => Ok(command_in(&matches)),
        Err(error) => {
            if error.kind() == ErrorKind::OutOfMemory {
                Err(AllocError)
            } else {
                Ok(None)
            }
        }
    }
}

// What the word asks of the program itself.
fn topic_of(word: &str) -> Option<Topic>
    ensures { result ≡ topic_of word.now }
{
    if word == "--help" {
        Some(Topic::Help)
    } else if word == "--version" {
        Some(Topic::Version)
    } else {
        None
    }
}

// What the words ask of it: one word alone does.
fn topic_in(words: &[&str]) -> Option<Topic>
    ensures { result ≡ topic_in (map (λ w. w.now) words.now) }
{
    match words {
        [word] => topic_of(word),
        _ => None,
    }
}

/// The command that the words are, if any.
pub fn command_of<'a>(
    alloc: Global,
    words: &'a [&'a str],
) -> Result<Option<Command<'a>>, AllocError>
    ensures { IfOk result (λ o. option_map command_seen o ≡ command_of (map (λ w. w.now) words.entry.now)) }
{
    match topic_in(words) {
        Some(topic) => Ok(Some(Command::About(topic))),
        None => command_named(alloc, words),
    }
}

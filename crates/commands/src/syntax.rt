//! The commands with their arguments, and the command line as `clap` defines it.

ghost use Rattle.std.specs.Prelude.{◌≡◌, IfOk, false};
ghost use Rattle.std.specs.List.{list_any};
ghost use Rattle.clap.specs.Words.{App, app_of, rule_of};
ghost use Rattle.clap.specs.declared.builder.command.Command.TheViews.{out-Command as fields_of};
ghost use Rattle.commands.specs.Lines.{rule_by, with_rules, with_commands, line_app, is_option_named, is_option};

use clap::{Arg, ArgAction, Command};
use std::alloc::{AllocError, Global};

// The kind of an argument.
pub(crate) enum ArgumentKind {
    // A required name.
    Name,
    // An option that takes the next word.
    Value,
    // An option without a value.
    Flag,
}

const FIRST: (&str, ArgumentKind) = ("first", ArgumentKind::Name);

const SECOND: (&str, ArgumentKind) = ("second", ArgumentKind::Name);

const ASSUME: (&str, ArgumentKind) = ("assume", ArgumentKind::Value);

const DEVICE: (&str, ArgumentKind) = ("device", ArgumentKind::Value);

const STEPS: (&str, ArgumentKind) = ("steps", ArgumentKind::Value);

const TRIALS: (&str, ArgumentKind) = ("trials", ArgumentKind::Value);

// The commands, each with its arguments in order.
static COMMANDS: [(&str, &[(&str, ArgumentKind)]); 10] = [
    ("check", &[FIRST, SECOND, ASSUME, DEVICE]),
    ("analyse", &[FIRST, ASSUME, DEVICE, STEPS]),
    ("run", &[FIRST, SECOND, ASSUME, DEVICE]),
    (
        "report",
        &[FIRST, SECOND, ASSUME, DEVICE, ("json", ArgumentKind::Flag)],
    ),
    ("explain", &[FIRST, SECOND, ASSUME, DEVICE]),
    ("clear", &[FIRST, SECOND, DEVICE]),
    (
        "premises",
        &[FIRST, SECOND, ASSUME, DEVICE, ("why", ArgumentKind::Flag)],
    ),
    ("attain", &[FIRST, SECOND, ASSUME, DEVICE, TRIALS]),
    ("simulate", &[FIRST, SECOND, ASSUME, DEVICE, STEPS]),
    ("demo", &[FIRST]),
];

// The argument of this name.
fn arg_of<'a>(alloc: Global, id: &'a str, kind: &ArgumentKind) -> Arg<'a>
    ensures rule { rule_of result ≡ rule_by kind.now id.entry.now }
    ensures local { result.global ≡ false }
{
    let arg = Arg::new(alloc, id);
    match kind {
        ArgumentKind::Name => arg.required(true),
        ArgumentKind::Value => arg.long(id),
        ArgumentKind::Flag => arg.long(id).action(ArgAction::SetTrue),
    }
}

// The command with these arguments.
fn with_args<'a>(
    alloc: Global,
    command: Command<'a>,
    args: &[(&'a str, ArgumentKind)],
) -> Result<Command<'a>, AllocError>
    requires { (fields_of command).has_globals ≡ false }
    ensures app { IfOk result (λ c. app_of c ≡ with_rules (app_of command.entry) args.now) }
    ensures local { IfOk result (λ c. (fields_of c).has_globals ≡ false) }
{
    match args {
        [] => Ok(command),
        [(id, kind), rest @ ..] => with_args(alloc, command.arg(arg_of(alloc, id, kind))?, rest),
    }
}

// The program with these commands.
fn with_commands<'a>(
    alloc: Global,
    program: Command<'a>,
    commands: &[(&'a str, &[(&'a str, ArgumentKind)])],
) -> Result<Command<'a>, AllocError>
    ensures { (app : App) → app_of program.entry ≡ app → IfOk result (λ c. app_of c ≡ with_commands app commands.now) }
{
    let [(name, args), rest @ ..] = commands else {
        return Ok(program);
    };
    match with_args(alloc, Command::new(alloc, name), args) {
        Ok(command) => with_commands(alloc, program.subcommand(command)?, rest),
        Err(error) => {
            drop(program);
            Err(error)
        }
    }
}

// The program with its commands, without help and version.
pub(crate) fn line_command<'a>(alloc: Global) -> Result<Command<'a>, AllocError>
    ensures { IfOk result (λ c. app_of c ≡ line_app) }
{
    let program = Command::new(alloc, "stackbound")
        .no_binary_name(true)
        .disable_help_flag(true)
        .disable_help_subcommand(true)
        .disable_version_flag(true)
        .subcommand_required(true);
    with_commands(alloc, program, &COMMANDS)
}

// Whether the argument is an option of this name.
fn is_option_named(argument: &(&str, ArgumentKind), name: &[u8]) -> bool
    ensures { result ≡ is_option_named name.now argument.now }
{
    match argument {
        (_, ArgumentKind::Name) => false,
        (id, ArgumentKind::Value | ArgumentKind::Flag) => name == id.as_bytes(),
    }
}

// Whether one of the arguments is.
fn have_option(args: &[(&str, ArgumentKind)], name: &[u8]) -> bool
    ensures { result ≡ list_any (is_option_named name.now) args.now }
{
    args.iter().any(|argument| is_option_named(argument, name))
}

// Whether one of these commands has such an option.
fn is_option_of(commands: &[(&str, &[(&str, ArgumentKind)])], name: &[u8]) -> bool
    ensures { result ≡ list_any (λ c. list_any (is_option_named name.now) c.1.now) commands.now }
{
    commands.iter().any(|(_, args)| have_option(args, name))
}

// Whether the word is an option of some command.
pub(crate) fn is_option(word: &str) -> bool
    ensures { result ≡ is_option word.now }
{
    match word.as_bytes() {
        [b'-', b'-', name @ ..] => is_option_of(&COMMANDS, name),
        _ => false,
    }
}

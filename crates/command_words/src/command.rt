//! Commands and their options.
ghost use Rattle.std.specs.Prelude.{◌≡◌, IfOk};
ghost use Rattle.clap.specs.Words.{app_of, with_rule};
ghost use Rattle.command_words.specs.CommandOptions.{bare_command, option_of, flag_of, list_of};

use clap::{Arg, ArgAction, Command};
use std::alloc::{AllocError, Global};

/// A command of the words after its name, without options, help and version.
pub fn plain_command<'a>(alloc: Global, name: &'a str) -> Command<'a>
    ensures { app_of result ≡ bare_command name.entry.now }
{
    Command::new(alloc, name)
        .no_binary_name(true)
        .disable_help_flag(true)
}

/// The command with an option that takes a value: `--name V` or `--name=V`, once.
pub fn with_option<'a>(
    alloc: Global,
    command: Command<'a>,
    name: &'a str,
) -> Result<Command<'a>, AllocError>
    ensures { IfOk result (λ made. app_of made
        ≡ with_rule (app_of command.entry) (option_of name.entry.now)) }
{
    let option = Arg::new(alloc, name).long(name).action(ArgAction::Set);
    command.arg(option)
}

/// The command with an option without a value: `--name`, once.
pub fn with_flag<'a>(
    alloc: Global,
    command: Command<'a>,
    name: &'a str,
) -> Result<Command<'a>, AllocError>
    ensures { IfOk result (λ made. app_of made ≡ with_rule (app_of command.entry) (flag_of name.entry.now)) }
{
    let flag = Arg::new(alloc, name).long(name).action(ArgAction::SetTrue);
    command.arg(flag)
}

/// The command with words that are no options, any number of them, under this name.
pub fn with_list<'a>(
    alloc: Global,
    command: Command<'a>,
    name: &'a str,
) -> Result<Command<'a>, AllocError>
    ensures { IfOk result (λ made. app_of made ≡ with_rule (app_of command.entry) (list_of name.entry.now)) }
{
    let list = Arg::new(alloc, name).action(ArgAction::Append);
    command.arg(list)
}

//! Rows of the table, as commands of `clap`.

use crate::help;
use crate::table::{Bond, Opt, Takes, Words, commands};
use clap::builder::ValueParser;
use clap::{Arg, ArgAction, Command};
use std::alloc::{AllocError, Global};

/// Returns an argument that takes a number in a range.
fn number(arg: Arg<'_>, least: i64, most: i64) -> Arg<'_> {
    arg.value_name("N")
        .value_parser(ValueParser::signed(least, most))
}

/// Returns an argument that takes a path.
fn path<'a>(arg: Arg<'a>, value: &'a str) -> Arg<'a> {
    arg.value_name(value)
        .value_parser(ValueParser::NonEmptyString)
}

/// Returns an argument that takes one number or more.
fn numbers<'a>(arg: Arg<'a>, value: &'a str) -> Arg<'a> {
    arg.value_name(value)
        .num_args(1..)
        .action(ArgAction::Append)
        .value_parser(ValueParser::unsigned(0, u64::MAX))
}

/// Returns an argument of this name that takes a value of this kind.
fn taking<'a>(alloc: Global, name: &'a str, takes: Takes) -> Arg<'a> {
    let plain = Arg::new(alloc, name);
    match takes {
        Takes::Nothing => plain.long(name).action(ArgAction::SetTrue),
        Takes::Text(value) => plain.long(name).value_name(value),
        Takes::Path(value) => path(plain.long(name), value),
        Takes::Place(value) => path(plain, value),
        Takes::Number(least, most) => number(plain.long(name), least, most),
        Takes::NumberOr(least, most, default) => {
            number(plain.long(name), least, most).default_value(default)
        }
        Takes::Numbers(value) => numbers(plain.long(name), value),
    }
}

/// Returns an argument with this dependency on others.
fn bound<'a>(arg: Arg<'a>, bond: Bond) -> Result<Arg<'a>, AllocError> {
    match bond {
        Bond::Required => Ok(arg.required(true)),
        Bond::RequiredWithout(name) => arg.required_unless_present(name),
        Bond::Needs(name) => arg.requires_arg(name),
        Bond::Excludes(name) => arg.conflicts_with(name),
    }
}

/// Returns the argument of a row.
fn arg_of<'a>(alloc: Global, option: &Opt) -> Result<Arg<'a>, AllocError> {
    let mut arg = taking(alloc, option.name, option.takes).help(option.help);
    for bond in option.bonds {
        arg = bound(arg, *bond)?;
    }
    Ok(arg)
}

/// Returns the arguments of rows.
fn args_of<'a>(alloc: Global, options: &[Opt]) -> Result<Vec<Arg<'a>>, AllocError> {
    let mut args = Vec::with_capacity(alloc, options.len())?;
    for option in options {
        args.push(arg_of(alloc, option)?)?;
    }
    Ok(args)
}

/// Returns the command of a row.
fn command_of<'a>(alloc: Global, words: &Words) -> Result<Command<'a>, AllocError> {
    let args = args_of(alloc, words.options)?;
    Command::new(alloc, words.name)
        .about(words.about)
        .after_help(words.after)
        .args(args)
}

/// Returns the commands of rows.
fn commands_of<'a>(alloc: Global, rows: &[&Words]) -> Result<Vec<Command<'a>>, AllocError> {
    let mut commands = Vec::with_capacity(alloc, rows.len())?;
    for words in rows {
        commands.push(command_of(alloc, words)?)?;
    }
    Ok(commands)
}

/// The version of the program.
pub const VERSION: &str = "0.2.0";

/// Returns the program without its commands.
fn program<'a>(alloc: Global) -> Command<'a> {
    Command::new(alloc, "rwship")
        .version(VERSION)
        .about("Remote-write shipper and receiver for Prometheus")
        .after_help(help::ALL)
        .subcommand_required(true)
}

/// Returns all commands.
pub fn command_line<'a>(alloc: Global) -> Result<Command<'a>, AllocError> {
    let commands = commands_of(alloc, &commands())?;
    program(alloc).subcommands(commands)
}

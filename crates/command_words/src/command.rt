//! The command of `clap` that accepts the arguments which a table allows.
ghost use Rattle.std.specs.Prelude.{◌≡◌, IfOk, false, map, ◌<◌, length};
ghost use Rattle.clap.specs.Walk.{rule_of};
ghost use Rattle.clap.specs.Simple.{app_of, shape_of};
ghost use Rattle.clap.specs.declared.builder.command.Command.TheViews.{out-Command};
ghost use Rattle.command_words.specs.Clap.{app_of_program, plain_rule, plain_rules, option_rule, shape_for, with_rules};
ghost use Rattle.command_words.specs.Usages.{slot_of, usage_of};

use crate::table::{Argument, CommandRow, Limit, Program};
use clap::builder::ValueParser;
use clap::{Arg, ArgAction, Command};
use std::alloc::{AllocError, Global};

fn plain_arg<'a>(alloc: Global, argument: &Argument<'a>, required: bool) -> Arg<'a>
    ensures rule { rule_of result ≡ plain_rule required (slot_of argument.now) }
    ensures local { result.global ≡ false }
{
    let arg = Arg::new(alloc, argument.name)
        .value_name(argument.value)
        .required(required)
        .action(ArgAction::Set);
    match argument.limit {
        Limit::Number(least, most) => arg.value_parser(ValueParser::Unsigned(least, most)),
        Limit::Text => arg,
    }
}

fn option_arg<'a>(alloc: Global, argument: &Argument<'a>) -> Arg<'a>
    ensures rule { rule_of result ≡ option_rule (slot_of argument.now) }
    ensures local { result.global ≡ false }
{
    let arg = Arg::new(alloc, argument.name)
        .long(argument.name)
        .value_name(argument.value)
        .action(ArgAction::Set);
    match argument.limit {
        Limit::Number(least, most) => arg.value_parser(ValueParser::Unsigned(least, most)),
        Limit::Text => arg,
    }
}

#[tactic(auto, using(std::proofs::lemmas::List::drop_more))]
fn with_plains<'a>(
    alloc: Global,
    command: Command<'a>,
    arguments: &'a [Argument<'a>],
    least: usize,
) -> Result<Command<'a>, AllocError>
    ensures app { IfOk result (λ c.
        app_of c ≡ with_rules (app_of command.entry) (plain_rules least 0 (map slot_of arguments.now))) }
    ensures local { IfOk result (λ c. (out-Command c).has_globals ≡ (out-Command command.entry).has_globals) }
{
    let mut made = command;
    for (index, argument) in arguments.iter().enumerate() {
        made = made.arg(plain_arg(alloc, argument, index < least))?;
    }
    Ok(made)
}

#[tactic(auto, using(std::proofs::lemmas::List::drop_more))]
fn with_options<'a>(
    alloc: Global,
    command: Command<'a>,
    arguments: &'a [Argument<'a>],
) -> Result<Command<'a>, AllocError>
    ensures app { IfOk result (λ c.
        app_of c ≡ with_rules (app_of command.entry) (map option_rule (map slot_of arguments.now))) }
    ensures local { IfOk result (λ c. (out-Command c).has_globals ≡ (out-Command command.entry).has_globals) }
{
    let mut made = command;
    for argument in arguments {
        made = made.arg(option_arg(alloc, argument))?;
    }
    Ok(made)
}

fn subcommand<'a>(alloc: Global, row: &'a CommandRow<'a>) -> Result<Command<'a>, AllocError>
    ensures shape { IfOk result (λ c. shape_of c ≡ shape_for (usage_of row.now)) }
    ensures local { IfOk result (λ c. (out-Command c).has_globals ≡ false) }
{
    let command = Command::new(alloc, row.name).override_usage(row.usage);
    let command = with_plains(alloc, command, row.plains, row.least)?;
    with_options(alloc, command, row.options)
}

/// The command over the rows of a table.
pub(crate) fn command<'a>(alloc: Global, program: Program<'a>) -> Result<Command<'a>, AllocError>
    requires { 0 < length program.commands.now }
    ensures { IfOk result (λ c. app_of c ≡ app_of_program program.entry) }
{
    let mut made = Command::new(alloc, program.name)
        .disable_help_flag(true)
        .disable_help_subcommand(true)
        .subcommand_required(true)
        .override_usage(program.usage);
    for row in program.commands {
        made = made.subcommand(subcommand(alloc, row)?)?;
    }
    Ok(made)
}

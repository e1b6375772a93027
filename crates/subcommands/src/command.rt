// The program's command line, as clap reads it.
ghost use Rattle.std.specs.Prelude.{IfOk};
ghost use Rattle.subcommands.specs.CommandLine.{IsArg, IsLine, seed_rule, size_rule, sized, settings, command_line};

use clap::{Arg, Command, value_parser};
use std::alloc::{AllocError, Global};

fn seed<'a>(alloc: Global) -> Arg<'a>
    ensures { IsArg seed_rule result }
{
    Arg::new(alloc, "SEED")
        .required(true)
        .value_parser(value_parser!(u32))
}

fn size<'a>(alloc: Global) -> Arg<'a>
    ensures { IsArg size_rule result }
{
    Arg::new(alloc, "SIZE")
        .required(true)
        .value_parser(value_parser!(u16).range(1..=250))
}

/// A subcommand with a seed and a size.
fn sized<'a>(alloc: Global, name: &'a str) -> Result<Command<'a>, AllocError>
    ensures { IfOk result (IsLine (sized name.now)) }
{
    Command::new(alloc, name).arg(seed(alloc))?.arg(size(alloc))
}

/// The program without its subcommands: no word before them, and no help.
fn program<'a>(alloc: Global) -> Command<'a>
    ensures { IsLine settings result }
{
    Command::new(alloc, "uicc_replay")
        .no_binary_name(true)
        .disable_help_flag(true)
        .disable_help_subcommand(true)
        .subcommand_required(true)
}

/// The program with its subcommands.
pub fn command_line<'a>(alloc: Global) -> Result<Command<'a>, AllocError>
    ensures { IfOk result (IsLine command_line) }
{
    program(alloc)
        .subcommand(Command::new(alloc, "replay"))?
        .subcommand(Command::new(alloc, "run"))?
        .subcommand(Command::new(alloc, "check"))?
        .subcommand(sized(alloc, "gen")?)?
        .subcommand(sized(alloc, "bulk")?)
}

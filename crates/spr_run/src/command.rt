//! The command line, as it is told to `clap`.

ghost use Rattle.std.specs.Prelude.{◌≡◌, false, IfOk};
ghost use Rattle.clap.specs.Words.{app_of, rule_of, shape_of};
ghost use Rattle.spr_run.specs.Line.{bare, calls, check, disks, dump, flag, format, generation, idl, line, loss, name, run, seed};

use clap::{Arg, ArgAction, Command, value_parser};
use std::alloc::{AllocError, Global};

/// A name that a command needs.
fn name<'a>(alloc: Global, id: &'a str) -> Arg<'a>
    ensures rule { rule_of result ≡ name id.entry.now }
    ensures global { result.global ≡ false }
{
    Arg::new(alloc, id).required(true)
}

/// The seed of a generated script, a whole number that its command needs.
fn seed<'a>(alloc: Global) -> Arg<'a>
    ensures rule { rule_of result ≡ seed }
    ensures global { result.global ≡ false }
{
    Arg::new(alloc, "seed")
        .required(true)
        .value_parser(value_parser!(u32).range(..2_147_483_648))
}

/// How many calls a generated script has, a whole number that its command needs.
fn calls<'a>(alloc: Global) -> Arg<'a>
    ensures rule { rule_of result ≡ calls }
    ensures global { result.global ≡ false }
{
    Arg::new(alloc, "calls")
        .required(true)
        .value_parser(value_parser!(u32).range(..=1_000_000))
}

/// A flag that a command may have.
fn flag<'a>(alloc: Global, id: &'a str) -> Arg<'a>
    ensures rule { rule_of result ≡ flag id.entry.now }
    ensures global { result.global ≡ false }
{
    Arg::new(alloc, id).long(id).action(ArgAction::SetTrue)
}

/// The number of a run over links that lose packets: those whose numbers it divides.
fn loss<'a>(alloc: Global) -> Arg<'a>
    ensures rule { rule_of result ≡ loss }
    ensures global { result.global ≡ false }
{
    Arg::new(alloc, "loss")
        .long("loss")
        .value_parser(value_parser!(u32).range(2..=1_000))
}

/// The command that runs a script.
fn run<'a>(alloc: Global) -> Result<Command<'a>, AllocError>
    ensures shape { IfOk result (λ c. shape_of c ≡ run) }
{
    Command::new(alloc, "run")
        .arg(flag(alloc, "trace"))?
        .arg(loss(alloc))?
        .arg(name(alloc, "idl"))?
        .arg(name(alloc, "stack"))?
        .arg(name(alloc, "script"))
}

/// The command that runs a script which it makes from a number.
fn generation<'a>(alloc: Global) -> Result<Command<'a>, AllocError>
    ensures shape { IfOk result (λ c. shape_of c ≡ generation) }
{
    Command::new(alloc, "gen")
        .arg(name(alloc, "idl"))?
        .arg(name(alloc, "stack"))?
        .arg(seed(alloc))?
        .arg(calls(alloc))
}

/// The command that tells whether a stack can be mounted.
fn check<'a>(alloc: Global) -> Result<Command<'a>, AllocError>
    ensures shape { IfOk result (λ c. shape_of c ≡ check) }
{
    Command::new(alloc, "check").arg(name(alloc, "stack"))
}

/// The command that writes a fresh image on the store of each file.
fn format<'a>(alloc: Global) -> Result<Command<'a>, AllocError>
    ensures shape { IfOk result (λ c. shape_of c ≡ format) }
{
    Command::new(alloc, "format").arg(name(alloc, "stack"))
}

/// The command that prints the pages of the image of a file.
fn dump<'a>(alloc: Global) -> Result<Command<'a>, AllocError>
    ensures shape { IfOk result (λ c. shape_of c ≡ dump) }
{
    Command::new(alloc, "dump")
        .arg(name(alloc, "stack"))?
        .arg(name(alloc, "file"))
}

/// The command that tells what lies on the disks of a stack.
fn disks<'a>(alloc: Global) -> Result<Command<'a>, AllocError>
    ensures shape { IfOk result (λ c. shape_of c ≡ disks) }
{
    Command::new(alloc, "disks").arg(name(alloc, "stack"))
}

/// The command that prints the tables of interfaces.
fn idl<'a>(alloc: Global) -> Result<Command<'a>, AllocError>
    ensures shape { IfOk result (λ c. shape_of c ≡ idl) }
{
    Command::new(alloc, "idl").arg(name(alloc, "idl"))
}

/// The command line without its commands, of which one must follow.
fn bare<'a>(alloc: Global) -> Command<'a>
    ensures shape { app_of result ≡ bare }
{
    Command::new(alloc, "spring")
        .no_binary_name(true)
        .disable_help_flag(true)
        .disable_help_subcommand(true)
        .disable_version_flag(true)
        .subcommand_required(true)
}

/// The command line of the program.
pub(crate) fn line<'a>(alloc: Global) -> Result<Command<'a>, AllocError>
    ensures shape { IfOk result (λ c. app_of c ≡ line) }
{
    bare(alloc)
        .subcommand(run(alloc)?)?
        .subcommand(generation(alloc)?)?
        .subcommand(check(alloc)?)?
        .subcommand(format(alloc)?)?
        .subcommand(dump(alloc)?)?
        .subcommand(disks(alloc)?)?
        .subcommand(idl(alloc)?)
}

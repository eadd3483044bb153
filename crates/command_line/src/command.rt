//! The program's commands, as clap reads them.
ghost use Rattle.std.specs.Prelude.{◌≡◌, IfOk, codes, map, false, true};
ghost use Rattle.std.specs.String.{string_bytes};
ghost use Rattle.clap.specs.Words.{App, FailsBy, HasMatchesOf, fault_of, new_app, rule_of, with_rule, with_subcommand};
ghost use Rattle.command_line.specs.Parts.{IsApp, needed_rule, number_rule};
ghost use Rattle.command_line.specs.Words.{budget, certify, check, count, make, needing, program, prune, quiet, recheck, replay, workers};

use clap::builder::ValueParser;
use clap::{Arg, ArgAction, ArgMatches, Command, Error};
use std::alloc::{AllocError, Global};

/// The largest budget; the least is 1 (docs/command-line.md).
pub const LARGEST_BUDGET: u64 = 4_611_686_018_427_387_904;

/// The most workers; the least is 1.
pub const MOST_WORKERS: u64 = 64;

/// The most nodes from which on applications are split; the least is 1.
pub const LARGEST_SPLIT: u64 = 4_294_967_295;

/// The most theorems that are made; the least is 1.
pub const MOST_THEOREMS: u64 = 100_000;

// An argument that has to be given, with this name.
fn needed_argument<'a>(alloc: Global, name: &'a str) -> Arg<'a>
    ensures rule { rule_of result ≡ needed_rule name.entry.now }
    ensures local { result.global ≡ false }
{
    Arg::new(alloc, name).required(true)
}

// `--name N`, with a number from 1 to the largest.
fn number_argument<'a>(alloc: Global, name: &'a str, largest: u64) -> Arg<'a>
    ensures rule { rule_of result ≡ number_rule name.entry.now largest }
    ensures local { result.global ≡ false }
{
    Arg::new(alloc, name)
        .long(name)
        .value_parser(ValueParser::unsigned(1, largest))
}

fn workers_argument<'a>(alloc: Global) -> Arg<'a>
    ensures rule { rule_of result ≡ workers }
    ensures local { result.global ≡ false }
{
    number_argument(alloc, "workers", MOST_WORKERS).default_value("4")
}

fn budget_argument<'a>(alloc: Global) -> Arg<'a>
    ensures rule { rule_of result ≡ budget }
    ensures local { result.global ≡ false }
{
    number_argument(alloc, "budget", LARGEST_BUDGET).default_value("1000000000")
}

fn quiet_argument<'a>(alloc: Global) -> Arg<'a>
    ensures rule { rule_of result ≡ quiet }
    ensures local { result.global ≡ false }
{
    Arg::new(alloc, "quiet")
        .long("quiet")
        .action(ArgAction::SetTrue)
}

fn count_argument<'a>(alloc: Global) -> Arg<'a>
    ensures rule { rule_of result ≡ count }
    ensures local { result.global ≡ false }
{
    needed_argument(alloc, "count").value_parser(ValueParser::unsigned(1, MOST_THEOREMS))
}

// A command without arguments.
fn command_named<'a>(alloc: Global, name: &'a str) -> Result<Command<'a>, AllocError>
    ensures { IfOk result (IsApp (new_app name.entry.now)) }
{
    Ok(Command::new(alloc, name))
}

// The command with one more argument.
fn with_argument<'a>(
    command: Result<Command<'a>, AllocError>,
    argument: Arg<'a>,
) -> Result<Command<'a>, AllocError>
    requires { argument.global ≡ false }
    ensures { (a : App) → IfOk command.entry (IsApp a)
        → IfOk result (IsApp (with_rule a (rule_of argument.entry))) }
{
    command?.arg(argument)
}

// The command with one more subcommand, none of whose arguments counts above it.
fn with_command<'a>(
    command: Result<Command<'a>, AllocError>,
    below: Result<Command<'a>, AllocError>,
) -> Result<Command<'a>, AllocError>
    ensures { (a b : App) → IfOk command.entry (IsApp a) → IfOk below.entry (IsApp b)
        → b.top.is_plain ≡ true → IfOk result (IsApp (with_subcommand a b.top)) }
{
    command?.subcommand(below?)
}

fn check_command<'a>(alloc: Global) -> Result<Command<'a>, AllocError>
    ensures { IfOk result (IsApp check) }
{
    let command = with_argument(command_named(alloc, "check"), workers_argument(alloc));
    let command = with_argument(command, number_argument(alloc, "split", LARGEST_SPLIT));
    let command = with_argument(command, budget_argument(alloc));
    let command = with_argument(command, quiet_argument(alloc));
    with_argument(command, needed_argument(alloc, "file"))
}

fn make_command<'a>(alloc: Global) -> Result<Command<'a>, AllocError>
    ensures { IfOk result (IsApp make) }
{
    let command = with_argument(command_named(alloc, "make"), workers_argument(alloc));
    let command = with_argument(command, budget_argument(alloc));
    with_argument(command, count_argument(alloc))
}

fn certify_command<'a>(alloc: Global) -> Result<Command<'a>, AllocError>
    ensures { IfOk result (IsApp certify) }
{
    let command = with_argument(command_named(alloc, "certify"), budget_argument(alloc));
    with_argument(command, needed_argument(alloc, "file"))
}

fn recheck_command<'a>(alloc: Global) -> Result<Command<'a>, AllocError>
    ensures { IfOk result (IsApp recheck) }
{
    let command = with_argument(
        command_named(alloc, "recheck"),
        needed_argument(alloc, "file"),
    );
    with_argument(command, needed_argument(alloc, "certificate"))
}

fn prune_command<'a>(alloc: Global) -> Result<Command<'a>, AllocError>
    ensures { IfOk result (IsApp prune) }
{
    let command = with_argument(command_named(alloc, "prune"), budget_argument(alloc));
    let command = with_argument(command, needed_argument(alloc, "name"));
    with_argument(command, needed_argument(alloc, "file"))
}

fn replay_command<'a>(alloc: Global) -> Result<Command<'a>, AllocError>
    ensures { IfOk result (IsApp replay) }
{
    let command = with_argument(command_named(alloc, "replay"), budget_argument(alloc));
    with_argument(command, needed_argument(alloc, "script"))
}

// The program, as yet without subcommands; `help` won't be one.
fn program_alone<'a>(alloc: Global) -> Result<Command<'a>, AllocError>
    ensures { IfOk result (IsApp (needing (new_app (codes "dk_check")))) }
{
    Ok(
        Command::new(alloc, "dk_check")
            .subcommand_required(true)
            .disable_help_subcommand(true),
    )
}

fn program<'a>(alloc: Global) -> Result<Command<'a>, AllocError>
    ensures { IfOk result (IsApp program) }
{
    let command = with_command(program_alone(alloc), check_command(alloc));
    let command = with_command(command, make_command(alloc));
    let command = with_command(command, certify_command(alloc));
    let command = with_command(command, recheck_command(alloc));
    let command = with_command(command, prune_command(alloc));
    with_command(command, replay_command(alloc))
}

// What clap finds in the words.
pub fn found_in<'a>(alloc: Global, words: &'a [String]) -> Result<ArgMatches<'a>, Error>
    ensures matches { IfOk result (λ m. HasMatchesOf program (map string_bytes words.entry.now) m) }
    ensures faults { FailsBy (fault_of program (map string_bytes words.entry.now)) result }
{
    let program = program(alloc)?;
    program.try_get_matches_from(words)
}

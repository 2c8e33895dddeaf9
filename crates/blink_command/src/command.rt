//! The grammar of the command line of `blink`, for `clap`.
ghost use Rattle.std.specs.Prelude.{◌≡◌, false, codes, IfOk, IfErr};
ghost use Rattle.clap.specs.Words.{app_of, kind_of, new_app, rule_of, subcommand_of, subcommand_rows_of};
ghost use Rattle.clap.specs.Walk.{texts};
ghost use Rattle.clap.specs.declared.builder.command.Command.TheViews.{out-Command};
ghost use Rattle.blink_command.specs.Grammar.{IsTaken, blink, option, option_or, replay, run, runner, wanting_subcommand, with_sizes};

use clap::error::ErrorKind;
use clap::{Arg, ArgMatches, Command};
use std::alloc::{AllocError, Global};

/// Reads the words of `blink`, the program's name first, and returns what `clap` finds in them. Words that `clap` doesn't take
/// give its own error, and refused memory gives one of kind `OutOfMemory`.
pub fn matches_of<'a>(alloc: Global, words: &'a [&'a str]) -> Result<ArgMatches<'a>, clap::Error>
    ensures taken { IfOk result (λ _. IsTaken (texts words.entry.now)) }
    ensures matches { IfOk result
        (λ matches. subcommand_rows_of matches ≡ subcommand_of blink (texts words.entry.now)) }
    ensures memory { IfErr result
        (λ error. IsTaken (texts words.entry.now) → kind_of error ≡ ErrorKind.OutOfMemory) }
{
    let command = command(alloc)?;
    command.try_get_matches_from(words)
}

fn command<'a>(alloc: Global) -> Result<Command<'a>, AllocError>
    ensures { IfOk result (λ command. app_of command ≡ blink) }
{
    with_replay(alloc, runner(alloc)?)
}

// The command with `replay` as its other subcommand. It is a function of its own because a proof costs less where fewer commands
// are alive.
fn with_replay<'a>(alloc: Global, command: Command<'a>) -> Result<Command<'a>, AllocError>
    requires { app_of command ≡ runner }
    ensures { IfOk result (λ command. app_of command ≡ blink) }
{
    command.subcommand(replay_command(alloc)?)
}

// The command with `run` as its only subcommand yet.
fn runner<'a>(alloc: Global) -> Result<Command<'a>, AllocError>
    ensures { IfOk result (λ command. app_of command ≡ runner) }
{
    let run = run_command(alloc)?;
    without_subcommands(alloc).subcommand(run)
}

// The command with no subcommand yet, a function of its own for the same reason.
fn without_subcommands<'a>(alloc: Global) -> Command<'a>
    ensures { app_of result ≡ wanting_subcommand (new_app (codes "blink")) }
{
    Command::new(alloc, "blink")
        .about("Runs scripts of index operations on a B-link tree")
        .subcommand_required(true)
}

fn run_command<'a>(alloc: Global) -> Result<Command<'a>, AllocError>
    ensures app { IfOk result (λ command. app_of command ≡ run) }
    ensures local { IfOk result (λ command. (out-Command command).has_globals ≡ false) }
{
    subcommand_with_sizes(
        alloc,
        "run",
        "Runs the script on standard input by threads and prints its answers",
    )?
    .arg(cut_option(alloc))?
    .arg(driver_option(alloc))
}

/// Returns the subcommand `replay` with its options, for the command of another program. An error is a refusal of memory alone.
pub fn replay_command<'a>(alloc: Global) -> Result<Command<'a>, AllocError>
    ensures app { IfOk result (λ command. app_of command ≡ replay) }
    ensures local { IfOk result (λ command. (out-Command command).has_globals ≡ false) }
{
    subcommand_with_sizes(
        alloc,
        "replay",
        "Runs the script on standard input turn by turn, as a schedule says",
    )?
    .arg(schedule_option(alloc))
}

// A subcommand with the options that both subcommands have.
fn subcommand_with_sizes<'a>(
    alloc: Global,
    name: &'a str,
    about: &'a str,
) -> Result<Command<'a>, AllocError>
    ensures app { IfOk result (λ command. app_of command ≡ with_sizes (new_app name.entry.now)) }
    ensures local { IfOk result (λ command. (out-Command command).has_globals ≡ false) }
{
    Command::new(alloc, name)
        .about(about)
        .arg(workers_option(alloc))?
        .arg(fan_option(alloc))
}

fn workers_option<'a>(alloc: Global) -> Arg<'a>
    ensures rule { rule_of result ≡ option_or (codes "workers") (codes "4") }
    ensures local { result.global ≡ false }
{
    option_or(
        alloc,
        "workers",
        "N",
        "4",
        "How many workers share the work, 1 to 64",
    )
}

fn fan_option<'a>(alloc: Global) -> Arg<'a>
    ensures rule { rule_of result ≡ option_or (codes "fan") (codes "16") }
    ensures local { result.global ≡ false }
{
    option_or(
        alloc,
        "fan",
        "F",
        "16",
        "How many entries a page has at most, 4 to 32",
    )
}

fn cut_option<'a>(alloc: Global) -> Arg<'a>
    ensures rule { rule_of result ≡ option_or (codes "cut") (codes "residue") }
    ensures local { result.global ≡ false }
{
    option_or(
        alloc,
        "cut",
        "residue|ranges",
        "residue",
        "How keys go to workers: by their remainders (residue) or by equal ranges (ranges)",
    )
}

fn driver_option<'a>(alloc: Global) -> Arg<'a>
    ensures rule { rule_of result ≡ option_or (codes "driver") (codes "locked") }
    ensures local { result.global ≡ false }
{
    option_or(
        alloc,
        "driver",
        "locked|live",
        "locked",
        "How workers share the tree: each step under one lock (locked) or without one (live)",
    )
}

fn schedule_option<'a>(alloc: Global) -> Arg<'a>
    ensures rule { rule_of result ≡ option (codes "schedule") }
    ensures local { result.global ≡ false }
{
    option(alloc, "schedule", "S").help(
        "Which worker takes each turn: numbers from 0 to 63, separated by single commas [default: none]",
    )
}

// An option with one value, which is `default` if the words give none.
fn option_or<'a>(
    alloc: Global,
    name: &'a str,
    value: &'a str,
    default: &'a str,
    help: &'a str,
) -> Arg<'a>
    ensures rule { rule_of result ≡ option_or name.entry.now default.entry.now }
    ensures local { result.global ≡ false }
{
    option(alloc, name, value).default_value(default).help(help)
}

/// Returns an option with one value: `--name VALUE`, where help calls the value as `value` says.
pub fn option<'a>(alloc: Global, name: &'a str, value: &'a str) -> Arg<'a>
    ensures rule { rule_of result ≡ option name.entry.now }
    ensures local { result.global ≡ false }
{
    Arg::new(alloc, name).long(name).value_name(value)
}

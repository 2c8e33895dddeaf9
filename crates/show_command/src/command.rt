//! The grammar of the words of `blink-show`, for `clap`.
ghost use Rattle.std.specs.Prelude.{◌≡◌, false, codes, IfOk, IfErr};
ghost use Rattle.clap.specs.Words.{app_of, kind_of, rule_of, subcommand_of, subcommand_rows_of};
ghost use Rattle.clap.specs.Walk.{texts};
ghost use Rattle.clap.specs.declared.builder.command.Command.TheViews.{out-Command};
ghost use Rattle.blink_command.specs.{option};
ghost use Rattle.show_command.specs.Grammar.{IsTakenToShow, replay_or_seed, show};

use blink_command::{option, replay_command};
use clap::error::ErrorKind;
use clap::{Arg, ArgMatches, Command};
use std::alloc::{AllocError, Global};

/// Reads words of `blink-show`, which begin as those of a replay do with `blink replay`, and returns what `clap` finds in them.
/// Words that `clap` doesn't take give its own error, and refused memory gives one of kind `OutOfMemory`.
pub fn show_matches_of<'a>(
    alloc: Global,
    words: &'a [&'a str],
) -> Result<ArgMatches<'a>, clap::Error>
    ensures taken { IfOk result (λ _. IsTakenToShow (texts words.entry.now)) }
    ensures matches { IfOk result
        (λ matches. subcommand_rows_of matches ≡ subcommand_of show (texts words.entry.now)) }
    ensures memory { IfErr result
        (λ error. IsTakenToShow (texts words.entry.now) → kind_of error ≡ ErrorKind.OutOfMemory) }
{
    let command = show_command(alloc)?;
    command.try_get_matches_from(words)
}

fn show_command<'a>(alloc: Global) -> Result<Command<'a>, AllocError>
    ensures { IfOk result (λ command. app_of command ≡ show) }
{
    Command::new(alloc, "blink")
        .about("Runs scripts of index operations on a B-link tree")
        .subcommand_required(true)
        .subcommand(replay_or_seed_command(alloc)?)
}

// A replay whose turns may be drawn by a seed.
fn replay_or_seed_command<'a>(alloc: Global) -> Result<Command<'a>, AllocError>
    ensures app { IfOk result (λ command. app_of command ≡ replay_or_seed) }
    ensures local { IfOk result (λ command. (out-Command command).has_globals ≡ false) }
{
    replay_command(alloc)?.arg(seed_option(alloc))
}

fn seed_option<'a>(alloc: Global) -> Arg<'a>
    ensures rule { rule_of result ≡ option (codes "seed") }
    ensures local { result.global ≡ false }
{
    option(alloc, "seed", "N").help(
        "Draws a worker for each turn by this number, in the place of a schedule",
    )
}

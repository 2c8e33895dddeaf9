//! The requests of the words of `blink-show`.
ghost use Rattle.std.specs.Prelude.{◌≡◌, codes, option_map, IfOk, IfErr, IfSome, MatchOption};
ghost use Rattle.clap.specs.Walk.{texts};
ghost use Rattle.clap.specs.Words.{found_of, rows_of, subcommand_rows_of};
ghost use Rattle.blink_settings.specs.{IsAllowed};
ghost use Rattle.blink_command.specs.{IsBadValue};
ghost use Rattle.show_command.specs.Grammar.{IsTakenToShow};
ghost use Rattle.show_command.specs.Show.{as_replay, AreTurns, AsksToShow, HasTurns, Shows, SubcommandShows};

use crate::command::show_matches_of;
use blink_batch::read_number;
use blink_command::{LineError, bad_value, refusal, schedule_of, settings_of, value_of};
use blink_settings::{CutKind, Driver, Settings};
use clap::ArgMatches;
use std::alloc::{AllocError, Global};

/// The turns of a replay to show.
#[derive(Debug, PartialEq, Eq, Drop)]
pub enum Turns {
    /// The turns of this schedule: the numbers of workers, each from 0 to 63. Some may be no worker of the settings.
    Schedule(Vec<u8>),
    /// The turns of workers that this seed draws.
    Seed(u64),
}

/// Reads the words of `blink-show`, the program's name first. The words after it are read as `blink replay` reads its own, and
/// have the same defaults and the same refusals. But `--seed N` may stand in place of `--schedule S`. A seed is spelled as
/// numbers in scripts are. The call refuses both options together as it refuses a bad value.
pub fn read_show(alloc: Global, words: &[&str]) -> Result<(Settings, Turns), LineError>
    ensures asked { IfOk result
        (λ asked. AsksToShow (as_replay (texts words.now)) asked.0 asked.1) }
    ensures allowed { IfOk result (λ asked. IsAllowed asked.0.workers asked.0.fan) }
    ensures refused { IfErr result (λ error. (settings : _) (turns : _)
        → AsksToShow (as_replay (texts words.now)) settings turns → error ≡ LineError.OutOfMemory) }
    ensures bad_value { IfErr result
        (λ error. IsTakenToShow (as_replay (texts words.now)) → IsBadValue error) }
{
    let Ok(words) = as_replay(alloc, words) else {
        return Err(LineError::OutOfMemory);
    };
    let matches = match show_matches_of(alloc, words.as_slice()) {
        Ok(matches) => matches,
        Err(error) => return Err(refusal(alloc, &error)),
    };
    match asked_to_show(alloc, &matches) {
        Ok(Some(asked)) => Ok(asked),
        Ok(None) => Err(bad_value(alloc)),
        Err(_) => Err(LineError::OutOfMemory),
    }
}

// These words with `blink replay` in place of the first.
fn as_replay<'a>(alloc: Global, words: &[&'a str]) -> Result<Vec<&'a str>, AllocError>
    ensures { IfOk result (λ all. texts all.items ≡ as_replay (texts words.now)) }
{
    let mut all = Vec::new(alloc);
    all.push("blink")?;
    all.push("replay")?;
    if let Some((_, options)) = words.split_first() {
        all.extend_from_slice(options)?;
    }
    Ok(all)
}

// The request of the words of `blink-show`, if their values are allowed.
fn asked_to_show(
    alloc: Global,
    matches: &ArgMatches<'_>,
) -> Result<Option<(Settings, Turns)>, AllocError>
    ensures meant { IfOk result (λ meant. MatchOption meant
        ((settings : _) (turns : _) → ¬ SubcommandShows (subcommand_rows_of matches.now) settings turns)
        (λ asked. SubcommandShows (subcommand_rows_of matches.now) asked.0 asked.1)) }
    ensures allowed { IfOk result
        (λ meant. IfSome meant (λ asked. IsAllowed asked.0.workers asked.0.fan)) }
{
    match matches.subcommand() {
        Some((name, found)) => named_to_show(alloc, name, found),
        None => Ok(None),
    }
}

fn named_to_show(
    alloc: Global,
    name: &str,
    found: &ArgMatches<'_>,
) -> Result<Option<(Settings, Turns)>, AllocError>
    ensures meant { IfOk result (λ meant. MatchOption meant
        ((settings : _) (turns : _) → ¬ Shows name.now (rows_of (found_of found.now)) settings turns)
        (λ asked. Shows name.now (rows_of (found_of found.now)) asked.0 asked.1)) }
    ensures allowed { IfOk result
        (λ meant. IfSome meant (λ asked. IsAllowed asked.0.workers asked.0.fan)) }
{
    if name == "replay" {
        show_of(alloc, found)
    } else {
        Ok(None)
    }
}

// The turns that a replay with these options shows.
fn show_of(alloc: Global, found: &ArgMatches<'_>) -> Result<Option<(Settings, Turns)>, AllocError>
    ensures meant { IfOk result (λ meant. MatchOption meant
        ((settings : _) (turns : _) → ¬ HasTurns (rows_of (found_of found.now)) settings turns)
        (λ asked. HasTurns (rows_of (found_of found.now)) asked.0 asked.1)) }
    ensures allowed { IfOk result
        (λ meant. IfSome meant (λ asked. IsAllowed asked.0.workers asked.0.fan)) }
{
    let Some(settings) = settings_of(found, CutKind::Residue, Driver::Locked) else {
        return Ok(None);
    };
    let turns = turns_of(alloc, value_of(found, "schedule"), value_of(found, "seed"))?;
    Ok(turns.map(|turns| (settings, turns)))
}

// The turns that a schedule or a seed spells; both together spell none.
fn turns_of(
    alloc: Global,
    schedule: Option<&str>,
    seed: Option<&str>,
) -> Result<Option<Turns>, AllocError>
    ensures { IfOk result (λ found. MatchOption found
        ((turns : _) → ¬ AreTurns (option_map (λ text. text.now) schedule.entry)
        (option_map (λ text. text.now) seed.entry) turns)
        (AreTurns (option_map (λ text. text.now) schedule.entry)
        (option_map (λ text. text.now) seed.entry))) }
{
    let Some(seed) = seed else {
        let schedule = schedule_of(alloc, schedule.unwrap_or(""))?;
        return Ok(schedule.map(Turns::Schedule));
    };
    if schedule.is_some() {
        return Ok(None);
    }
    Ok(read_number(seed.as_bytes()).map(Turns::Seed))
}

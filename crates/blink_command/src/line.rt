//! The requests of the command line.
ghost use Rattle.std.specs.Prelude.{◌≡◌, codes, option_map, IfOk, IfErr, IfSome, MatchOption};
ghost use Rattle.clap.specs.Walk.{texts};
ghost use Rattle.clap.specs.Words.{found_of, kind_of, rows_of, subcommand_rows_of};
ghost use Rattle.blink_settings.specs.{IsAllowed};
ghost use Rattle.blink_command.specs.Codes.{code_of_line_error};
ghost use Rattle.blink_command.specs.Line.{Asks, AsksToRun, HasAllowedSizes, HasSizes, IsBadValue, IsTaken, Means, SubcommandMeans, value};

use crate::command::matches_of;
use crate::value::{cut_of, driver_of, fan_of, schedule_of, workers_of};
use blink_settings::{CutKind, Driver, Settings};
use clap::ArgMatches;
use clap::error::ErrorKind;
use std::alloc::{AllocError, Global};
use thiserror::Error;

/// The request of a command line.
#[derive(Debug, PartialEq, Eq, Drop)]
pub enum Line {
    /// Threads run the script on standard input.
    Run(Settings),
    /// The script on standard input is run step by step, in the order of this schedule: the numbers of workers, each from 0 to
    /// 63. Some may be no worker of the settings.
    Replay(Settings, Vec<u8>),
}

/// Why a command line asks for nothing.
#[derive(Debug, Drop, Error)]
pub enum LineError {
    /// The words are none of the program's, ask for help, or give a value that isn't allowed. The text is for the user: `clap`'s
    /// own, or `usage: bad value` if `clap` took the words.
    #[error("{0}")]
    Usage(String),
    /// Memory was refused.
    #[error("out of memory")]
    OutOfMemory,
}

impl LineError {
    /// Returns the refusal's code, the same in every release.
    pub fn code(&self) -> u8
        ensures { result ≡ code_of_line_error self.now }
    {
        match self {
            LineError::Usage(_) => 80,
            LineError::OutOfMemory => 81,
        }
    }
}

/// Reads the words of a command line, the program's name first, as `clap` reads them: `blink run [--workers N] [--fan F] [--cut
/// residue|ranges] [--driver locked|live]` or `blink replay [--workers N] [--fan F] [--schedule S]`. It returns what they ask
/// for. Numbers are spelled as in scripts. A replay cuts by remainders and takes its steps under one lock.
pub fn read_line(alloc: Global, words: &[&str]) -> Result<Line, LineError>
    ensures asked { IfOk result (Asks (texts words.now)) }
    ensures allowed { IfOk result HasAllowedSizes }
    ensures refused { IfErr result
        (λ error. (line : _) → Asks (texts words.now) line → error ≡ LineError.OutOfMemory) }
    ensures bad_value { IfErr result (λ error. IsTaken (texts words.now) → IsBadValue error) }
{
    match matches_of(alloc, words) {
        Ok(matches) => line_of(alloc, &matches),
        Err(error) => Err(refusal(alloc, &error)),
    }
}

// The request of words in which `clap` found these matches.
fn line_of(alloc: Global, matches: &ArgMatches<'_>) -> Result<Line, LineError>
    ensures asked { IfOk result (SubcommandMeans (subcommand_rows_of matches.now)) }
    ensures allowed { IfOk result HasAllowedSizes }
    ensures refused { IfErr result
        (λ error. (line : _) → SubcommandMeans (subcommand_rows_of matches.now) line
        → error ≡ LineError.OutOfMemory) }
    ensures bad_value { IfErr result IsBadValue }
{
    match line_of_matches(alloc, matches) {
        Ok(Some(line)) => Ok(line),
        Ok(None) => Err(bad_value(alloc)),
        Err(_) => Err(LineError::OutOfMemory),
    }
}

/// Returns the refusal of words that `clap` doesn't take, with its text. It is `OutOfMemory` if that is the error's kind, or if
/// memory was refused to the text.
pub fn refusal(alloc: Global, error: &clap::Error) -> LineError
    ensures { kind_of error.now ≡ ErrorKind.OutOfMemory → result ≡ LineError.OutOfMemory }
{
    if matches!(error.kind(), ErrorKind::OutOfMemory) {
        return LineError::OutOfMemory;
    }
    match format!(in alloc; "{error}") {
        Ok(text) => LineError::Usage(text),
        Err(_) => LineError::OutOfMemory,
    }
}

/// Returns the refusal of a value in words that `clap` took. It is `OutOfMemory` if memory was refused to its text.
pub fn bad_value(alloc: Global) -> LineError
    ensures { IsBadValue result }
{
    match String::from_str(alloc, "usage: bad value") {
        Ok(text) => LineError::Usage(text),
        Err(_) => LineError::OutOfMemory,
    }
}

// The request of the subcommand, if its values are allowed.
fn line_of_matches(alloc: Global, matches: &ArgMatches<'_>) -> Result<Option<Line>, AllocError>
    ensures meant { IfOk result (λ meant. MatchOption meant
        ((line : _) → ¬ SubcommandMeans (subcommand_rows_of matches.now) line)
        (SubcommandMeans (subcommand_rows_of matches.now))) }
    ensures allowed { IfOk result (λ meant. IfSome meant HasAllowedSizes) }
{
    match matches.subcommand() {
        Some((name, found)) => line_of_subcommand(alloc, name, found),
        None => Ok(None),
    }
}

fn line_of_subcommand(
    alloc: Global,
    name: &str,
    found: &ArgMatches<'_>,
) -> Result<Option<Line>, AllocError>
    ensures meant { IfOk result (λ meant. MatchOption meant
        ((line : _) → ¬ Means name.now (rows_of (found_of found.now)) line)
        (Means name.now (rows_of (found_of found.now)))) }
    ensures allowed { IfOk result (λ meant. IfSome meant HasAllowedSizes) }
{
    match name {
        "run" => Ok(run_of(found).map(Line::Run)),
        "replay" => replay_of(alloc, found),
        _ => Ok(None),
    }
}

// The settings of a run with these options.
fn run_of(found: &ArgMatches<'_>) -> Option<Settings>
    ensures meant { MatchOption result
        ((settings : _) → ¬ AsksToRun (rows_of (found_of found.now)) settings)
        (AsksToRun (rows_of (found_of found.now))) }
    ensures allowed { IfSome result (λ settings. IsAllowed settings.workers settings.fan) }
{
    let cut = cut_of(value_of(found, "cut")?)?;
    let driver = driver_of(value_of(found, "driver")?)?;
    settings_of(found, cut, driver)
}

// The request of a replay with these options.
fn replay_of(alloc: Global, found: &ArgMatches<'_>) -> Result<Option<Line>, AllocError>
    ensures meant { IfOk result (λ meant. MatchOption meant
        ((line : _) → ¬ Means (codes "replay") (rows_of (found_of found.now)) line)
        (Means (codes "replay") (rows_of (found_of found.now)))) }
    ensures allowed { IfOk result (λ meant. IfSome meant HasAllowedSizes) }
{
    let Some(settings) = settings_of(found, CutKind::Residue, Driver::Locked) else {
        return Ok(None);
    };
    let schedule = schedule_of(alloc, value_of(found, "schedule").unwrap_or(""))?;
    Ok(schedule.map(|schedule| Line::Replay(settings, schedule)))
}

/// Returns the settings with the sizes that the options spell, and with this cut and driver. It returns `None` if the options
/// spell no sizes that are allowed.
pub fn settings_of(found: &ArgMatches<'_>, cut: CutKind, driver: Driver) -> Option<Settings>
    ensures sizes { MatchOption result
        ((settings : _) → ¬ HasSizes (rows_of (found_of found.now)) settings)
        (HasSizes (rows_of (found_of found.now))) }
    ensures rest { IfSome result (λ settings. (settings.cut ≡ cut) × (settings.driver ≡ driver)) }
    ensures allowed { IfSome result (λ settings. IsAllowed settings.workers settings.fan) }
{
    let workers = workers_of(value_of(found, "workers")?)?;
    let fan = fan_of(value_of(found, "fan")?)?;
    Settings::new(workers, fan, cut, driver).ok()
}

/// Returns the value of an option, given or by default, or `None` if it has neither.
pub fn value_of<'a>(found: &ArgMatches<'a>, name: &str) -> Option<&'a str>
    ensures { option_map (λ text. text.now) result ≡ value (rows_of (found_of found.now)) name.now }
{
    found.get_str(name)
}

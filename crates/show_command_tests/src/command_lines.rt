//! What the words of a command line ask for.
mod usage;

use crate::fixtures::{given, is_shown, same_for, settings};
use blink_command::{bad_value, matches_of, refusal, schedule_of, settings_of, value_of};
use blink_run::CutKind::{Ranges, Residue};
use blink_run::Driver::{Live, Locked};
use blink_run::{CutKind, Driver, Settings};
use clap::ArgMatches;
use show_command::{Line, LineError, Turns, read_line, read_show, show_matches_of};
use std::alloc::Global;
use std::process::Abort;

// In the words of this subcommand an option has this value, given or by default.
fn finds(
    rt: &impl Abort,
    matches: &ArgMatches<'_>,
    subcommand: &str,
    option: &str,
    expected: &str,
) {
    match matches.subcommand() {
        Some((name, found)) => {
            same_for(rt, &name, &subcommand, &option);
            same_for(rt, &found.get_str(option), &Some(expected), &option);
        }
        None => panic!(rt; "no subcommand"),
    }
}

#[test]
fn options_by_the_grammar(rt: HostRuntime) {
    let words = ["blink", "run", "--fan", "32"];
    let matches = given(&rt, matches_of(rt.alloc(), &words));
    finds(&rt, &matches, "run", "fan", "32");
    finds(&rt, &matches, "run", "workers", "4");
    let words = ["blink", "replay", "--seed", "7"];
    let matches = given(&rt, show_matches_of(rt.alloc(), &words));
    finds(&rt, &matches, "replay", "seed", "7");
}

// What the words of both programs are read by.
#[test]
fn parts_of_requests(rt: HostRuntime) {
    let alloc = rt.alloc();
    let words = ["blink", "replay", "--fan", "32", "--schedule", "0,63"];
    let matches = given(&rt, matches_of(alloc, &words));
    let Some((_, found)) = matches.subcommand() else {
        panic!(&rt; "no subcommand")
    };
    same_for(&rt, &value_of(found, "workers"), &Some("4"), &"workers");
    same_for(&rt, &value_of(found, "seed"), &None, &"seed");
    let expected = settings(&rt, (4, 32), Residue, Locked);
    let sizes = settings_of(found, Residue, Locked);
    same_for(&rt, &sizes, &Some(expected), &"sizes");
    match given(&rt, schedule_of(alloc, "0,63")) {
        Some(turns) => same_for(&rt, &turns.as_slice(), &[0, 63].as_slice(), &"schedule"),
        None => panic!(&rt; "no schedule"),
    }
    is_shown(&rt, alloc, &bad_value(alloc), "usage: bad value", &"value");
    match matches_of(alloc, &["blink"]) {
        Ok(_) => panic!(&rt; "taken"),
        Err(error) => is_shown(
            &rt,
            alloc,
            &refusal(alloc, &error),
            usage::NO_SUBCOMMAND,
            &"words",
        ),
    }
}

// The words of a line, which single spaces separate: between two spaces, and behind one at the end, there is an empty word.
fn words_of<'a>(rt: &impl Abort, alloc: Global, line: &'a str) -> Vec<&'a str> {
    given(rt, line.split(' ').collect(alloc))
}

// What the words of this line ask `blink` for.
fn asked(rt: &impl Abort, alloc: Global, line: &str) -> Result<Line, LineError> {
    read_line(alloc, words_of(rt, alloc, line).as_slice())
}

// What the words of this line ask `blink-show` for.
fn asked_to_show(
    rt: &impl Abort,
    alloc: Global,
    line: &str,
) -> Result<(Settings, Turns), LineError> {
    read_show(alloc, words_of(rt, alloc, line).as_slice())
}

// The words of this line ask `blink` for this.
fn asks(rt: &impl Abort, alloc: Global, line: &str, expected: &Line) {
    same_for(rt, &given(rt, asked(rt, alloc, line)), expected, &line);
}

// The words of this line ask `blink-show` for these turns of a replay with these sizes.
fn asks_to_show(rt: &impl Abort, alloc: Global, line: &str, sizes: (u8, u8), turns: Turns) {
    let settings = settings(rt, sizes, Residue, Locked);
    let shown = given(rt, asked_to_show(rt, alloc, line));
    same_for(rt, &shown, &(settings, turns), &line);
}

// Words, and the workers and fan, the cut and the driver of the run that they ask for.
const RUNS: [(&str, (u8, u8), CutKind, Driver); 11] = [
    ("blink run", (4, 16), Residue, Locked),
    ("blink run --workers 1", (1, 16), Residue, Locked),
    ("blink run --workers 64", (64, 16), Residue, Locked),
    ("blink run --fan 4", (4, 4), Residue, Locked),
    ("blink run --fan 32", (4, 32), Residue, Locked),
    ("blink run --cut residue", (4, 16), Residue, Locked),
    ("blink run --cut ranges", (4, 16), Ranges, Locked),
    ("blink run --driver locked", (4, 16), Residue, Locked),
    ("blink run --driver live", (4, 16), Residue, Live),
    (
        "blink run --cut=ranges --fan=5 --driver=locked --workers=10",
        (10, 5),
        Ranges,
        Locked,
    ),
    (
        "blink run --cut=ranges --fan=5 --driver=live --workers=10",
        (10, 5),
        Ranges,
        Live,
    ),
];

#[test]
fn runs(rt: HostRuntime) {
    for &(line, sizes, cut, driver) in &RUNS {
        let expected = Line::Run(settings(&rt, sizes, cut, driver));
        asks(&rt, rt.alloc(), line, &expected);
    }
}

// Words, and the workers and fan, and the schedule of the replay that they ask for.
const REPLAYS: [(&str, (u8, u8), &[u8]); 6] = [
    ("blink replay", (4, 16), &[]),
    ("blink replay --workers 2 --schedule  --fan 4", (2, 4), &[]),
    (
        "blink replay --workers 2 --schedule 0 --fan 4",
        (2, 4),
        &[0],
    ),
    (
        "blink replay --workers 2 --schedule 63 --fan 4",
        (2, 4),
        &[63],
    ),
    (
        "blink replay --workers 2 --schedule 1,0 --fan 4",
        (2, 4),
        &[1, 0],
    ),
    (
        "blink replay --workers 2 --schedule 0,1,0,1,1,10,63 --fan 4",
        (2, 4),
        &[0, 1, 0, 1, 1, 10, 63],
    ),
];

// The same of `blink-show`.
const SHOWS: [(&str, (u8, u8), &[u8]); 2] = [
    (
        "blink-show --schedule 1,0 --workers 2 --fan 4",
        (2, 4),
        &[1, 0],
    ),
    ("blink-show", (4, 16), &[]),
];

#[test]
fn schedules(rt: HostRuntime) {
    let alloc = rt.alloc();
    for &(line, sizes, schedule) in &REPLAYS {
        let settings = settings(&rt, sizes, Residue, Locked);
        let expected = Line::Replay(settings, given(&rt, schedule.to_vec(alloc)));
        asks(&rt, alloc, line, &expected);
    }
    for &(line, sizes, schedule) in &SHOWS {
        let turns = Turns::Schedule(given(&rt, schedule.to_vec(alloc)));
        asks_to_show(&rt, alloc, line, sizes, turns);
    }
}

// Words that name a seed, with it.
const SEEDS: [(&str, u64); 3] = [
    ("blink-show --seed 0 --workers 2", 0),
    ("blink-show --seed 1234567 --workers 2", 1234567),
    (
        "blink-show --seed 18446744073709551615 --workers 2",
        u64::MAX,
    ),
];

#[test]
fn seeds(rt: HostRuntime) {
    for &(line, seed) in &SEEDS {
        asks_to_show(&rt, rt.alloc(), line, (2, 16), Turns::Seed(seed));
    }
}

// The words aren't taken.
fn asks_nothing<T: Drop>(rt: &impl Abort, answer: Result<T, LineError>) {
    assert!(rt; answer.is_err());
}

// Words that `blink-show` doesn't take.
const NO_SHOWS: [&str; 3] = [
    "blink-show replay",
    "blink-show --driver live",
    "blink replay --seed 1",
];

#[test]
fn words_that_blink_show_refuses(rt: HostRuntime) {
    for line in NO_SHOWS {
        asks_nothing(&rt, asked_to_show(&rt, rt.alloc(), line));
    }
    asks_nothing(&rt, asked(&rt, rt.alloc(), "blink replay --seed 1"));
}

// Why words ask for nothing.
fn refused<T: Drop>(rt: &impl Abort, answer: Result<T, LineError>) -> LineError {
    answer.err().expect(rt, "the words were taken")
}

// The words are refused with this text.
fn is_refused<T: Drop>(
    rt: &impl Abort,
    alloc: Global,
    answer: Result<T, LineError>,
    text: &str,
    words: &[&str],
) {
    is_shown(rt, alloc, &refused(rt, answer), text, &words);
}

// A seed is spelled as numbers in scripts are, and takes the place of a schedule.
const BAD_SEEDS: [&str; 7] = [
    "blink-show --seed ",
    "blink-show --seed 01",
    "blink-show --seed +1",
    "blink-show --seed 1,0",
    "blink-show --seed 18446744073709551616",
    "blink-show --seed 1 --schedule 1,0",
    "blink-show --schedule  --seed 1",
];

// The values of an option of a subcommand that are refused as bad ones.
const BAD_VALUES: [(&str, &str, &[&str]); 7] = [
    (
        "run",
        "--workers",
        &[
            "0",
            "65",
            "05",
            "260",
            "18446744073709551620",
            "+4",
            " 4",
            "4.0",
            "",
            "x",
        ],
    ),
    ("run", "--fan", &["0", "3", "33", "04", "260", ""]),
    (
        "run",
        "--cut",
        &["x", "Residue", "range", "residue|ranges", "0", ""],
    ),
    (
        "run",
        "--driver",
        &["x", "Live", "Locked", "lock", "locked|live", "0", ""],
    ),
    ("replay", "--workers", &["0", "65", "05", ""]),
    ("replay", "--fan", &["3", "33", "04", ""]),
    (
        "replay",
        "--schedule",
        &[
            ",", "1,", ",1", "1,,2", " 1", "1, 2", "64", "0,64", "01", "256", "1;2", "x",
        ],
    ),
];

#[test]
fn bad_values(rt: HostRuntime) {
    let alloc = rt.alloc();
    for line in BAD_SEEDS {
        let answer = asked_to_show(&rt, alloc, line);
        is_refused(&rt, alloc, answer, "usage: bad value", &[line]);
    }
    for &(subcommand, option, values) in &BAD_VALUES {
        for value in values {
            let words = ["blink", subcommand, option, value];
            let answer = read_line(alloc, &words);
            is_refused(&rt, alloc, answer, "usage: bad value", &words);
        }
    }
}

#[test]
fn numbers_of_the_refusals(rt: HostRuntime) {
    let error = refused(&rt, asked(&rt, rt.alloc(), "blink"));
    same_for(&rt, &error.code(), &80, &"blink");
    same_for(&rt, &LineError::OutOfMemory.code(), &81, &"memory");
}

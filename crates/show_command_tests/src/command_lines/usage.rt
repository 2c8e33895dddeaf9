//! The texts of `clap` where it doesn't take the words, its help among them.
use crate::command_lines::{asked, asked_to_show, is_refused};

pub(super) const NO_SUBCOMMAND: &str =
    "error: 'blink' requires a subcommand but one was not provided
  [subcommands: run, replay, help]

Usage: blink <COMMAND>

For more information, try '--help'.
";

const HELP: &str = "Runs scripts of index operations on a B-link tree

Usage: blink <COMMAND>

Commands:
  run     Runs the script on standard input by threads and prints its answers
  replay  Runs the script on standard input turn by turn, as a schedule says
  help    Print this message or the help of the given subcommand(s)

Options:
  -h, --help  Print help
";

const HELP_OF_RUN: &str = "Runs the script on standard input by threads and prints its answers

Usage: blink run [OPTIONS]

Options:
      --workers <N>           How many workers share the work, 1 to 64 [default: 4]
      --fan <F>               How many entries a page has at most, 4 to 32 [default: 16]
      --cut <residue|ranges>  How keys go to workers: by their remainders (residue) or by equal ranges (ranges) [default: residue]
      --driver <locked|live>  How workers share the tree: each step under one lock (locked) or without one (live) [default: locked]
  -h, --help                  Print help
";

const HELP_OF_REPLAY: &str = "Runs the script on standard input turn by turn, as a schedule says

Usage: blink replay [OPTIONS]

Options:
      --workers <N>   How many workers share the work, 1 to 64 [default: 4]
      --fan <F>       How many entries a page has at most, 4 to 32 [default: 16]
      --schedule <S>  Which worker takes each turn: numbers from 0 to 63, separated by single commas [default: none]
  -h, --help          Print help
";

const HELP_OF_SHOW: &str = "Runs the script on standard input turn by turn, as a schedule says

Usage: blink replay [OPTIONS]

Options:
      --workers <N>   How many workers share the work, 1 to 64 [default: 4]
      --fan <F>       How many entries a page has at most, 4 to 32 [default: 16]
      --schedule <S>  Which worker takes each turn: numbers from 0 to 63, separated by single commas [default: none]
      --seed <N>      Draws a worker for each turn by this number, in the place of a schedule
  -h, --help          Print help
";

const SIMILAR: &str = "error: unexpected argument '--worker' found

  tip: a similar argument exists: '--workers'

Usage: blink run --workers <N>

For more information, try '--help'.
";

const TWICE: &str = "error: the argument '--workers <N>' cannot be used multiple times

Usage: blink run [OPTIONS]

For more information, try '--help'.
";

// Words of `blink`, and the text of their refusal.
const REFUSALS: [(&str, &str); 12] = [
    ("blink", NO_SUBCOMMAND),
    (
        "blink dump",
        "error: unrecognized subcommand 'dump'\n\nUsage: blink <COMMAND>\n\nFor more information, try '--help'.\n",
    ),
    (
        "blink run surplus",
        "error: unexpected argument 'surplus' found\n\nUsage: blink run [OPTIONS]\n\nFor more information, try '--help'.\n",
    ),
    (
        "blink run --schedule",
        "error: unexpected argument '--schedule' found\n\nUsage: blink run [OPTIONS]\n\nFor more information, try '--help'.\n",
    ),
    ("blink run --worker", SIMILAR),
    (
        "blink replay --cut",
        "error: unexpected argument '--cut' found\n\nUsage: blink replay [OPTIONS]\n\nFor more information, try '--help'.\n",
    ),
    (
        "blink replay --driver",
        "error: unexpected argument '--driver' found\n\nUsage: blink replay [OPTIONS]\n\nFor more information, try '--help'.\n",
    ),
    (
        "blink run --workers",
        "error: a value is required for '--workers <N>' but none was supplied\n\nFor more information, try '--help'.\n",
    ),
    ("blink run --workers 1 --workers 2", TWICE),
    ("blink --help", HELP),
    ("blink run --help", HELP_OF_RUN),
    ("blink replay --help", HELP_OF_REPLAY),
];

#[test]
fn words_that_clap_refuses(rt: HostRuntime) {
    let alloc = rt.alloc();
    for &(line, text) in &REFUSALS {
        is_refused(&rt, alloc, asked(&rt, alloc, line), text, &[line]);
    }
}

#[test]
fn help_of_blink_show(rt: HostRuntime) {
    let alloc = rt.alloc();
    let line = "blink-show --help";
    let answer = asked_to_show(&rt, alloc, line);
    is_refused(&rt, alloc, answer, HELP_OF_SHOW, &[line]);
}

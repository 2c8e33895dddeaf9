//! Texts of replays that are to be looked at, worked by hand from the machine's table of states.
use crate::fixtures::{same_for, settings};
use blink_batch::{RecordError, ScriptError};
use blink_run::{CutKind, Driver, ServeError};
use blink_show::{Template, serve_seed, serve_show};
use blink_steps::StepError;
use std::alloc::Global;
use std::process::Abort;

// What is written of a replay, how it ended, and how many bytes of the script it left unread.
#[derive(Drop)]
struct Shown {
    output: Vec<u8>,
    end: Result<(), ServeError>,
    unread: usize,
}

impl Shown {
    // All of the script was read and shown, in this text.
    fn is_text(&self, rt: &impl Abort, expected: &str) {
        same_for(rt, &self.end, &Ok(()), &expected);
        same_for(rt, &self.output.as_slice(), &expected.as_bytes(), &expected);
        same_for(rt, &self.unread, &0, &expected);
    }

    // Nothing is shown, for this reason.
    fn is_refusal(&self, rt: &impl Abort, error: ServeError) {
        same_for(rt, &self.end, &Err(error), &error);
        same_for(rt, &self.output.len(), &0, &error);
    }
}

// What each replay is written between.
const BRACKETS: Template<'static> = Template {
    head: "<\n",
    tail: ">\n",
};

// What is written of a script's replay between `<` and `>`.
fn replayed(rt: &impl Abort, alloc: Global, script: &str, workers: u8, schedule: &[u8]) -> Shown {
    let settings = settings(rt, (workers, 4), CutKind::Residue, Driver::Locked);
    let mut text = script.as_bytes();
    let mut output = Vec::new(alloc);
    let end = serve_show(alloc, &mut text, &mut output, &settings, schedule, BRACKETS);
    Shown {
        output,
        end,
        unread: text.len(),
    }
}

// What is written of a script's replay by turns that are drawn, between `<` and `>`.
fn drawn(rt: &impl Abort, alloc: Global, script: &str, workers: u8, seed: u64) -> Shown {
    let settings = settings(rt, (workers, 4), CutKind::Residue, Driver::Locked);
    let mut text = script.as_bytes();
    let mut output = Vec::new(alloc);
    let end = serve_seed(alloc, &mut text, &mut output, &settings, seed, BRACKETS);
    Shown {
        output,
        end,
        unread: text.len(),
    }
}

// A worker finds a key that a split, half finished by the other, has moved to a new page: all tree states, byte for byte.
const HALF_A_SPLIT: &str = "<
workers 2
fan 4
op 0 0 insert 6 60
op 1 1 find 5
first
prime 1
worker 0 -
worker 1 -
page 1 - 0 - 18446744073709551615 - 1:10 2:20 3:30 5:50
turn 1 P
worker 1 1 - - going down, page 1
turn 0 P
worker 0 0 - - going down, page 1
turn 0 R1
worker 0 0 - - wants 1
turn 0 L1
worker 0 0 - - holds 1
page 1 0 0 - 18446744073709551615 - 1:10 2:20 3:30 5:50
turn 0 R1
worker 0 0 - - new page of a split, holds 1
turn 0 W2
worker 0 0 - - old page of a split, holds 1
page 2 - 0 3 18446744073709551615 - 5:50 6:60
turn 0 W1
worker 0 0 - - asks the prime block, holds 1
page 1 0 0 - 3 2 1:10 2:20 3:30
decided 0 inserted
turn 1 R1
worker 1 1 - - going down, page 2
turn 1 R2
worker 1 -
decided 1 found 50
finish 0 P
worker 0 0 - - new root, holds 1
finish 0 W3
worker 0 0 - - names the root, holds 1
page 3 - 1 - 18446744073709551615 - 3:1 18446744073709551615:2
finish 0 Q
prime 1 3
worker 0 0 - - leaves 1 and ends
finish 0 U1
worker 0 -
page 1 - 0 - 3 2 1:10 2:20 3:30
>
";

// A split is posted to the page that was remembered; a wait and an idle turn change nothing; the answers of each kind.
const A_POSTING: &str = "<
workers 3
fan 4
op 0 0 insert 9 9
op 1 1 delete 7
op 2 1 replace 1 5
first
prime 1 3
worker 0 -
worker 1 -
worker 2 -
page 1 - 0 - 3 2 1:1 2:2 3:3
page 2 - 0 3 18446744073709551615 - 4:4 5:5 6:6 7:7
page 3 - 1 - 18446744073709551615 - 3:1 18446744073709551615:2
turn 0 P
worker 0 0 - - going down, page 3
turn 0 R3
worker 0 0 3 - going down, page 2
turn 0 R2
worker 0 0 3 - wants 2
turn 0 L2
worker 0 0 3 - holds 2
page 2 0 0 3 18446744073709551615 - 4:4 5:5 6:6 7:7
turn 1 P
worker 1 1 - - going down, page 3
turn 1 R3
worker 1 1 3 - going down, page 2
turn 1 R2
worker 1 1 3 - wants 2
turn 1 wait
turn 2 idle
turn 0 R2
worker 0 0 3 - new page of a split, holds 2
turn 0 W4
worker 0 0 3 - old page of a split, holds 2
page 4 - 0 6 18446744073709551615 - 7:7 9:9
turn 0 W2
worker 0 0 3 - asks the prime block, holds 2
page 2 0 0 3 6 4 4:4 5:5 6:6
decided 0 inserted
turn 0 P
worker 0 0 3 - leaves 2 to post
turn 0 U2
worker 0 0 - 0:6:4 wants 3
page 2 - 0 3 6 4 4:4 5:5 6:6
turn 0 L3
worker 0 0 - 0:6:4 holds 3
page 3 0 1 - 18446744073709551615 - 3:1 18446744073709551615:2
turn 0 R3
worker 0 0 - 0:6:4 change, holds 3
turn 0 W3
worker 0 0 - 0:6:4 leaves 3 and ends
page 3 0 1 - 18446744073709551615 - 3:1 6:2 18446744073709551615:4
turn 0 U3
worker 0 -
page 3 - 1 - 18446744073709551615 - 3:1 6:2 18446744073709551615:4
finish 1 L2
worker 1 1 3 - holds 2
page 2 1 0 3 6 4 4:4 5:5 6:6
finish 1 R2
worker 1 1 3 - leaves 2 for 4
finish 1 U2
worker 1 1 3 - wants 4
page 2 - 0 3 6 4 4:4 5:5 6:6
finish 1 L4
worker 1 1 3 - holds 4
page 4 1 0 6 18446744073709551615 - 7:7 9:9
finish 1 R4
worker 1 1 3 - change, holds 4
finish 1 W4
worker 1 1 3 - leaves 4 and ends
page 4 1 0 6 18446744073709551615 - 9:9
decided 1 removed 7
finish 1 U4
worker 1 -
page 4 - 0 6 18446744073709551615 - 9:9
finish 1 P
worker 1 2 - - going down, page 3
finish 1 R3
worker 1 2 3 - going down, page 1
finish 1 R1
worker 1 2 3 - wants 1
finish 1 L1
worker 1 2 3 - holds 1
page 1 1 0 - 3 2 1:1 2:2 3:3
finish 1 R1
worker 1 2 3 - change, holds 1
finish 1 W1
worker 1 2 3 - leaves 1 and ends
page 1 1 0 - 3 2 1:5 2:2 3:3
decided 2 replaced 1
finish 1 U1
worker 1 -
page 1 - 0 - 3 2 1:5 2:2 3:3
>
";

// Scripts, the workers and the schedule of their replay, and what is shown. Without operations there is no frame.
const REPLAYS: [(&str, u8, &[u8], &str); 5] = [
    (
        "insert,1,10\ninsert,2,20\ninsert,3,30\ninsert,5,50\nscan,1,0\ninsert,6,60\nfind,5,\nscan,0,9\n",
        2,
        &[1, 0, 0, 0, 0, 0, 0, 1, 1],
        HALF_A_SPLIT,
    ),
    (
        "insert,1,1\ninsert,2,2\ninsert,3,3\ninsert,4,4\nscan,1,0\ninsert,5,5\ninsert,6,6\ninsert,7,7\npage,0,1\n\
insert,9,9\ndelete,7,\nreplace,1,5\n",
        3,
        &[0, 0, 0, 0, 1, 1, 1, 1, 2, 0, 0, 0, 0, 0, 0, 0, 0, 0],
        A_POSTING,
    ),
    ("", 3, &[2, 0], "<\nworkers 3\nfan 4\n>\n"),
    ("scan,0,9\n", 3, &[2, 0], "<\nworkers 3\nfan 4\n>\n"),
    (
        "page,0,1\nscan,1,0\n",
        3,
        &[2, 0],
        "<\nworkers 3\nfan 4\n>\n",
    ),
];

#[test]
fn replays_by_a_schedule(rt: HostRuntime) {
    for &(script, workers, schedule, text) in &REPLAYS {
        replayed(&rt, rt.alloc(), script, workers, schedule).is_text(&rt, text);
    }
}

// A number that is no worker's is refused before anything is read.
#[test]
fn replays_that_are_refused(rt: HostRuntime) {
    let outcome = replayed(&rt, rt.alloc(), "find,1,\n", 3, &[2, 3, 4]);
    outcome.is_refusal(&rt, ServeError::Step(StepError::NoWorker(3)));
    same_for(&rt, &outcome.unread, &8, &"unread");
    let row = ScriptError::Row(2, RecordError::BadNumber);
    let outcome = replayed(&rt, rt.alloc(), "find,1,\nfind,x,\n", 3, &[2]);
    outcome.is_refusal(&rt, ServeError::Script(row));
}

// The first words of SplitMix64 from 1234567, as they are published: 6457827717110365317, 3203168211198807973, 9817491932198370423,
// 4593380528125082431 and 16408922859458223821. Three workers would move for the first three, which leave 0, 1 and 0. Then worker 0 is
// at its lane's end, and the next two leave 1 of two, worker 2. For the sixth only worker 1 is left.
const THREE_FINDS: &str = "<
workers 3
fan 4
op 0 0 find 3
op 1 1 find 4
op 2 2 find 5
first
prime 1
worker 0 -
worker 1 -
worker 2 -
page 1 - 0 - 18446744073709551615 -
turn 0 P
worker 0 0 - - going down, page 1
turn 1 P
worker 1 1 - - going down, page 1
turn 0 R1
worker 0 -
decided 0 absent
turn 2 P
worker 2 2 - - going down, page 1
turn 2 R1
worker 2 -
decided 2 absent
turn 1 R1
worker 1 -
decided 1 absent
>
";

// The first words from 0 are odd, even, odd, even, odd: 16294208416658607535, 7960286522194355700, 487617019471545679,
// 17909611376780542444 and 1961750202426094747. Then worker 0 waits for the latch, and isn't drawn until worker 1 has let it go.
const A_WAITING_WORKER: &str = "<
workers 2
fan 4
op 0 1 insert 5 50
op 1 0 insert 6 60
first
prime 1
worker 0 -
worker 1 -
page 1 - 0 - 18446744073709551615 -
turn 1 P
worker 1 0 - - going down, page 1
turn 0 P
worker 0 1 - - going down, page 1
turn 1 R1
worker 1 0 - - wants 1
turn 0 R1
worker 0 1 - - wants 1
turn 1 L1
worker 1 0 - - holds 1
page 1 1 0 - 18446744073709551615 -
turn 1 R1
worker 1 0 - - change, holds 1
turn 1 W1
worker 1 0 - - leaves 1 and ends
page 1 1 0 - 18446744073709551615 - 5:50
decided 0 inserted
turn 1 U1
worker 1 -
page 1 - 0 - 18446744073709551615 - 5:50
turn 0 L1
worker 0 1 - - holds 1
page 1 0 0 - 18446744073709551615 - 5:50
turn 0 R1
worker 0 1 - - change, holds 1
turn 0 W1
worker 0 1 - - leaves 1 and ends
page 1 0 0 - 18446744073709551615 - 5:50 6:60
decided 1 inserted
turn 0 U1
worker 0 -
page 1 - 0 - 18446744073709551615 - 5:50 6:60
>
";

// Scripts, the workers and the seed of their replay, and what is shown.
const DRAWS: [(&str, u8, u64, &str); 3] = [
    ("find,3,\nfind,4,\nfind,5,\n", 3, 1234567, THREE_FINDS),
    ("insert,5,50\ninsert,6,60\n", 2, 0, A_WAITING_WORKER),
    ("scan,0,9\n", 3, 7, "<\nworkers 3\nfan 4\n>\n"),
];

#[test]
fn replays_by_a_seed(rt: HostRuntime) {
    for &(script, workers, seed, text) in &DRAWS {
        drawn(&rt, rt.alloc(), script, workers, seed).is_text(&rt, text);
    }
}

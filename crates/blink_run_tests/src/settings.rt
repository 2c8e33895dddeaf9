//! The limits of settings, and the worker that each operation of a batch falls to.
use crate::batches::{OF_A_TABLE, OF_STEPS, expect_pages};
use crate::calls::{locked, serve_from};
use crate::fixtures::{given, same, same_for};
use crate::row::Row;
use blink_run::{CutKind, Driver, Gate, Open, ServeError, Settings, SettingsError, serve_index};
use std::alloc::Global;
use std::process::Abort;
use std::sync::Wait;
use std::sync::atomic::{AtomicU64, Ordering};
use std::thread::Threads;

// Settings return what they were made of.
fn expect_settings(rt: &impl Abort, workers: u8, fan: u8) {
    let settings = locked(rt, workers, fan, CutKind::Ranges);
    same(rt, &settings.workers(), &workers);
    same(rt, &settings.fan(), &fan);
    same(rt, &settings.cut(), &CutKind::Ranges);
    same(rt, &settings.driver(), &Driver::Locked);
}

fn expect_refused(rt: &impl Abort, workers: u8, fan: u8, refusal: SettingsError, code: u8) {
    let refused = Settings::new(workers, fan, CutKind::Residue, Driver::Locked);
    same(rt, &refused, &Err(refusal));
    same(rt, &refusal.code(), &code);
}

#[test]
fn settings_have_limits(rt: HostRuntime) {
    for (workers, fan) in [(1, 4), (4, 32), (64, 4)] {
        expect_settings(&rt, workers, fan);
    }
    for (workers, fan, refusal, code) in [
        (0, 16, SettingsError::BadWorkers, 2),
        (65, 3, SettingsError::BadWorkers, 2),
        (64, 3, SettingsError::BadFan, 40),
        (1, 33, SettingsError::BadFan, 40),
    ] {
        expect_refused(&rt, workers, fan, refusal, code);
    }
}

// Counts the operations that are begun by the workers that are expected, in the order of the batch.
#[derive(Drop)]
struct LaneGate<'a> {
    lanes: &'a [u8],
    as_expected: AtomicU64,
}

impl Gate for LaneGate<'_> {
    fn before(&self, worker: u8, op: u32) {
        if self.lanes.get(op as usize) == Some(&worker) {
            self.as_expected.fetch_add(1, Ordering::SeqCst);
        }
    }

    fn after(&self, _worker: u8, _op: u32) {}
}

fn serve_through<R: Threads + Wait + Sync>(
    rt: &R,
    alloc: Global,
    settings: &Settings,
    script: &str,
    gate: &LaneGate<'_>,
) -> Result<(), ServeError> {
    let mut output = Vec::new(alloc);
    serve_from(
        rt,
        alloc,
        &mut script.as_bytes(),
        &mut output,
        settings,
        gate,
    )
}

// Three workers serve a script of one batch, and these are the workers of its operations.
fn expect_lanes<R: Threads + Wait + Abort + Sync>(
    rt: &R,
    alloc: Global,
    cut: CutKind,
    script: &str,
    lanes: &[u8],
) {
    let gate = LaneGate {
        lanes,
        as_expected: AtomicU64::new(0),
    };
    let end = serve_through(rt, alloc, &locked(rt, 3, 4, cut), script, &gate);
    same_for(rt, &end, &Ok(()), &cut);
    let as_expected = gate.as_expected.load(Ordering::SeqCst);
    same_for(rt, &as_expected, &(lanes.len() as u64), &cut);
}

// A third of the greatest key is 6148914691236517205.
const SIX_FINDS: &str = "find,0,
find,6148914691236517205,
find,6148914691236517206,
find,12297829382473034410,
find,12297829382473034411,
find,18446744073709551615,
";

// Cuts, scripts, and the workers of their operations.
const LANES: [(&str, CutKind, &str, &[u8]); 2] = [
    (
        "ranges are of equal width",
        CutKind::Ranges,
        SIX_FINDS,
        &[0, 0, 1, 1, 2, 2],
    ),
    (
        "a key falls to the worker of its remainder",
        CutKind::Residue,
        "find,5,\nfind,5,\n",
        &[2, 2],
    ),
];

#[test]
fn operations_fall_to_workers(rt: HostRuntime) {
    for &(name, cut, script, lanes) in &LANES {
        expect_lanes(&Row { rt: &rt, name }, rt.alloc(), cut, script, lanes);
    }
}

// Keys 1 to 14 in order, by two batches and two parts between them that change nothing.
const FOURTEEN: &str = "insert,1,10
insert,2,20
insert,3,30
insert,4,40
insert,5,50
insert,6,60
scan,9,1
page,9,1
insert,7,70
insert,8,80
insert,9,90
insert,10,100
insert,11,110
insert,12,120
insert,13,130
insert,14,140
";

// One worker's pages of these keys, by a driver.
fn expect_index<R: Threads + Wait + Abort + Sync>(
    rt: &R,
    alloc: Global,
    driver: Driver,
    pages: &str,
) {
    let settings = given(rt, Settings::new(1, 4, CutKind::Residue, driver));
    let mut script = FOURTEEN.as_bytes();
    let mut output = Vec::new(alloc);
    let index = serve_index(rt, alloc, &mut script, &mut output, &settings, &Open);
    expect_pages(rt, alloc, driver, &given(rt, index), pages)
}

// The first batch of a table numbers the root 3, as steps do; the second numbers all leaves before it.
#[test]
fn the_index_of_a_script_shows_its_driver(rt: HostRuntime) {
    expect_index(&rt, rt.alloc(), Driver::Locked, OF_STEPS);
    expect_index(&rt, rt.alloc(), Driver::Live, OF_A_TABLE)
}

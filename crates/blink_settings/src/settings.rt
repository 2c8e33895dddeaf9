//! The settings that a script is run by.
ghost use Rattle.std.specs.Prelude.{◌≡◌, ◌+◌, ◌<◌, ◌↔◌, IfOk, IfErr, IsOkUnless, IsErrOf, IsOk, length};
ghost use Rattle.blink_batch.specs.{IsLawfulCut, MayWork, lanes_by_ranges};
ghost use Rattle.blink_page.specs.{IsBadFan};
ghost use Rattle.blink_settings.specs.Codes.{code_of_settings_error};
ghost use Rattle.blink_settings.specs.Settings.{IsAllowed, even_bounds, lanes_by, lanes_by_residue};

use blink_batch::{Batch, Cut, WORKER_LIMIT};
use blink_page::{MAX_FAN, MIN_FAN};
use std::alloc::{AllocError, Global};
use std::marker::Model;
use thiserror::Error;

/// How each batch of a script is cut among workers.
#[derive(Clone, Copy, Debug, PartialEq, Eq)]
pub enum CutKind {
    /// By the remainders of the keys: a key's worker is `key % workers`.
    Residue,
    /// By ranges of keys. The greatest key of range i, counted from 1, is `i * (MAX / workers)`, where MAX is the greatest key.
    /// The last range goes up to MAX.
    Ranges,
}

/// How the workers share the tree.
#[derive(Clone, Copy, Debug, PartialEq, Eq)]
pub enum Driver {
    /// Workers take each step under one lock.
    Locked,
    /// Workers share one table of atomic words without a global lock. The table has 26 KB for each insertion. While it is
    /// opened, before the threads begin, it takes twice as much.
    Live,
}

/// Why settings are refused.
#[derive(Clone, Copy, Debug, PartialEq, Eq, Error)]
pub enum SettingsError {
    /// The number of workers isn't 1 to 64.
    #[error("bad number of workers")]
    BadWorkers,
    /// The number of entries that a page may have isn't from 4 to 32.
    #[error("bad fan")]
    BadFan,
}

impl SettingsError {
    /// Returns the refusal's code, the same in every release.
    pub fn code(&self) -> u8
        ensures { result ≡ code_of_settings_error self.now }
    {
        match self {
            SettingsError::BadWorkers => 2,
            SettingsError::BadFan => 40,
        }
    }
}

/// The settings of a script's run: the number of workers, the greatest number of entries in a page, how batches are cut, and how
/// the workers share the tree.
#[derive(Clone, Copy, Debug, PartialEq, Eq)]
pub struct Settings {
    workers: u8,
    fan: u8,
    cut: CutKind,
    driver: Driver,
}

impl Model for Settings {
    ghost use Rattle.blink_settings.specs.Settings.{PlainSettings, IsAllowed};

    ghost Value = { PlainSettings };

    ghost view = { λ s. record { workers = s.workers; fan = s.fan; cut = s.cut; driver = s.driver } };

    ghost invariant = { λ s. IsAllowed s.workers s.fan };

    ghost inverse = { λ p. record { workers = p.workers; fan = p.fan; cut = p.cut; driver = p.driver } };
}

impl Settings {
    /// Makes the settings for 1 to 64 workers and a new index whose pages have at most `fan` entries, 4 to 32. The call takes no
    /// memory. It refuses with `BadWorkers` first, and then with `BadFan`.
    pub fn new(
        workers: u8,
        fan: u8,
        cut: CutKind,
        driver: Driver,
    ) -> Result<Settings, SettingsError>
        ensures settings { IfOk result (λ s.
            s ≡ record { workers = workers; fan = fan; cut = cut; driver = driver }) }
        ensures taken { IsOk result ↔ IsAllowed workers fan }
        ensures bad_workers { IsErrOf result SettingsError.BadWorkers ↔ ¬ MayWork workers }
        ensures bad_fan { IsErrOf result SettingsError.BadFan ↔ (MayWork workers × IsBadFan fan) }
    {
        if workers == 0 || workers > WORKER_LIMIT {
            return Err(SettingsError::BadWorkers);
        }
        if fan < MIN_FAN || usize::from(fan) > MAX_FAN {
            return Err(SettingsError::BadFan);
        }
        Ok(Settings {
            workers,
            fan,
            cut,
            driver,
        })
    }

    /// Returns the number of workers.
    pub fn workers(&self) -> u8
        ensures workers { result ≡ self.now.workers }
        ensures allowed { MayWork self.now.workers }
    {
        self.workers
    }

    /// Returns the greatest number of entries in a page of the new index.
    pub fn fan(&self) -> u8
        ensures fan { result ≡ self.now.fan }
        ensures allowed { ¬ IsBadFan self.now.fan }
    {
        self.fan
    }

    /// Returns how the workers share the tree.
    pub fn driver(&self) -> Driver
        ensures { result ≡ self.now.driver }
    {
        self.driver
    }

    /// Returns how batches are cut among the workers.
    pub fn cut(&self) -> CutKind
        ensures { result ≡ self.now.cut }
    {
        self.cut
    }

    /// Cuts a batch among the workers. An error is a refusal of memory.
    pub fn cut_batch(&self, alloc: Global, batch: &Batch) -> Result<Cut, AllocError>
        ensures workers { IfOk result (λ cut. cut.workers ≡ self.now.workers) }
        ensures lanes { IfOk result
            (λ cut. cut.lanes ≡ lanes_by self.now.cut self.now.workers batch.now) }
        ensures lawful { IfOk result (λ cut. IsLawfulCut batch.now cut.workers cut.lanes) }
    {
        match self.cut {
            CutKind::Residue => by_residue(alloc, batch, self.workers),
            CutKind::Ranges => by_even_ranges(alloc, batch, self.workers),
        }
    }
}

// Cuts a batch by the remainders of the keys.
fn by_residue(alloc: Global, batch: &Batch, workers: u8) -> Result<Cut, AllocError>
    requires { MayWork workers }
    ensures workers { IfOk result (λ cut. cut.workers ≡ workers) }
    ensures lanes { IfOk result (λ cut. cut.lanes ≡ lanes_by_residue workers batch.now) }
    ensures lawful { IfOk result (λ cut. IsLawfulCut batch.now cut.workers cut.lanes) }
{
    match Cut::by_residue(alloc, batch, workers) {
        Ok(cut) => Ok(cut),
        Err(_) => Err(AllocError),
    }
}

// Cuts a batch by as many ranges of keys as there are workers.
fn by_even_ranges(alloc: Global, batch: &Batch, workers: u8) -> Result<Cut, AllocError>
    requires { MayWork workers }
    ensures workers { IfOk result (λ cut. cut.workers ≡ workers) }
    ensures lanes { IfOk result
        (λ cut. cut.lanes ≡ lanes_by_ranges (even_bounds workers) batch.now) }
    ensures lawful { IfOk result (λ cut. IsLawfulCut batch.now cut.workers cut.lanes) }
{
    let bounds = even_bounds(alloc, workers)?;
    match Cut::by_ranges(alloc, batch, &bounds) {
        Ok(cut) => Ok(cut),
        Err(_) => Err(AllocError),
    }
}

// The greatest keys of all ranges but the last, if the keys are cut into as many ranges as there are workers.
fn even_bounds(alloc: Global, workers: u8) -> Result<Vec<u64>, AllocError>
    requires { MayWork workers }
    ensures bounds { IfOk result (λ bounds. bounds.items ≡ even_bounds workers) }
    ensures count { IfOk result (λ bounds. length bounds.items + 1 ≡ workers) }
{
    let width = u64::MAX / u64::from(workers);
    let mut bounds = Vec::with_capacity(alloc, usize::from(workers))?;
    for number in 1..u64::from(workers) {
        bounds.push_reserved(number * width);
    }
    Ok(bounds)
}

//! The store and the latches that workers share, and the effect of an operation's step on them.
ghost use Rattle.std.specs.Prelude.{◌≡◌, ◌↔◌, ℕ, ◌+◌, ◌<◌, ◌≤◌, Some, length, IsTrue, IfOk, OnErr, IsOkUnless};
ghost use Rattle.blink_page.specs.declared.limits.TheConstants.{LEVELS, MAX_PAGE};
ghost use Rattle.blink_page.specs.{IsFan};
ghost use Rattle.blink_store.specs.{HoldsNone, holder_of};
ghost use Rattle.blink_store.specs.declared.latches.TheConstants.{WORKERS};
ghost use Rattle.blink_steps.specs.Acts.{Acts, CanAct, MayRead, MayReplace};
ghost use Rattle.blink_machine.specs.{NeedsLatch, NeedsNew, NeedsPage, NeedsPrime, NeedsPrimeWrite, NeedsUnlatch, NeedsWrite, page_out};

use blink_batch::StepError;
use blink_machine::{Kind, Machine, Need, Step};
use blink_store::{Latches, Store};
use std::marker::Model;

/// The store, and for each latched page the worker that holds its latch.
#[derive(Drop)]
pub(crate) struct Shared {
    pub store: Store,
    pub latches: Latches,
}

impl Model for Shared {
    ghost use Rattle.blink_steps.specs.Acts.{PlainShared};

    ghost Value = { PlainShared };

    ghost view = { λ shared. record { store = shared.store; latches = shared.latches } };
}

impl Shared {
    /// The greatest number of entries in a page of the tree.
    pub(crate) fn fan(&self) -> u8
        ensures fan { result ≡ self.now.store.fan }
        ensures in_range { IsFan result }
    {
        self.store.fan()
    }

    /// Takes the step that the worker's operation needs next, or waits. A refusal of memory changes nothing.
    pub(crate) fn act(&mut self, worker: u8, machine: &mut Machine) -> Result<Step, StepError>
        requires { CanAct self.old worker machine.old }
        ensures step { IfOk result
            (λ step. Acts self.old worker machine.old step machine.new self.new) }
        ensures refused { IsOkUnless result StepError.OutOfMemory }
        ensures machine_unchanged { OnErr result (machine.new ≡ machine.old) }
        ensures unchanged { OnErr result (self.new ≡ self.old) }
    {
        match machine.need() {
            Need::ReadPrime => Ok(self.read_prime(machine)),
            Need::ReadPage(number) => Ok(self.read_page(number, machine)),
            Need::Latch(number) => Ok(self.latch(number, worker, machine)),
            Need::WriteNew => self.add(machine),
            Need::WritePage(number) => Ok(self.write(number, machine)),
            Need::WritePrime => Ok(self.write_prime(machine)),
            Need::Unlatch(number) => Ok(self.unlatch(number, worker, machine)),
            Need::End => Ok(Step::Idle),
        }
    }

    // Reads the prime block, or waits for a level that isn't there yet.
    fn read_prime(&self, machine: &mut Machine) -> Step
        requires needs { NeedsPrime machine.old }
        requires few_levels { length self.now.store.prime < LEVELS }
        ensures { (worker : ℕ) → Acts self.now worker machine.old result machine.new self.now }
    {
        if machine.saw_prime(self.store.prime()) {
            Step::Moved(Kind::ReadPrime)
        } else {
            Step::Waited
        }
    }

    // Reads page `number`.
    fn read_page(&self, number: u32, machine: &mut Machine) -> Step
        requires needs { NeedsPage machine.old number }
        requires fan { machine.old.fan ≡ self.now.store.fan }
        requires may_read { MayRead self.now.store number machine.old }
        ensures { (worker : ℕ) → Acts self.now worker machine.old result machine.new self.now }
    {
        machine.saw_page(self.store.read(number));
        Step::Moved(Kind::ReadPage(number))
    }

    // Latches page `number` for the worker, or waits while it is latched.
    fn latch(&mut self, number: u32, worker: u8, machine: &mut Machine) -> Step
        requires needs { NeedsLatch machine.old number }
        requires worker { worker < WORKERS }
        requires holds_none { HoldsNone self.old.latches worker }
        ensures { Acts self.old worker machine.old result machine.new self.new }
    {
        if self.latches.try_latch(number, worker) {
            machine.done(0);
            Step::Moved(Kind::Latch(number))
        } else {
            Step::Waited
        }
    }

    // Takes the worker's latch off page `number`.
    fn unlatch(&mut self, number: u32, worker: u8, machine: &mut Machine) -> Step
        requires needs { NeedsUnlatch machine.old number }
        requires held { holder_of self.old.latches number ≡ Some worker }
        ensures { Acts self.old worker machine.old result machine.new self.new }
    {
        self.latches.unlatch(number, worker);
        machine.done(0);
        Step::Moved(Kind::Unlatch(number))
    }

    // Replaces the prime block by the one that the operation wants written.
    fn write_prime(&mut self, machine: &mut Machine) -> Step
        requires { NeedsPrimeWrite machine.old }
        ensures { (worker : ℕ) → Acts self.old worker machine.old result machine.new self.new }
    {
        self.store.set_prime(machine.prime_out());
        machine.done(0);
        Step::Moved(Kind::WritePrime)
    }

    /// Whether the operation's next step would be a wait, for any worker.
    pub(crate) fn waits(&self, machine: &Machine) -> bool
        ensures { (worker : ℕ)
            → (IsTrue result ↔ Acts self.now worker machine.now Step.Waited machine.now self.now) }
    {
        match machine.need() {
            Need::ReadPrime => machine.waits_for_level(self.store.prime()),
            Need::Latch(number) => self.latches.holder(number).is_some(),
            _ => false,
        }
    }

    // Replaces page `number` by the page that the operation wants written.
    fn write(&mut self, number: u32, machine: &mut Machine) -> Step
        requires needs { NeedsWrite machine.old number }
        requires allowed { MayReplace self.old.store number (page_out machine.old 0) }
        ensures { (worker : ℕ) → Acts self.old worker machine.old result machine.new self.new }
    {
        self.store.write_from(number, machine.page_in_place(number));
        machine.done(0);
        Step::Moved(Kind::WritePage(number))
    }

    // Adds the new page that the operation wants written, under the next number.
    fn add(&mut self, machine: &mut Machine) -> Result<Step, StepError>
        requires needs { NeedsNew machine.old }
        requires room { length self.old.store.pages < MAX_PAGE }
        requires at_most_fan { length (page_out machine.old (length self.old.store.pages + 1)).entries
            ≤ self.old.store.fan }
        ensures step { (worker : ℕ) → IfOk result
            (λ step. Acts self.old worker machine.old step machine.new self.new) }
        ensures refused { IsOkUnless result StepError.OutOfMemory }
        ensures machine_unchanged { OnErr result (machine.new ≡ machine.old) }
        ensures unchanged { OnErr result (self.new ≡ self.old) }
    {
        let number = self.store.pages() + 1;
        match self.store.add(machine.page_out(number)) {
            Ok(number) => {
                machine.done(number);
                Ok(Step::Moved(Kind::WritePage(number)))
            }
            Err(_) => Err(StepError::OutOfMemory),
        }
    }
}

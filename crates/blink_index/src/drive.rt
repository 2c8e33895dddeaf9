//! One operation carried out by a single worker, step by step.
ghost use Rattle.std.specs.Prelude.{◌≡◌, ℕ, ◌+◌, ◌<◌, ◌≤◌, List, [], length, vec_capacity};
ghost use Rattle.blink_operation.specs.{FitsWords, answer_of};
ghost use Rattle.blink_page.specs.declared.limits.TheConstants.{MAX_NEW_PAGES_PER_INSERT, MAX_PAGE};
ghost use Rattle.blink_rest.specs.{IsStoreAtRest};
ghost use Rattle.blink_store.specs.{IsLawfulStore};
ghost use Rattle.blink_machine.specs.{need_at, NeedsNew, NeedsWrite};
ghost use Rattle.blink_index.specs.Drive.{ActsOn, CanActOn};
ghost use Rattle.blink_entries.specs.Index.{store_of};
ghost use Rattle.blink_index.specs.Edit.{IsEdited};
ghost use Rattle.blink_entries.specs.Index.{map_of};

use blink_machine::{Machine, Need};
use blink_operation::Op;
use blink_page::{Page, Prime};

/// Takes the step that the operation needs next. Nobody else works on the pages, so latches are granted unseen. The call takes no
/// memory.
fn act(prime: &mut Prime, pages: &mut Vec<Page>, machine: &mut Machine)
    requires can { CanActOn (need_at machine.old.state)
        (store_of machine.old.fan prime.old pages.old.items) machine.old }
    requires room { NeedsNew machine.old → length pages.old.items < vec_capacity pages.old }
    ensures acts { ActsOn (need_at machine.old.state)
        (store_of machine.old.fan prime.old pages.old.items) machine.old machine.new
        (store_of machine.old.fan prime.new pages.new.items) }
    ensures capacity { vec_capacity pages.new ≡ vec_capacity pages.old }
{
    match machine.need() {
        Need::ReadPrime => {
            machine.saw_prime(prime);
        }
        Need::ReadPage(number) => machine.saw_page(&pages[number as usize - 1]),
        Need::Latch(_) | Need::Unlatch(_) => machine.done(0),
        Need::WriteNew => add(pages, machine),
        Need::WritePage(number) => write(number, pages, machine),
        Need::WritePrime => {
            *prime = machine.prime_out();
            machine.done(0);
        }
        Need::End => {}
    }
}

// Adds the new page that the operation wants written, under the next number.
fn add(pages: &mut Vec<Page>, machine: &mut Machine)
    requires can { CanActOn Need.WriteNew (store_of 0 [] pages.old.items) machine.old }
    requires needs { NeedsNew machine.old }
    requires room { length pages.old.items < vec_capacity pages.old }
    ensures acts { (fan : ℕ) (prime : List ℕ) → ActsOn Need.WriteNew
        (store_of fan prime pages.old.items) machine.old machine.new
        (store_of fan prime pages.new.items) }
    ensures capacity { vec_capacity pages.new ≡ vec_capacity pages.old }
{
    let number = pages.len() as u32 + 1;
    pages.push_reserved(machine.page_out(number));
    machine.done(number);
}

// Replaces page `number` by the page that the operation wants written.
fn write(number: u32, pages: &mut Vec<Page>, machine: &mut Machine)
    requires can { CanActOn (Need.WritePage number) (store_of 0 [] pages.old.items) machine.old }
    requires needs { NeedsWrite machine.old number }
    ensures acts { (fan : ℕ) (prime : List ℕ) → ActsOn (Need.WritePage number)
        (store_of fan prime pages.old.items) machine.old machine.new
        (store_of fan prime pages.new.items) }
    ensures capacity { vec_capacity pages.new ≡ vec_capacity pages.old }
{
    let page = &mut pages[number as usize - 1];
    page.assign(machine.page_in_place(number));
    machine.done(0);
}

/// Carries one operation out on the pages of a tree at rest. The call takes no memory: there is room for each page that the
/// operation may add.
pub(crate) fn run(fan: u8, prime: &mut Prime, pages: &mut Vec<Page>, op: Op)
    requires lawful { IsLawfulStore (store_of fan prime.old pages.old.items) }
    requires at_rest { IsStoreAtRest (store_of fan prime.old pages.old.items) }
    requires words { FitsWords op }
    requires numbers { length pages.old.items + MAX_NEW_PAGES_PER_INSERT ≤ MAX_PAGE }
    requires room { length pages.old.items + MAX_NEW_PAGES_PER_INSERT ≤ vec_capacity pages.old }
    ensures edited { IsEdited (store_of fan prime.old pages.old.items)
        (store_of fan prime.new pages.new.items) op
        (answer_of (map_of (store_of fan prime.old pages.old.items)) op) }
    ensures lawful { IsLawfulStore (store_of fan prime.new pages.new.items) }
    ensures few_pages { length pages.new.items
        ≤ length pages.old.items + MAX_NEW_PAGES_PER_INSERT }
{
    let mut machine = Machine::new(op, fan);
    act(prime, pages, &mut machine);
    'steps: while !machine.ended() {
        act(prime, pages, &mut machine);
    }
}

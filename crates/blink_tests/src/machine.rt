//! One operation's machine driven by hand, over pages in local variables, as a memory of another kind would drive it.
ghost use Rattle.std.specs.Prelude.{◌≡◌, ◌≤◌, None, [], ◌∷◌, length};
ghost use Rattle.blink_page.specs.declared.limits.TheConstants.{GREATEST_KEY};
ghost use Rattle.blink_machine.specs.{fresh, at_state};

use crate::fixtures::pages::{Bounds, has_bounds, has_entries, is_alone, is_number, leaf_of};
use crate::fixtures::same;
use blink_batch::{Answer, Op};
use blink_page::{GREATEST_KEY, Page, Prime, Way};
use blink_steps::{Machine, Need, State};
use std::process::Abort;

// The insertion of 5 on its way, until it has the leaf's latch. The state is told whole, since which page may be shown to it
// next is told by its state alone.
fn holds_leaf(rt: &impl Abort, prime: &Prime, leaf: &Page) -> Machine
    requires prime { prime.now ≡ 1 ∷ [] }
    requires level { leaf.now.level ≡ 0 }
    requires floor { leaf.now.floor ≡ None }
    requires high { leaf.now.high ≡ GREATEST_KEY }
    requires at_most_fan { length leaf.now.entries ≤ 4 }
    ensures { result ≡ at_state (fresh 4 (Op.Insert 5 50)) (State.Held 1) }
{
    let mut machine = Machine::new(Op::Insert(5, 50), 4);
    same(rt, &machine.need(), &Need::ReadPrime);
    assert!(rt; machine.saw_prime(prime));
    same(rt, &machine.need(), &Need::ReadPage(1));
    machine.saw_page(leaf);
    same(rt, &machine.need(), &Need::Latch(1));
    machine.done(0);
    machine
}

// The insertion of 5, which has read the full leaf under its latch.
fn has_read_full_leaf(rt: &impl Abort, prime: &Prime) -> Machine
    requires { prime.now ≡ 1 ∷ [] }
{
    let leaf = leaf_of(rt, &[1, 2, 3, 4]);
    is_alone(rt, &leaf, 0, 4);
    let mut machine = holds_leaf(rt, prime, &leaf);
    same(rt, &machine.need(), &Need::ReadPage(1));
    machine.saw_page(&leaf);
    machine
}

// Reads the prime block, which is what it needs.
fn reads_prime(rt: &impl Abort, machine: &mut Machine, prime: &Prime) {
    assert!(rt; matches!(machine.need(), Need::ReadPrime));
    assert!(rt; prime.leftmost.len() < 21);
    assert!(rt; machine.saw_prime(prime));
}

// Writes the new page that it wants to be written, at this number.
fn writes_new(rt: &impl Abort, machine: &mut Machine, number: u32) -> Page {
    assert!(rt; matches!(machine.need(), Need::WriteNew));
    is_number(rt, number);
    let page = machine.page_out(number);
    machine.done(number);
    page
}

// Writes the page that it wants to be written over the page of this number.
fn writes_over(rt: &impl Abort, machine: &mut Machine, number: u32) -> Page {
    assert!(rt; matches!(machine.need(), Need::WritePage(at) if at == number));
    let page = machine.page_out(0);
    same(rt, machine.page_in_place(number), &page);
    machine.done(0);
    page
}

// Writes the prime block that it wants to be written.
fn writes_prime(rt: &impl Abort, machine: &mut Machine) -> Prime {
    assert!(rt; matches!(machine.need(), Need::WritePrime));
    let prime = machine.prime_out();
    machine.done(0);
    prime
}

// Lets the latch of this page go, which is what it needs.
fn unlatches(rt: &impl Abort, machine: &mut Machine, number: u32) {
    assert!(rt; matches!(machine.need(), Need::Unlatch(at) if at == number));
    machine.done(0);
}

// The page has these entries and stands there on its level.
fn is_written(rt: &impl Abort, page: &Page, level: u8, entries: &[(u64, u64)], bounds: Bounds) {
    has_entries(rt, page, entries);
    has_bounds(rt, page, level, bounds);
}

#[test]
fn an_insertion_splits_a_leaf(rt: HostRuntime) {
    let prime = Prime::new();
    let mut machine = has_read_full_leaf(&rt, &prime);
    let right = writes_new(&rt, &mut machine, 2);
    let of_right: Bounds = (Some(3), GREATEST_KEY, None);
    is_written(&rt, &right, 0, &[(4, 40), (5, 50)], of_right);

    same(&rt, &machine.answer(), &None);
    let left = writes_over(&rt, &mut machine, 1);
    same(&rt, &machine.answer(), &Some(Answer::Inserted));
    let of_left: Bounds = (None, 3, Some(2));
    is_written(&rt, &left, 0, &[(1, 10), (2, 20), (3, 30)], of_left);

    reads_prime(&rt, &mut machine, &prime);
    let root = writes_new(&rt, &mut machine, 3);
    let of_root: Bounds = (None, GREATEST_KEY, None);
    is_written(&rt, &root, 1, &[(3, 1), (GREATEST_KEY, 2)], of_root);

    let grown = writes_prime(&rt, &mut machine);
    same(&rt, &grown.leftmost.as_slice(), &[1, 3].as_slice());
    unlatches(&rt, &mut machine, 1);
    same(&rt, &machine.need(), &Need::End);
    assert!(rt; machine.ended());
}

#[test]
fn a_find_begins_at_the_root(rt: HostRuntime) {
    let mut machine = Machine::new(Op::Find(3), 4);
    same(&rt, &machine.target(), &3);
    machine.saw_top(2, 7);
    same(&rt, &machine.need(), &Need::ReadPage(7));
}

#[test]
fn a_find_learns_where_to_go(rt: HostRuntime) {
    let leaf = leaf_of(&rt, &[1, 2, 3, 4]);
    is_alone(&rt, &leaf, 0, 4);
    let mut machine = Machine::new(Op::Find(3), 4);
    assert!(rt; machine.saw_prime(&Prime::new()));
    same(&rt, &machine.need(), &Need::ReadPage(1));
    let way = leaf.way(3);
    same(&rt, &way, &Way::Here);
    machine.saw_way(way, leaf.look(3));
    same(&rt, &machine.answer(), &Some(Answer::Found(30)));
    assert!(rt; machine.ended());
}

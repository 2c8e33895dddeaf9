//! Building a tree at rest of ascending entries, from the left and from the leaves up, in as few pages as they need.
ghost use Rattle.std.specs.Prelude.{◌≡◌, ◌<◌, ◌≤◌, ◌+◌, ◌-◌, ◌++◌, ℕ, List, None, Some, [], ◌∷◌, length, drop, IfOk, OnOk};
ghost use Rattle.std.specs.List.{sum};
ghost use Rattle.blink_page.specs.{IsFan, IsLawfulPage, IsPageNumber, IsRising, last_key, least_above, with_entries};
ghost use Rattle.blink_page.specs.declared.limits.TheConstants.{GREATEST_KEY, MAX_FAN, MAX_LEVEL, MAX_PAGE};
ghost use Rattle.blink_rest.specs.{entries_from};
ghost use Rattle.blink_entries.specs.Index.{map_of};
ghost use Rattle.blink_entries.specs.Packed.{IsFewest, IsInOrder, NeedsPages};
ghost use Rattle.blink_entries.specs.Packing.{AddsLevel, AreEnough, AreLeaves, HasLeafNumber, HasNumbersAbove, HasNumbersOver, IsGroup, IsTree, IsWhole, entries_in, leaf_after, page_over};

use arrayvec::ArrayVec;
use blink_page::{GREATEST_KEY, MAX_FAN, Page, Prime};
use blink_rest::Rest;
use blink_store::Store;
use std::alloc::{AllocError, Global};

/// Returns the number of pages that a tree of so many entries needs.
pub fn pages_needed(count: usize, fan: u8) -> usize
    requires { IsFan fan }
    ensures { NeedsPages fan count result }
{
    let mut level = fewest(count, fan);
    let mut all = level;
    while level > 1 {
        level = fewest(level, fan);
        all += level;
    }
    all
}

// The number of pages that so many entries or children need, at least one.
fn fewest(count: usize, fan: u8) -> usize
    requires { IsFan fan }
    ensures { IsFewest fan count result }
{
    count.div_ceil(usize::from(fan)).max(1)
}

/// Makes an empty leaf for all keys, with memory for so many pages.
pub fn first_leaf(alloc: Global, room: usize) -> Result<Vec<Page>, AllocError>
    ensures leaves { IfOk result (λ pages. (fan : ℕ) → IsFan fan → AreLeaves fan pages.items) }
    ensures none { IfOk result (λ pages. entries_in pages.items ≡ []) }
{
    match Vec::with_capacity(alloc, room) {
        Ok(mut pages) => {
            push(&mut pages, Page::leaf())?;
            Ok(pages)
        }
        Err(_) => Err(AllocError),
    }
}

/// Adds an entry behind all others. It goes to the last leaf, or to a new one if that is full. After a refusal no tree can be made
/// of the leaves.
pub fn add_entry(pages: &mut Vec<Page>, fan: u8, key: u64, pointer: u64) -> Result<(), AllocError>
    requires fan { IsFan fan }
    requires leaves { AreLeaves fan pages.old.items }
    requires above { IsRising 0 (entries_in pages.old.items) key }
    requires number { HasLeafNumber fan pages.old.items }
    ensures leaves { OnOk result (AreLeaves fan pages.new.items) }
    ensures entries { OnOk result
        (entries_in pages.new.items ≡ entries_in pages.old.items ++ (key, pointer) ∷ []) }
{
    let count = pages.len();
    let last = &mut pages[count - 1];
    if last.items.len() < usize::from(fan) {
        append(last, key, pointer);
        return Ok(());
    }
    let floor = close(last, count as u32 + 1);
    push(pages, leaf_after(floor, key, pointer))
}

// Adds a page behind all others.
fn push(pages: &mut Vec<Page>, page: Page) -> Result<(), AllocError>
    ensures { OnOk result (pages.new.items ≡ pages.old.items ++ page ∷ []) }
{
    match pages.push(page) {
        Ok(()) => Ok(()),
        Err(_) => Err(AllocError),
    }
}

// Adds an entry behind those of a leaf.
fn append(leaf: &mut Page, key: u64, pointer: u64)
    requires leaf { leaf.old.level ≡ 0 }
    requires above { IsRising (least_above leaf.old.floor) leaf.old.entries key }
    requires below_high { key ≤ leaf.old.high }
    requires room { length leaf.old.entries < MAX_FAN }
    ensures { leaf.new ≡ with_entries leaf.old (leaf.old.entries ++ (key, pointer) ∷ []) }
{
    leaf.items.push((key, pointer));
}

// Ends a leaf at its last key, which it returns, and links it to the next.
fn close(leaf: &mut Page, next: u32) -> u64
    requires leaf { leaf.old.level ≡ 0 }
    requires some { 0 < length leaf.old.entries }
    requires not_last { last_key leaf.old.entries < GREATEST_KEY }
    requires next { IsPageNumber next }
    ensures closed { leaf.new
        ≡ record leaf.old { high = last_key leaf.old.entries; right = Some next } }
    ensures key { result ≡ last_key leaf.old.entries }
{
    let key = leaf.items[leaf.items.len() - 1].0;
    leaf.high = key;
    leaf.right = Some(next);
    key
}

// The last leaf so far, with one entry.
fn leaf_after(floor: u64, key: u64, pointer: u64) -> Page
    requires { floor < key }
    ensures { result ≡ leaf_after floor key pointer }
{
    let mut items = ArrayVec::new();
    items.push((key, pointer));
    Page {
        level: 0,
        floor: Some(floor),
        high: GREATEST_KEY,
        right: None,
        items,
    }
}

/// Adds the levels above leaves, and makes the tree at rest.
pub fn tree_over(mut pages: Vec<Page>, fan: u8) -> Result<Rest, AllocError>
    requires fan { IsFan fan }
    requires leaves { AreLeaves fan pages.items }
    requires numbers { HasNumbersAbove fan (length pages.items) }
    ensures fan { IfOk result (λ rest. rest.fan ≡ fan) }
    ensures map { IfOk result (λ rest. map_of rest ≡ entries_from (entries_in pages.items)) }
    ensures in_order { IfOk result IsInOrder }
    ensures few { IfOk result (λ rest. (above : List ℕ) → AreEnough fan (length pages.items) above
        → length rest.pages ≤ length pages.items + sum above) }
{
    let prime = add_levels(&mut pages, fan)?;
    // Read for the proof: a prime block is lawful.
    let _leftmost = &prime.leftmost;
    Ok(Rest::of(Store { fan, prime, pages }))
}

// Adds the levels above leaves, each in as few pages as its children need, and returns the prime block.
fn add_levels(pages: &mut Vec<Page>, fan: u8) -> Result<Prime, AllocError>
    requires fan { IsFan fan }
    requires leaves { AreLeaves fan pages.old.items }
    requires numbers { HasNumbersAbove fan (length pages.old.items) }
    ensures tree { IfOk result (λ prime.
        IsTree fan prime pages.new.items (entries_in pages.old.items)) }
    ensures few { OnOk result ((above : List ℕ) → AreEnough fan (length pages.old.items) above
        → length pages.new.items ≤ length pages.old.items + sum above) }
{
    let mut prime = Prime::new();
    let mut level = 0;
    let mut first = 0;
    'levels: while pages.len() - first > 1 {
        let next = pages.len();
        level += 1;
        add_level(pages, fan, level, first)?;
        prime.grow(next as u32 + 1);
        first = next;
    }
    Ok(prime)
}

// Adds a level over the pages from place `first` on, which are the level below.
fn add_level(pages: &mut Vec<Page>, fan: u8, level: u8, first: usize) -> Result<(), AllocError>
    requires fan { IsFan fan }
    requires level { (1 ≤ level) × (level ≤ MAX_LEVEL) }
    requires inside { first ≤ length pages.old.items }
    requires below { IsWhole fan (level - 1) (first + 1) (drop first pages.old.items) }
    requires two { 2 ≤ length (drop first pages.old.items) }
    requires numbers { HasNumbersOver fan first pages.old.items }
    ensures added { OnOk result (AddsLevel fan level first pages.old.items pages.new.items) }
{
    let end = pages.len();
    let mut begin = first;
    'groups: while begin < end {
        let next = begin + group(end - begin, fan);
        let right = link_of(next, end, pages.len());
        let page = page_over(&pages[begin..next], level, begin as u32 + 1, right);
        push(pages, page)?;
        begin = next;
    }
    Ok(())
}

// The number of children of the next inner page, of so many that are left. No page gets one child alone.
fn group(left: usize, fan: u8) -> usize
    requires fan { IsFan fan }
    requires two { 2 ≤ left }
    ensures { IsGroup fan left result }
{
    let most = usize::from(fan);
    if left == most + 1 {
        most - 1
    } else {
        left.min(most)
    }
}

// The link to the page behind the next one, if children are left for it.
fn link_of(next: usize, end: usize, count: usize) -> Option<u32>
    requires { next < end → count + 2 ≤ MAX_PAGE }
    ensures more { next < end → result ≡ Some (count + 2) }
    ensures last { end ≤ next → result ≡ None }
{
    if next < end {
        Some(count as u32 + 2)
    } else {
        None
    }
}

// The inner page over some pages, which are numbered from `child` on.
fn page_over(children: &[Page], level: u8, child: u32, right: Option<u32>) -> Page
    requires some { 1 ≤ length children.now }
    requires few { length children.now ≤ MAX_FAN }
    requires numbers { child + length children.now ≤ MAX_PAGE + 1 }
    requires lawful { IsLawfulPage MAX_FAN (page_over level child right children.now) }
    ensures { result ≡ page_over level child right children.now }
{
    let mut items = ArrayVec::new();
    let mut number = u64::from(child);
    for page in children {
        items.push((page.high, number));
        number += 1;
    }
    let first = &children[0];
    let last = &children[children.len() - 1];
    Page {
        level,
        floor: first.floor,
        high: last.high,
        right,
        items,
    }
}

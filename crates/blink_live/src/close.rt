//! Closing a table: it takes keeper and passes back, and builds an index from the tree at rest that the words hold. The index
//! has a new store, and its pages get new numbers.
ghost use Rattle.std.specs.Prelude.{◌≡◌, ◌<◌, ◌↔◌, ◌⊎◌, ℕ, None, [], All, length, IfOk, IfErr, IsErrOf, List, ◌+◌, ◌-◌, ◌≤◌, ◌++◌, Some, ◌∷◌, OnOk, slice_index, IfSome};
ghost use Rattle.std.specs.Mem.Slots.{slots_items, slots_len, IsFull};
ghost use Rattle.blink_batch.specs.declared.Entry.{Entry};
ghost use Rattle.blink_index.specs.{map_of};
ghost use Rattle.blink_page.specs.{IsFan, IsPageNumber};
ghost use Rattle.blink_machine.specs.{IsMapOf};
ghost use Rattle.blink_live.specs.Gathered.{IsNumberedInOrder, KeepsTreeAtRest, HasTheEntries};
ghost use Rattle.blink_live.specs.Handles.{IsKeeperOf, IsPassOf, counts_of, fan_of, passes_out};
ghost use Rattle.blink_live.specs.declared.view.Role.TheVariants.{Keeper as KeeperRole, Pass as PassRole};
ghost use Rattle.blink_live.specs.Merge.{IsMerge, shares_of, KeepsPrime, KeepsSomeTree, KeepsTree};
ghost use Rattle.blink_live.specs.Views.{IsOwned, TakesAllBack, plan_of, takes_back};
ghost use Rattle.blink_live.specs.Words.{word_count};
ghost use Rattle.blink_live.specs.ToCome.{HasPagesToCome, HasLeavesToCome, AddsPages, HasPageAt, IsPageAt};
ghost use Rattle.blink_live.specs.Renumbered.{child_count, link_anew, page_anew, with_children};
ghost use Rattle.blink_live.specs.Seats.{HasSameNumber, IsIdleIn};

use crate::error::LiveError;
use crate::live::{Keeper, Live, Pass};
use crate::rule::{Planned, TakeBack};
use crate::view::View;
use atomic_table::{Closed, Seat};
use blink_index::Index;
use blink_page::{MAX_PAGE, Page, Prime};
use blink_rest::Rest;
use blink_rows::layout::{COUNT, ENTRY_WORDS};
use blink_rows::{Counts, HEAD_WORDS, ROW_WORDS, page_in_row, records_in, row_in, row_prime};
use blink_store::{Store, StoreError};
use std::alloc::{AllocError, Global};
use std::marker::Brand;

impl Live {
    /// Closes the table once all passes are back, and returns the index of its tree. The index's entries are those that the
    /// table was opened with, except that each key that was ever dealt has the state of its last pass's share. Its pages are
    /// numbered anew from 1, level 0 first, and each level from the left. They are fewer than the table's page numbers.
    ///
    /// The call refuses with `Missing` exactly if fewer passes come back than are out; then with `OutOfMemory`, if memory was
    /// refused. The table is given up either way. The index that was opened stays as it was.
    pub fn close(self, alloc: Global, keeper: Keeper, passes: Vec<Pass>) -> Result<Index, LiveError>
        requires its_keeper { IsKeeperOf self keeper }
        requires its_passes { All (IsPassOf self) passes.items }
        ensures fan { IfOk result (λ index. index.fan ≡ fan_of self) }
        ensures entries { IfOk result (λ index. IsMerge self keeper passes.items (map_of index)) }
        ensures numbered { IfOk result IsNumberedInOrder }
        ensures pages { IfOk result (λ index. length index.pages < (counts_of self).numbers) }
        ensures missing { IsErrOf result LiveError.Missing ↔ length passes.items < passes_out keeper }
        ensures refused { IfErr result
            (λ refusal. (refusal ≡ LiveError.Missing) ⊎ (refusal ≡ LiveError.OutOfMemory)) }
    {
        if passes.len() < keeper.out() as usize {
            return Err(LiveError::Missing);
        }
        let Keeper {
            mut seat,
            taken: _taken,
            rows: _,
            pages: _,
            dealt: _,
            back: _,
        } = keeper;
        self.take_back(&mut seat, passes);
        let Live {
            table,
            counts,
            fan,
            places: _,
        } = self;
        let closed = table.close_with(seat);
        let tree = tree_at_end(alloc, &closed, &counts, fan);
        closed.free();
        match tree {
            Ok(rest) => Ok(Index::from_rest(rest)),
            Err(_) => Err(LiveError::OutOfMemory),
        }
    }

    // The keeper's seat takes the views of all passes.
    fn take_back(&self, seat: &mut Seat<u8, View>, mut passes: Vec<Pass>)
        requires table { seat.old.table_id ≡ self.now.table.shared.table_id }
        requires role { (dealt : ℕ) × (back : ℕ) × (seat.old.me.0.role ≡ KeeperRole dealt back) }
        requires owned { IsOwned seat.old.me.0.plan }
        requires its_passes { All (IsPassOf self.now) passes.items }
        ensures same { HasSameNumber seat.old seat.new }
        ensures back { TakesAllBack (shares_of passes.items) seat.old.me seat.new.me }
    {
        while let Some(pass) = passes.pop() {
            let Pass {
                seat: other,
                keys: _keys,
                rows: _,
                pages: _,
            } = pass;
            self.take_one::<Brand>(seat, other);
        }
    }

    // The keeper's seat takes the view of one pass.
    fn take_one<B: Planned>(&self, seat: &mut Seat<u8, View>, other: Seat<u8, View>)
        requires tables { (seat.old.table_id ≡ self.now.table.shared.table_id)
            × (other.table_id ≡ self.now.table.shared.table_id) }
        requires picked { B.plan ≡ plan_of self.now.table.shared.key }
        requires keeper { (dealt : ℕ) × (back : ℕ) × (seat.old.me.0.role ≡ KeeperRole dealt back) }
        requires owned { IsOwned seat.old.me.0.plan }
        requires pass { IsIdleIn PassRole other.me }
        ensures same { HasSameNumber seat.old seat.new }
        ensures back { seat.new.me ≡ (takes_back seat.old.me.0 other.me.0, seat.old.me.1) }
    {
        self.table.shared.join_seat::<TakeBack<B>>(seat, other);
    }
}

// Builds the tree at rest that the words hold, with its pages numbered anew.
pub fn tree_at_end(
    alloc: Global,
    closed: &Closed<u8, Global>,
    counts: &Counts,
    fan: u8,
) -> Result<Rest, AllocError>
    requires full { IsFull closed.now.words }
    requires width { word_count counts.now ≤ slots_len closed.now.words }
    requires fan { IsFan fan }
    requires tree { KeepsSomeTree counts.now (slots_items closed.now.words) fan }
    ensures fan { IfOk result (λ rest. rest.fan ≡ fan) }
    ensures entries { IfOk result (λ rest. (entries : List Entry)
        → KeepsTree counts.now (slots_items closed.now.words) fan entries → IsMapOf rest entries) }
    ensures numbered { IfOk result IsNumberedInOrder }
    ensures few { IfOk result (λ rest. length rest.pages ≤ counts.now.numbers - 1) }
{
    let prime = prime_at(closed, counts);
    gather(alloc, closed, counts, fan, &prime)
}

// The prime block that the words hold.
pub(crate) fn prime_at(closed: &Closed<u8, Global>, counts: &Counts) -> Prime
    requires full { IsFull closed.now.words }
    requires width { word_count counts.now ≤ slots_len closed.now.words }
    requires kept { (leftmost : List ℕ) × KeepsPrime counts.now (slots_items closed.now.words) leftmost }
    ensures { (leftmost : List ℕ) → KeepsPrime counts.now (slots_items closed.now.words) leftmost
        → result ≡ leftmost }
{
    let row = row_in(closed.word(0));
    let start = counts.row_start(row) as usize;
    let levels = closed.word(start + COUNT) as usize;
    let words = row_words(closed, start, HEAD_WORDS + levels);
    let Some(prime) = row_prime(&words) else {
        unreachable!()
    };
    prime
}

// Copies the tree at rest that the words hold into a new store. Its pages are numbered anew from 1, level 0 first, each level
// from the left.
fn gather(
    alloc: Global,
    closed: &Closed<u8, Global>,
    counts: &Counts,
    fan: u8,
    prime: &Prime,
) -> Result<Rest, AllocError>
    requires full { IsFull closed.now.words }
    requires width { word_count counts.now ≤ slots_len closed.now.words }
    requires fan { IsFan fan }
    requires rest { KeepsTreeAtRest counts.now (slots_items closed.now.words) fan prime.now }
    ensures fan { IfOk result (λ rest. rest.fan ≡ fan) }
    ensures entries { IfOk result
        (λ rest. HasTheEntries counts.now (slots_items closed.now.words) fan prime.now rest) }
    ensures numbered { IfOk result IsNumberedInOrder }
    ensures few { IfOk result (λ rest. length rest.pages ≤ counts.now.numbers - 1) }
{
    // Read for the proof: there are no more page numbers than a store has.
    let _numbers = counts.numbers;
    let leftmost = &prime.leftmost;
    let mut store = store_of_leaves(alloc, closed, counts, fan, leftmost[0])?;
    let mut firsts = Prime::new();
    let mut child = 1;
    for level in 1..leftmost.len() {
        let first = store.pages() + 1;
        add_pages(&mut store, closed, counts, Some(leftmost[level]), child)?;
        firsts.grow(first);
        child = first;
    }
    store.set_prime(firsts);
    Ok(Rest::of(store))
}

// Makes a new store with the pages of level 0, from page `leftmost` on. That page takes the place of the empty leaf that a new
// store has.
fn store_of_leaves(
    alloc: Global,
    closed: &Closed<u8, Global>,
    counts: &Counts,
    fan: u8,
    leftmost: u32,
) -> Result<Store, AllocError>
    requires full { IsFull closed.now.words }
    requires width { word_count counts.now ≤ slots_len closed.now.words }
    requires fan { IsFan fan }
    requires leaves { HasLeavesToCome counts.now (slots_items closed.now.words) fan leftmost }
    ensures fan { IfOk result (λ store. store.fan ≡ fan) }
    ensures pages { IfOk result
        (λ store. AddsPages counts.now (slots_items closed.now.words)
        fan (Some leftmost) 1 [] store.pages) }
{
    let Ok(mut store) = Store::new(alloc, fan) else {
        return Err(AllocError);
    };
    let page = page_at(closed, counts, leftmost);
    let link = page.right;
    store.write(1, renumbered(page, 2, 1));
    add_pages(&mut store, closed, counts, link, 1)?;
    Ok(store)
}

// Adds the pages of a level from a link on. They get the next numbers, and their children are numbered from `first_child` on.
fn add_pages(
    store: &mut Store,
    closed: &Closed<u8, Global>,
    counts: &Counts,
    from: Option<u32>,
    first_child: u32,
) -> Result<(), AllocError>
    requires full { IsFull closed.now.words }
    requires width { word_count counts.now ≤ slots_len closed.now.words }
    requires pages { HasPagesToCome counts.now (slots_items closed.now.words)
        store.old.fan from (length store.old.pages) first_child }
    ensures fan { store.new.fan ≡ store.old.fan }
    ensures pages { OnOk result
        (AddsPages counts.now (slots_items closed.now.words)
        store.old.fan from first_child store.old.pages store.new.pages) }
{
    let mut link = from;
    let mut child = first_child;
    while let Some(number) = link {
        let next = store.pages() + 2;
        let page = page_at(closed, counts, number);
        let children = child_count(&page);
        link = page.right;
        add(store, renumbered(page, next, child))?;
        child += children;
    }
    Ok(())
}

// Adds a page to a store that has a page number left.
fn add(store: &mut Store, page: Page) -> Result<(), AllocError>
    requires at_most_fan { length page.entries ≤ store.old.fan }
    requires room { length store.old.pages < MAX_PAGE }
    ensures fan { store.new.fan ≡ store.old.fan }
    ensures pages { OnOk result (store.new.pages ≡ store.old.pages ++ page ∷ []) }
{
    match store.add(page) {
        Ok(_) => Ok(()),
        Err(StoreError::OutOfMemory) => Err(AllocError),
        Err(StoreError::OutOfPages) => unreachable!(),
    }
}

// The page that the words hold under `number`.
pub(crate) fn page_at(closed: &Closed<u8, Global>, counts: &Counts, number: u32) -> Page
    requires full { IsFull closed.now.words }
    requires width { word_count counts.now ≤ slots_len closed.now.words }
    requires kept { HasPageAt counts.now (slots_items closed.now.words) number }
    ensures { IsPageAt counts.now (slots_items closed.now.words) number result }
{
    let word = closed.word(number as usize);
    let records = records_in(word);
    let start = counts.row_start(row_in(word)) as usize;
    let count = closed.word(start + COUNT) as usize + usize::from(records.count);
    let words = row_words(closed, start, HEAD_WORDS + ENTRY_WORDS * count);
    match page_in_row(&words, records) {
        Some(page) => {
            // Read for the proof: a page is lawful.
            let _level = page.level;
            page
        }
        None => unreachable!(),
    }
}

// The first `count` words of the row that begins at `start`. What stands behind them in the row is of no page, and 0 here.
fn row_words(closed: &Closed<u8, Global>, start: usize, count: usize) -> [u64; ROW_WORDS]
    requires full { IsFull closed.now.words }
    requires inside { start + ROW_WORDS ≤ slots_len closed.now.words }
    requires fits { count ≤ ROW_WORDS }
    ensures width { length result ≡ ROW_WORDS }
    ensures words { (i : ℕ) → i < count
        → slice_index result i ≡ slice_index (slots_items closed.now.words) (start + i) }
    ensures rest { (i : ℕ) → count ≤ i → slice_index result i ≡ 0 }
{
    let mut words = [0; ROW_WORDS];
    for i in 0..count {
        words[i] = closed.word(start + i);
    }
    words
}

// The page with its right link set to `next`, and its children numbered from `child` on.
fn renumbered(page: Page, next: u32, child: u32) -> Page
    requires next { IfSome page.right (λ _. IsPageNumber next) }
    requires first_child { 1 ≤ child }
    requires room_for_children { child + child_count page.level page.entries ≤ MAX_PAGE + 1 }
    ensures { result ≡ page_anew next child page }
{
    let Page {
        level,
        floor,
        high,
        right,
        mut items,
    } = page;
    if level > 0 {
        renumber(&mut items, child);
    }
    Page {
        level,
        floor,
        high,
        right: led_to(right, next),
        items,
    }
}

// The link to `next`, if the page had a link.
fn led_to(link: Option<u32>, next: u32) -> Option<u32>
    ensures { result ≡ link_anew next link }
{
    link.map(|_| next)
}

// The number of children of a page.
fn child_count(page: &Page) -> u32
    ensures { result ≡ child_count page.now.level page.now.entries }
{
    if page.level == 0 {
        0
    } else {
        page.items.len() as u32
    }
}

// Replaces the children by the numbers from `child` on.
fn renumber(entries: &mut [(u64, u64)], child: u32)
    requires { child + length entries.old ≤ MAX_PAGE + 1 }
    ensures { entries.new ≡ with_children child entries.old }
{
    let mut next = u64::from(child);
    for entry in entries.iter_mut() {
        entry.1 = next;
        next += 1;
    }
}

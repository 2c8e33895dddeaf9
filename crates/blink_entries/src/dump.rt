//! A tree at rest as text.
ghost use Rattle.std.specs.Prelude.{◌≡◌, ◌++◌, Some, IfOk, OnOk, string_bytes};
ghost use Rattle.std.specs.List.{flat_map};
ghost use Rattle.blink_rest.specs.{IsStoreAtRest};
ghost use Rattle.blink_entries.specs.Index.{cells_of};
ghost use Rattle.blink_entries.specs.Scan.{IsLinkOf};
ghost use Rattle.blink_entries.specs.Dump.{words_of, entry_text, page_text, line_of, level_text, text_of_store};

use blink_page::Page;
use blink_store::Store;
use std::alloc::{AllocError, Global};
use std::fmt;

/// A number, or a dash for a missing one, as a line of a dump spells them.
#[derive(Clone, Copy)]
pub struct OrDash(pub Option<u64>);

impl fmt::Display for OrDash {
    ghost output = { λ words. Some (words_of words.0) };

    fn fmt<W: fmt::Write>(&self, f: &mut fmt::Formatter<W>) -> fmt::Result {
        match self.0 {
            Some(number) => write!(f, "{number}"),
            None => write!(f, "-"),
        }
    }
}

/// Adds entries to a text as a line of a dump spells them: a space before each, and a colon between its key and its pointer. An
/// error is a refusal of memory.
pub fn push_entries(text: &mut String, entries: &[(u64, u64)]) -> Result<(), AllocError>
    ensures { OnOk result
        (string_bytes text.new ≡ string_bytes text.old ++ flat_map entry_text entries.now) }
{
    for &(key, value) in entries {
        write!(text, " {key}:{value}")?;
    }
    Ok(())
}

// Adds the part of a line that is about the page itself.
fn push_page(text: &mut String, number: u32, page: &Page) -> Result<(), AllocError>
    ensures { OnOk result
        (string_bytes text.new
        ≡ string_bytes text.old ++ page_text (record { number = number; page = page.now })) }
{
    let level = page.level;
    let floor = OrDash(page.floor);
    let high = page.high;
    let right = OrDash(page.right.map(u64::from));
    write!(text, "{level} {number} {floor} {high} {right}")
}

// Adds the line of a page.
fn push_line(text: &mut String, number: u32, page: &Page) -> Result<(), AllocError>
    ensures { OnOk result
        (string_bytes text.new
        ≡ string_bytes text.old ++ line_of (record { number = number; page = page.now })) }
{
    push_page(text, number, page)?;
    push_entries(text, &page.items)?;
    text.push_str("\n")
}

// Adds the lines of a level's pages, from its leftmost page on.
fn push_level(text: &mut String, store: &Store, leftmost: u32) -> Result<(), AllocError>
    requires { IsLinkOf store.now (Some leftmost) }
    ensures { OnOk result
        (string_bytes text.new
        ≡ string_bytes text.old ++ level_text (cells_of store.now (Some leftmost))) }
{
    let mut link = Some(leftmost);
    while let Some(number) = link {
        let page = store.read(number);
        push_line(text, number, page)?;
        link = page.right;
    }
    Ok(())
}

/// Returns the lines of a tree at rest, the top level first.
pub fn tree_text(alloc: Global, store: &Store) -> Result<String, AllocError>
    requires { IsStoreAtRest store.now }
    ensures { IfOk result (λ text. string_bytes text ≡ text_of_store store.now) }
{
    let leftmost = &store.prime().leftmost;
    let mut text = String::new(alloc);
    let mut level = leftmost.len();
    while level > 0 {
        level -= 1;
        push_level(&mut text, store, leftmost[level])?;
    }
    Ok(text)
}

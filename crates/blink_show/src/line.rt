//! The lines of a world between two turns.
ghost use Rattle.std.specs.Prelude.{◌≡◌, ◌++◌, ◌<◌, IfOk, OnOk, map, length, option_map, string_bytes};
ghost use Rattle.std.specs.List.{flat_map, range_with_len};
ghost use Rattle.blink_show.specs.Lines.{after_space, decided_line, line_of_number, line_of_page, line_of_worker, lines_of, prime_line, words_of_page, words_of_working, worker_line};

use crate::words::{push_dotted, push_job, push_state};
use blink_batch::Answer;
use blink_index::{OrDash, push_entries};
use blink_page::{Page, Prime};
use blink_steps::{Working, World};
use std::alloc::{AllocError, Global};
use std::fmt;
use std::fmt::Write as _;

// The answer of an operation, or a dash.
#[derive(Clone, Copy)]
struct Answered(Option<Option<Answer>>);

impl fmt::Display for Answered {
    ghost use Rattle.std.specs.Prelude.{Some};
    ghost use Rattle.blink_show.specs.Lines.{words_of_answer};

    ghost output = { λ answered. Some (words_of_answer answered.0) };

    fn fmt<W: fmt::Write>(&self, f: &mut fmt::Formatter<W>) -> fmt::Result {
        match self.0 {
            Some(Some(answer)) => write!(f, "{answer}"),
            Some(None) | None => f.write_str("-"),
        }
    }
}

/// Returns the lines of the prime block, of each worker, and of each page.
pub(crate) fn lines_of(alloc: Global, world: &World) -> Result<Vec<String>, AllocError>
    ensures { IfOk result (λ lines. map string_bytes lines.items ≡ lines_of world.now.run) }
{
    let mut lines = Vec::new(alloc);
    lines.push(prime_line(alloc, world.store().prime())?)?;
    push_workers(alloc, &mut lines, world)?;
    push_pages(alloc, &mut lines, world)?;
    Ok(lines)
}

// The line of the prime block.
fn prime_line(alloc: Global, prime: &Prime) -> Result<String, AllocError>
    ensures { IfOk result (λ line. string_bytes line ≡ prime_line prime.now) }
{
    let mut line = String::from_str(alloc, "prime")?;
    push_spaced(&mut line, &prime.leftmost)?;
    line.push_str("\n")?;
    Ok(line)
}

// Adds numbers, with a space before each.
fn push_spaced(line: &mut String, numbers: &[u32]) -> Result<(), AllocError>
    ensures { OnOk result
        (string_bytes line.new ≡ string_bytes line.old ++ flat_map after_space numbers.now) }
{
    for number in numbers {
        write!(line, " {number}")?;
    }
    Ok(())
}

// Adds the lines of the workers.
fn push_workers(alloc: Global, lines: &mut Vec<String>, world: &World) -> Result<(), AllocError>
    ensures { OnOk result (map string_bytes lines.new.items
        ≡ map string_bytes lines.old.items ++ map (line_of_worker world.now.run)
        (range_with_len 0 world.now.run.assignment.workers)) }
{
    for worker in 0..world.workers() {
        lines.push(worker_line(alloc, worker, world.working(worker))?)?;
    }
    Ok(())
}

// The line of a worker.
fn worker_line(alloc: Global, worker: u8, working: Option<&Working>) -> Result<String, AllocError>
    ensures { IfOk result (λ line. string_bytes line
        ≡ worker_line worker (option_map (λ working. working.now) working.entry)) }
{
    let mut line = format!(in alloc; "worker {worker} ")?;
    push_working(&mut line, working)?;
    line.push_str("\n")?;
    Ok(line)
}

// Adds the operation that a worker has under way.
fn push_working(line: &mut String, working: Option<&Working>) -> Result<(), AllocError>
    ensures { OnOk result (string_bytes line.new ≡ string_bytes line.old
        ++ words_of_working (option_map (λ working. working.now) working.entry)) }
{
    let Some(working) = working else {
        return line.push_str("-");
    };
    write!(line, "{} ", working.place)?;
    push_dotted(line, working.machine.remembered())?;
    line.push_str(" ")?;
    push_job(line, working.machine.job())?;
    line.push_str(" ")?;
    push_state(line, working.machine.state())
}

// Adds the lines of the pages.
fn push_pages(alloc: Global, lines: &mut Vec<String>, world: &World) -> Result<(), AllocError>
    ensures { OnOk result (map string_bytes lines.new.items
        ≡ map string_bytes lines.old.items ++ map (line_of_number world.now.run.shared)
        (range_with_len 1 (length world.now.run.shared.store.pages))) }
{
    let store = world.store();
    for before in 0..store.pages() {
        let number = before + 1;
        let holder = world.latches().holder(number);
        lines.push(page_line(alloc, number, holder, store.read(number))?)?;
    }
    Ok(())
}

// The line of a page.
fn page_line(
    alloc: Global,
    number: u32,
    holder: Option<u8>,
    page: &Page,
) -> Result<String, AllocError>
    ensures { IfOk result (λ line. string_bytes line ≡ line_of_page number holder page.now) }
{
    let mut line = format!(in alloc; "page {number} {} ", OrDash(holder.map(u64::from)))?;
    push_page(&mut line, page)?;
    push_entries(&mut line, &page.items)?;
    line.push_str("\n")?;
    Ok(line)
}

// Adds the part of a line that is about the page itself.
fn push_page(line: &mut String, page: &Page) -> Result<(), AllocError>
    ensures { OnOk result (string_bytes line.new ≡ string_bytes line.old ++ words_of_page page.now) }
{
    let level = page.level;
    let floor = OrDash(page.floor);
    let high = page.high;
    let right = OrDash(page.right.map(u64::from));
    write!(line, "{level} {floor} {high} {right}")
}

/// Adds the lines of operations that have decided, by their places in the batch.
pub(crate) fn push_decided(
    text: &mut String,
    answers: &[Option<Answer>],
    places: &[u32],
) -> Result<(), AllocError>
    ensures { OnOk result (string_bytes text.new
        ≡ string_bytes text.old ++ flat_map (decided_line answers.now) places.now) }
{
    for &place in places {
        let answer = answers.get(place as usize).copied();
        writeln!(text, "decided {place} {}", Answered(answer))?;
    }
    Ok(())
}

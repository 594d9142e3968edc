// The same steps on both tables, where their rules agree.
use crate::answers::{FRAME_7, FRAME_4096, at, same};
use paging::{Entry, FlatTable, PageTable, TwoLevelTable, Word};
use std::test::Fail;

// Steps over any table of which nothing is ready, where the rules of both agree: no range of these runs out of leaves.
fn steps<P: PageTable>(table: &mut P) -> Result<(), Fail> {
    same(table.put(0, 10, FRAME_7), at(0, 10))?;
    same(table.reserve(0, 60, 10), Ok(()))?;
    same(table.put(0, 59, FRAME_7), at(0, 59))?;
    same(table.put(0, 63, FRAME_7), Ok(()))?;
    same(table.put(0, 64, FRAME_7), Ok(()))?;
    same(table.put(0, 65, FRAME_4096), at(0, 65))?;
    same(table.reserve(0, 63, 200), Ok(()))?;
    same(table.look(0, 63), FRAME_7)?;
    same(table.look(0, 64), FRAME_7)?;
    same(table.look(0, 65), Entry::Absent)?;
    same(table.look(1, 63), Entry::Absent)?;
    table.release(0, 64, 1);
    same(table.look(0, 63), FRAME_7)?;
    same(table.put(0, 64, FRAME_7), at(0, 64))?;
    same(table.put(0, 65, FRAME_7), Ok(()))?;
    same(table.reserve(0, 64, 1), Ok(()))?;
    same(table.look(0, 64), Entry::Absent)?;
    same(table.reserve(31, P::PAGES.saturating_sub(1), 1), Ok(()))?;
    same(table.reserve(31, 5, 0), at(31, 5))?;
    same(table.reserve(32, 5, 1), at(32, 5))?;
    same(table.reserve(31, P::PAGES, 1), at(31, P::PAGES))?;
    table.release(0, 0, u32::MAX);
    same(table.look(0, 63), Entry::Absent)?;
    same(table.look(0, 65), Entry::Absent)?;
    same(table.put(31, P::PAGES.saturating_sub(1), FRAME_7), Ok(()))?;
    Ok(())
}

// At and past the last page of the last process, on a table of so many pages to a process of which nothing is ready.
pub(crate) fn last_process_and_page<P: PageTable>(table: &mut P, pages: u32) -> Result<(), Fail> {
    let last = pages.saturating_sub(1);
    same(table.reserve(31, last, 1), Ok(()))?;
    same(table.put(31, last, FRAME_7), Ok(()))?;
    same(table.look(31, last), FRAME_7)?;
    same(table.look(31, pages), Entry::Absent)?;
    same(table.look(32, last), Entry::Absent)?;
    same(table.put(31, pages, FRAME_7), at(31, pages))?;
    same(table.put(32, last, FRAME_7), at(32, last))?;
    same(table.put(32, 0, FRAME_7), at(32, 0))?;
    same(table.put(31, last, FRAME_4096), at(31, last))?;
    same(table.look(31, last), FRAME_7)?;
    same(table.reserve(31, pages, 1), at(31, pages))?;
    same(table.reserve(31, last, 2), at(31, last))?;
    same(table.reserve(32, 0, 1), at(32, 0))?;
    Ok(())
}

// Ranges that are ruled out, each of which names its own page; then the longest that fits. Nothing is ready before.
pub(crate) fn ranges_that_never_fit<P: PageTable>(table: &mut P, pages: u32) -> Result<(), Fail> {
    let last = pages.saturating_sub(1);
    same(table.reserve(0, 5, 0), at(0, 5))?;
    same(table.reserve(0, 70, 0), at(0, 70))?;
    same(table.reserve(0, 0, pages.saturating_add(1)), at(0, 0))?;
    same(table.reserve(0, last, 2), at(0, last))?;
    same(table.reserve(0, pages, 1), at(0, pages))?;
    same(table.reserve(0, 1, u32::MAX), at(0, 1))?;
    same(table.reserve(0, u32::MAX, 1), at(0, u32::MAX))?;
    same(table.reserve(0, u32::MAX, u32::MAX), at(0, u32::MAX))?;
    same(table.reserve(32, 70, 1), at(32, 70))?;
    same(table.reserve(u32::MAX, 70, 1), at(u32::MAX, 70))?;
    same(
        table.reserve(u32::MAX, u32::MAX, u32::MAX),
        at(u32::MAX, u32::MAX),
    )?;
    same(table.look(u32::MAX, u32::MAX), Entry::Absent)?;
    same(table.put(0, 70, FRAME_7), at(0, 70))?;
    same(table.reserve(0, 0, pages), Ok(()))?;
    Ok(())
}

// A release ends with the process's pages, and one of nothing changes nothing. Nothing is ready before.
pub(crate) fn release_past_the_end<P: PageTable>(table: &mut P, pages: u32) -> Result<(), Fail> {
    let last = pages.saturating_sub(1);
    let next_to_last = pages.saturating_sub(2);
    same(table.reserve(0, next_to_last, 2), Ok(()))?;
    same(table.reserve(1, 0, 1), Ok(()))?;
    same(table.put(0, next_to_last, FRAME_7), Ok(()))?;
    same(table.put(0, last, FRAME_7), Ok(()))?;
    same(table.put(1, 0, FRAME_7), Ok(()))?;
    table.release(0, last, u32::MAX);
    same(table.look(0, next_to_last), FRAME_7)?;
    same(table.look(0, last), Entry::Absent)?;
    same(table.put(0, last, FRAME_7), at(0, last))?;
    same(table.look(1, 0), FRAME_7)?;
    table.release(0, u32::MAX, u32::MAX);
    table.release(32, 0, u32::MAX);
    table.release(0, 0, 0);
    table.release(0, next_to_last, 0);
    same(table.look(0, next_to_last), FRAME_7)?;
    same(table.look(1, 0), FRAME_7)?;
    Ok(())
}

// An entry is taken away and the page stays ready. It is not ready before. The page is two numbers, as the table takes it.
pub(crate) fn putting_absent<P: PageTable>(
    table: &mut P,
    process: u32,
    page: u32,
) -> Result<(), Fail> {
    same(table.reserve(process, page, 1), Ok(()))?;
    same(table.put(process, page, FRAME_7), Ok(()))?;
    same(table.put(process, page, Entry::Absent), Ok(()))?;
    same(table.look(process, page), Entry::Absent)?;
    Ok(())
}

#[test]
fn on_the_flat_table(rt: HostRuntime) -> Result<(), Fail> {
    let mut memory = vec![in rt.alloc(); 0 as Word; 32768]?;
    steps(&mut FlatTable::new(memory.as_mut_slice()))
}

#[test]
fn on_the_two_level_table() -> Result<(), Fail> {
    steps(&mut TwoLevelTable::new())
}

// The flat table.
ghost use Rattle.paging.specs.Flat.{WroteIf};
ghost use Rattle.paging.specs.Window.{replaced};

use crate::answers::{FRAME_7, FRAME_4096, at};
use crate::both;
use paging::{Entry, Fault, FlatTable, PageTable, Word};
use std::test::Fail;

// The owner of the memory knows what was written once the table is let go.
fn lend(memory: &mut [Word], entry: Entry) -> Result<(), Fault>
    ensures { WroteIf result (replaced entry) 1 5 1 memory.old memory.new }
{
    let mut table = FlatTable::new(memory);
    table.put(1, 5, entry)
}

#[test]
fn last_process_and_page(rt: HostRuntime) -> Result<(), Fail> {
    let mut memory = vec![in rt.alloc(); 0 as Word; 32768]?;
    assert_eq!(rt; FlatTable::PAGES, 1024);
    both::last_process_and_page(&mut FlatTable::new(memory.as_mut_slice()), 1024)
}

#[test]
fn ranges_that_never_fit(rt: HostRuntime) -> Result<(), Fail> {
    let mut memory = vec![in rt.alloc(); 0 as Word; 32768]?;
    both::ranges_that_never_fit(&mut FlatTable::new(memory.as_mut_slice()), 1024)
}

#[test]
fn pages_past_every_table(rt: HostRuntime) -> Result<(), Fail> {
    let mut memory = vec![in rt.alloc(); 0xa007 as Word; 32768]?;
    let mut table = FlatTable::new(memory.as_mut_slice());
    assert_eq!(rt; table.look(0, u32::MAX), Entry::Absent);
    assert_eq!(rt; table.look(u32::MAX, 0), Entry::Absent);
    assert_eq!(rt; table.put(0, u32::MAX, FRAME_7), at(0, u32::MAX));
    assert_eq!(rt; table.put(u32::MAX, 0, FRAME_7), at(u32::MAX, 0));
    table.release(u32::MAX, 0, u32::MAX);
    table.release(0, 0, 0);
    assert_eq!(rt; table.look(0, 0), FRAME_7);
    Ok(())
}

#[test]
fn a_word_that_counts_as_unready_is_an_unready_page(rt: HostRuntime) -> Result<(), Fail> {
    for word in [1 as Word, 0x3fff, 0x4001, 0x7fff, 0xc000, 0xffff] {
        let mut memory = vec![in rt.alloc(); word; 32768]?;
        let mut table = FlatTable::new(memory.as_mut_slice());
        assert_eq!(rt; table.look(3, 4), Entry::Absent);
        assert_eq!(rt; table.put(3, 4, FRAME_7), at(3, 4));
    }
    Ok(())
}

#[test]
fn release_past_the_end_stays_in_its_window(rt: HostRuntime) -> Result<(), Fail> {
    let mut memory = vec![in rt.alloc(); 0 as Word; 32768]?;
    both::release_past_the_end(&mut FlatTable::new(memory.as_mut_slice()), 1024)
}

#[test]
fn short_memory_has_no_page(rt: HostRuntime) -> Result<(), Fail> {
    let mut memory = vec![in rt.alloc(); 0x9003 as Word; 32767]?;
    let mut table = FlatTable::new(memory.as_mut_slice());
    assert_eq!(rt; table.look(0, 0), Entry::Absent);
    assert_eq!(rt; table.reserve(0, 0, 1), at(0, 0));
    assert_eq!(rt; table.put(0, 0, FRAME_7), at(0, 0));
    table.release(0, 0, 1024);
    assert_eq!(rt; memory.iter().copied().min(), Some(0x9003));
    assert_eq!(rt; memory.iter().copied().max(), Some(0x9003));
    Ok(())
}

#[test]
fn making_clears_nothing_and_longer_memory_is_kept(rt: HostRuntime) -> Result<(), Fail> {
    let mut memory = vec![in rt.alloc(); 0x9003 as Word; 32769]?;
    let mut table = FlatTable::new(memory.as_mut_slice());
    let found = table.look(31, 1023);
    for process in 0..40 {
        table.release(process, 0, u32::MAX);
    }
    let left = table.look(31, 1023);
    assert_eq!(rt; memory.get(32767).copied(), Some(0));
    assert_eq!(rt; memory.get(32768).copied(), Some(0x9003));
    assert_eq!(rt; left, Entry::Absent);
    assert_eq!(rt; found, Entry::present(3, false, true));
    Ok(())
}

#[test]
fn reserve_over_words_of_every_kind(rt: HostRuntime) -> Result<(), Fail> {
    let mut memory = vec![in rt.alloc(); 0 as Word; 32768]?;
    let words = [
        0 as Word, 1, 0x3fff, 0x4000, 0x4001, 0x7fff, 0xc000, 0xffff, 0xa007,
    ];
    for (place, word) in memory.iter_mut().zip(words) {
        *place = word;
    }
    let mut table = FlatTable::new(memory.as_mut_slice());
    assert_eq!(rt; table.reserve(0, 0, 9), Ok(()));
    assert_eq!(rt; table.look(0, 8), FRAME_7);
    assert_eq!(rt; memory.get(..8), Some([0x4000; 8].as_slice()));
    assert_eq!(rt; memory.get(8).copied(), Some(0xa007));
    assert_eq!(rt; memory.get(9).copied(), Some(0));
    Ok(())
}

#[test]
fn putting_absent_leaves_the_page_ready(rt: HostRuntime) -> Result<(), Fail> {
    let mut memory = vec![in rt.alloc(); 0 as Word; 32768]?;
    assert_eq!(rt; lend(memory.as_mut_slice(), FRAME_7), at(1, 5));
    both::putting_absent(&mut FlatTable::new(memory.as_mut_slice()), 1, 5)?;
    assert_eq!(rt; lend(memory.as_mut_slice(), FRAME_7), Ok(()));
    assert_eq!(rt; memory.get(1029).copied(), Some(0xa007));
    Ok(())
}

#[test]
fn a_frame_too_large_is_refused(rt: HostRuntime) -> Result<(), Fail> {
    let mut memory = vec![in rt.alloc(); 0x4000 as Word; 32768]?;
    let mut table = FlatTable::new(memory.as_mut_slice());
    assert_eq!(rt; table.put(0, 9, FRAME_4096), at(0, 9));
    assert_eq!(rt; table.put(1, 9, FRAME_7), Ok(()));
    assert_eq!(rt; table.put(1, 9, FRAME_4096), at(1, 9));
    assert_eq!(rt; table.look(0, 9), Entry::Absent);
    assert_eq!(rt; table.look(1, 9), FRAME_7);
    Ok(())
}

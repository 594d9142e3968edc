// The two-level table.
use crate::answers::{FRAME_7, at};
use crate::both;
use paging::{Entry, PageTable, TwoLevelTable};
use std::test::Fail;

#[test]
fn nothing_is_ready_at_first(rt: HostRuntime) {
    let mut table = TwoLevelTable::new();
    for process in 0..32 {
        for block in 0..64 {
            assert_eq!(rt;
                table.put(process, block * 64, FRAME_7),
                at(process, block * 64)
            );
        }
    }
    assert_eq!(rt; table.look(0, 0), Entry::Absent);
}

#[test]
fn last_process_and_page(rt: HostRuntime) -> Result<(), Fail> {
    assert_eq!(rt; TwoLevelTable::PAGES, 4096);
    both::last_process_and_page(&mut TwoLevelTable::new(), 4096)
}

#[test]
fn a_range_that_is_ruled_out_names_its_own_page() -> Result<(), Fail> {
    both::ranges_that_never_fit(&mut TwoLevelTable::new(), 4096)
}

#[test]
fn from_the_last_page_of_a_block_to_the_first_of_the_next(rt: HostRuntime) {
    let mut table = TwoLevelTable::new();
    assert_eq!(rt; table.reserve(2, 127, 2), Ok(()));
    assert_eq!(rt; table.put(2, 126, FRAME_7), at(2, 126));
    assert_eq!(rt; table.put(2, 127, FRAME_7), Ok(()));
    assert_eq!(rt; table.put(2, 128, FRAME_7), Ok(()));
    assert_eq!(rt; table.put(2, 129, FRAME_7), at(2, 129));
    table.release(2, 127, 1);
    assert_eq!(rt; table.look(2, 127), Entry::Absent);
    assert_eq!(rt; table.put(2, 127, FRAME_7), at(2, 127));
    assert_eq!(rt; table.look(2, 128), FRAME_7);
}

#[test]
fn block_64_is_no_block_of_the_next_process(rt: HostRuntime) {
    let mut table = TwoLevelTable::new();
    assert_eq!(rt; table.reserve(1, 0, 64), Ok(()));
    assert_eq!(rt; table.put(1, 0, FRAME_7), Ok(()));
    assert_eq!(rt; table.look(0, 4096), Entry::Absent);
    assert_eq!(rt; table.put(0, 4096, FRAME_7), at(0, 4096));
    assert_eq!(rt; table.reserve(0, 4096, 1), at(0, 4096));
    table.release(0, 4096, 64);
    table.release(0, 4000, u32::MAX);
    assert_eq!(rt; table.look(1, 0), FRAME_7);
}

#[test]
fn all_leaves_and_one_more(rt: HostRuntime) {
    let mut table = TwoLevelTable::new();
    for process in 0..4 {
        assert_eq!(rt; table.reserve(process, 0, 4096), Ok(()));
    }
    assert_eq!(rt; table.put(3, 4095, FRAME_7), Ok(()));
    // The first page of the block, where the range begins inside it.
    assert_eq!(rt; table.reserve(4, 100, 1), at(4, 64));
    assert_eq!(rt; table.reserve(31, 4095, 1), at(31, 4032));
    assert_eq!(rt; table.put(4, 100, FRAME_7), at(4, 100));
    // A range that is ruled out names its own page, where no leaf is free too.
    assert_eq!(rt; table.reserve(4, 100, 0), at(4, 100));
    assert_eq!(rt; table.reserve(4, 100, 4096), at(4, 100));
    // What holds a leaf lacks none.
    assert_eq!(rt; table.reserve(3, 0, 4096), Ok(()));
    assert_eq!(rt; table.look(3, 4095), FRAME_7);
}

#[test]
fn as_many_as_are_free_and_one_more(rt: HostRuntime) {
    let mut table = TwoLevelTable::new();
    for process in 0..3 {
        assert_eq!(rt; table.reserve(process, 0, 4096), Ok(()));
    }
    // 62 blocks more: 2 leaves are free.
    assert_eq!(rt; table.reserve(3, 0, 3968), Ok(()));
    assert_eq!(rt; table.reserve(4, 63, 66), at(4, 128));
    assert_eq!(rt; table.put(4, 63, FRAME_7), at(4, 63));
    assert_eq!(rt; table.put(4, 64, FRAME_7), at(4, 64));
    assert_eq!(rt; table.reserve(4, 63, 65), Ok(()));
    assert_eq!(rt; table.put(4, 127, FRAME_7), Ok(()));
    assert_eq!(rt; table.reserve(4, 128, 1), at(4, 128));
}

#[test]
fn blocks_that_hold_a_leaf_are_passed_over(rt: HostRuntime) {
    let mut table = TwoLevelTable::new();
    for process in 0..3 {
        assert_eq!(rt; table.reserve(process, 0, 4096), Ok(()));
    }
    assert_eq!(rt; table.reserve(3, 0, 3840), Ok(()));
    // 4 leaves are free. Blocks 1 and 3 take two of them.
    assert_eq!(rt; table.reserve(4, 70, 1), Ok(()));
    assert_eq!(rt; table.reserve(4, 200, 1), Ok(()));
    // Blocks 0 to 5 lack four: 0 and 2 get one, and 4 gets none.
    assert_eq!(rt; table.reserve(4, 10, 350), at(4, 256));
    // Blocks 0 to 3 lack two.
    assert_eq!(rt; table.reserve(4, 10, 246), Ok(()));
    assert_eq!(rt; table.put(4, 255, FRAME_7), Ok(()));
}

#[test]
fn a_leaf_is_given_back_with_its_last_ready_page(rt: HostRuntime) {
    let mut table = TwoLevelTable::new();
    for process in 0..4 {
        assert_eq!(rt; table.reserve(process, 0, 4096), Ok(()));
    }
    assert_eq!(rt; table.put(1, 64, FRAME_7), Ok(()));
    // All of block 1 but its first page; then that too.
    table.release(1, 65, 63);
    assert_eq!(rt; table.look(1, 64), FRAME_7);
    assert_eq!(rt; table.reserve(4, 0, 1), at(4, 0));
    table.release(1, 64, 1);
    assert_eq!(rt; table.reserve(4, 0, 1), Ok(()));
    // No page of the block that has it now is ready but the one that was asked for.
    assert_eq!(rt; table.look(4, 0), Entry::Absent);
    assert_eq!(rt; table.put(4, 1, FRAME_7), at(4, 1));
    assert_eq!(rt; table.reserve(4, 64, 1), at(4, 64));
}

#[test]
fn release_of_a_part_over_blocks(rt: HostRuntime) {
    let mut table = TwoLevelTable::new();
    for process in 0..4 {
        assert_eq!(rt; table.reserve(process, 0, 4096), Ok(()));
    }
    for page in [9, 10, 63, 64, 127, 128, 200, 201] {
        assert_eq!(rt; table.put(0, page, FRAME_7), Ok(()));
    }
    // The end of block 0, all of blocks 1 and 2, and the beginning of block 3.
    table.release(0, 10, 191);
    assert_eq!(rt; table.look(0, 9), FRAME_7);
    for page in [10, 63, 64, 127, 128, 200] {
        assert_eq!(rt; table.look(0, page), Entry::Absent);
        assert_eq!(rt; table.put(0, page, FRAME_7), at(0, page));
    }
    assert_eq!(rt; table.look(0, 201), FRAME_7);
    // Two leaves came back.
    assert_eq!(rt; table.reserve(4, 0, 129), at(4, 128));
    assert_eq!(rt; table.reserve(4, 0, 128), Ok(()));
}

#[test]
fn release_past_the_end() -> Result<(), Fail> {
    both::release_past_the_end(&mut TwoLevelTable::new(), 4096)
}

#[test]
fn release_past_the_end_gives_the_last_leaf_back(rt: HostRuntime) {
    let mut table = TwoLevelTable::new();
    for process in 0..4 {
        assert_eq!(rt; table.reserve(process, 0, 4096), Ok(()));
    }
    table.release(3, 4032, u32::MAX);
    assert_eq!(rt; table.put(3, 4031, FRAME_7), Ok(()));
    assert_eq!(rt; table.reserve(4, 7, 1), Ok(()));
    assert_eq!(rt; table.reserve(3, 4090, 1), at(3, 4032));
}

#[test]
fn putting_absent_keeps_the_leaf(rt: HostRuntime) -> Result<(), Fail> {
    let mut table = TwoLevelTable::new();
    both::putting_absent(&mut table, 6, 70)?;
    assert_eq!(rt; table.put(6, 70, FRAME_7), Ok(()));
    assert_eq!(rt; table.look(6, 70), FRAME_7);
    Ok(())
}

#[test]
fn the_same_leaf_goes_round(rt: HostRuntime) {
    let mut table = TwoLevelTable::new();
    for process in 0..4 {
        assert_eq!(rt; table.reserve(process, 0, 4096), Ok(()));
    }
    for turn in 0..500 {
        let process = turn % 4;
        assert_eq!(rt; table.put(process, 5, FRAME_7), Ok(()));
        table.release(process, 0, 64);
        assert_eq!(rt; table.reserve(9, 640, 1), Ok(()));
        assert_eq!(rt; table.look(9, 645), Entry::Absent);
        assert_eq!(rt; table.reserve(process, 0, 1), at(process, 0));
        table.release(9, 600, 100);
        assert_eq!(rt; table.reserve(process, 0, 64), Ok(()));
        assert_eq!(rt; table.look(process, 5), Entry::Absent);
    }
}

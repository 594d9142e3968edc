// Where a page of the two-level table lies: its place, among the pages of all processes in a row. A block is 64 places in a row.
ghost use Rattle.std.specs.Prelude.{◌≡◌, ◌*◌, ◌/◌, ◌%◌, ◌<◌, ◌≤◌, option_map};
ghost use Rattle.paging.specs.Blocks.{block_pages, blocks, first_block, IsPart, known_place, past_block, process_blocks, span_end, span_start};

use crate::range::{PageRange, Pages};
use crate::table::PROCESSES;

// The most pages of a process.
pub(crate) const PAGES: u32 = 4096;

// The pages of a block, and the words of a leaf.
pub(crate) const BLOCK_PAGES: usize = 64;

// The blocks of a process.
const PROCESS_BLOCKS: usize = PAGES as usize / BLOCK_PAGES;

// How many blocks there are.
pub(crate) const BLOCKS: usize = PROCESSES as usize * PROCESS_BLOCKS;

// The place of a page that the table knows.
#[derive(Clone, Copy)]
pub(crate) struct Place {
    index: usize,
    ghost inside: { index < blocks * block_pages },
}

impl Place {
    // The place of a page, by the two numbers as they came in; none where the table does not know the page.
    pub(crate) fn of(process: u32, page: u32) -> Option<Self>
        ensures { option_map (λ place. place.index) result ≡ known_place process page }
    {
        if process >= PROCESSES || page >= PAGES {
            return None;
        }
        let index = process as usize * PAGES as usize + page as usize;
        Some(Place { index })
    }

    // The block that the page lies in.
    pub(crate) fn block(self) -> Block
        ensures { result.number ≡ self.index / block_pages }
    {
        Block {
            number: self.index / BLOCK_PAGES,
        }
    }

    // Which of the block's pages it is.
    pub(crate) fn page(self) -> u32
        ensures { result ≡ self.index % block_pages }
    {
        (self.index % BLOCK_PAGES) as u32
    }
}

// A block, by its number among those of all processes in a row.
#[derive(Clone, Copy)]
pub(crate) struct Block {
    pub(crate) number: usize,
    ghost inside: { number < blocks },
}

impl Block {
    // The first page, in its process.
    pub(crate) fn first_page(self) -> u32
        ensures { result ≡ self.number % process_blocks * block_pages }
    {
        (self.number % PROCESS_BLOCKS * BLOCK_PAGES) as u32
    }

    // The block's pages that lie in the span.
    pub(crate) fn pages_in(self, span: Span) -> Pages
        ensures { IsPart self.number span.start span.end result.first result.count }
    {
        let base = self.number * BLOCK_PAGES;
        let first = span.start.saturating_sub(base).min(BLOCK_PAGES);
        let past = span.end.saturating_sub(base).min(BLOCK_PAGES);
        Pages {
            first: first as u32,
            count: past.saturating_sub(first) as u32,
        }
    }
}

// Places in a row: from `start` up to `end`.
#[derive(Clone, Copy)]
pub(crate) struct Span {
    start: usize,
    end: usize,
    ghost ordered: { start ≤ end },
    ghost inside: { end ≤ blocks * block_pages },
}

// The places of a range's pages, as far as the table knows them.
impl From<PageRange> for Span {
    ghost from_gives = { λ range span. (span.start ≡ span_start range.process range.pages.first) × (span.end ≡ span_end range.process range.pages.first range.pages.count) };

    fn from(range: PageRange) -> Self {
        if range.process >= PROCESSES {
            return Span { start: 0, end: 0 };
        }
        let Pages { first, count } = range.pages;
        let first = first.min(PAGES);
        let past = first + count.min(PAGES - first);
        let base = range.process as usize * PAGES as usize;
        Span {
            start: base + first as usize,
            end: base + past as usize,
        }
    }
}

impl Span {
    // The number of the block that the first place lies in.
    pub(crate) fn first_block(self) -> usize
        ensures { result ≡ first_block self.start }
    {
        self.start / BLOCK_PAGES
    }

    // The number after that of the block that the last place lies in.
    pub(crate) fn past_block(self) -> usize
        ensures { result ≡ past_block self.end }
    {
        (self.end + BLOCK_PAGES - 1) / BLOCK_PAGES
    }
}

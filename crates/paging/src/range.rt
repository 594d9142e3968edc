// Ranges of pages: some pages in a row, and those of a process.
ghost use Rattle.std.specs.Prelude.{◌≡◌, ◌+◌, min};
ghost use Rattle.paging.specs.Ranges.{ruled_out};

use crate::page::Fault;
use crate::table::PROCESSES;
use std::ops::Range;

// Pages in a row: `count` of them from `first`.
#[derive(Clone, Copy)]
pub(crate) struct Pages {
    pub(crate) first: u32,
    pub(crate) count: u32,
}

impl Pages {
    // The places of those that are among the first `len` pages.
    pub(crate) fn within(self, len: usize) -> Range<usize>
        ensures start { result.start ≡ min self.first len }
        ensures end { result.end ≡ min (self.first + self.count) len }
    {
        let start = (self.first as usize).min(len);
        start..start + (self.count as usize).min(len - start)
    }
}

// Pages of a process, as a caller names them: any numbers at all.
#[derive(Clone, Copy)]
pub(crate) struct PageRange {
    pub(crate) process: u32,
    pub(crate) pages: Pages,
}

impl PageRange {
    // The `count` pages of the process from `first`.
    pub(crate) fn new(process: u32, first: u32, count: u32) -> Self
        ensures { result ≡ record { process = process; pages = record { first = first; count = count } } }
    {
        PageRange {
            process,
            pages: Pages { first, count },
        }
    }

    // Whether the range fits in no table with so many pages to a process.
    pub(crate) fn is_ruled_out(self, most: u32) -> bool
        ensures { result ≡ ruled_out most self.process self.pages.first self.pages.count }
    {
        let Pages { first, count } = self.pages;
        count == 0 || self.process >= PROCESSES || first > most || count > most - first
    }

    // The fault that names the range's own process and first page. Not a From: not every fault of a range is this one.
    pub(crate) fn fault(self) -> Fault
        ensures { result ≡ record { process = self.process; page = self.pages.first } }
    {
        Fault {
            process: self.process,
            page: self.pages.first,
        }
    }
}

// The two-level table: it owns its leaves, and a block holds one exactly while one of its pages is ready.
ghost use Rattle.std.specs.Prelude.{◌≡◌, ℕ, false, is_ok};
ghost use Rattle.paging.specs.Blocks.{two_level_pages};
ghost use Rattle.paging.specs.Effects.{Reserves};
ghost use Rattle.paging.specs.Lacking.{two_level_fits};
ghost use Rattle.paging.specs.TwoLevel.{block_ready, two_level, two_level_ready};
ghost use Rattle.paging.specs.TwoLevelLawful.{two_level_lawful};

use crate::levels::Levels;
use crate::page::{Entry, Fault};
use crate::place::{self, Place, Span};
use crate::range::PageRange;
use crate::table::PageTable;

// A page table of 256 leaves with 64 words each, which it owns.
#[derive(Drop)]
pub struct TwoLevelTable {
    levels: Levels,
}

impl TwoLevelTable {
    // A table of which no page is ready.
    pub fn new() -> Self
        ensures { (p q : ℕ) → two_level_ready result.levels p q ≡ false }
    {
        TwoLevelTable {
            levels: Levels::new(),
        }
    }
}

impl PageTable for TwoLevelTable {
    const PAGES: u32 = place::PAGES;

    ghost pages = { two_level_pages };

    ghost meaning = { λ t. two_level t.levels };

    ghost lawful = { λ t. two_level_lawful t.levels };

    fn most_pages() -> u32 {
        Self::PAGES
    }

    fn reserve(&mut self, process: u32, first: u32, count: u32) -> Result<(), Fault>
        ensures reserves { Reserves (two_level self.old.levels) process first count result (two_level self.new.levels) }
        ensures exactly { is_ok result ≡ two_level_fits (block_ready (two_level_ready self.old.levels)) process first count }
    {
        let range = PageRange::new(process, first, count);
        self.levels.check(range)?;
        self.levels.reserve(Span::from(range));
        Ok(())
    }

    fn release(&mut self, process: u32, first: u32, count: u32) {
        self.levels
            .release(Span::from(PageRange::new(process, first, count)));
    }

    fn look(&self, process: u32, page: u32) -> Entry {
        let Some(place) = Place::of(process, page) else {
            return Entry::Absent;
        };
        self.levels.look(place).entry()
    }

    fn put(&mut self, process: u32, page: u32, entry: Entry) -> Result<(), Fault> {
        let fault = Fault { process, page };
        match Place::of(process, page) {
            Some(place) => self.levels.put(place, entry).map_err(|_| fault),
            None => Err(fault),
        }
    }
}

// A leaf: the stored words of the pages of a block, and how many of them are ready.
ghost use Rattle.std.specs.Prelude.{◌≡◌, length, replicate, MatchResult, ◌==◌};
ghost use Rattle.paging.specs.Blocks.{block_pages};
ghost use Rattle.paging.specs.Window.{put_answer, readied, ready_in, replaced, Rewrites, unreadied, window_state};

use crate::codec::{UNREADY, Word};
use crate::page::{Entry, PageState};
use crate::place::BLOCK_PAGES;
use crate::range::Pages;
use crate::window::{self, PutError};

#[derive(Clone, Copy)]
pub(crate) struct Leaf {
    words: [Word; BLOCK_PAGES],
    ready: usize,
    ghost sized: { length words ≡ block_pages },
    ghost counted: { ready ≡ ready_in words },
}

impl Leaf {
    // A leaf of which no page is ready.
    pub(crate) fn empty() -> Self
        ensures { result.words ≡ replicate block_pages 0 }
    {
        Leaf {
            words: [UNREADY; BLOCK_PAGES],
            ready: 0,
        }
    }

    // The state of a page.
    pub(crate) fn look(&self, page: u32) -> PageState
        ensures { result ≡ window_state self.now.words page }
    {
        window::look(&self.words, page)
    }

    // Replaces the entry of a ready page.
    pub(crate) fn put(&mut self, page: u32, entry: Entry) -> Result<(), PutError>
        ensures answer { result ≡ put_answer (window_state self.old.words page) entry }
        ensures after { MatchResult result (λ _. Rewrites (replaced entry) page 1 self.old.words self.new.words) (λ _. self.new.words ≡ self.old.words) }
    {
        window::put(&mut self.words, page, entry)
    }

    // Makes the leaf anew: the pages of a range are ready and absent, as far as the leaf goes, and no other is ready.
    // Not inlined, nor are reserve and release: else what the loop over words needs is worked out for each block, before it is known whether the block holds a leaf.
    #[inline(never)]
    pub(crate) fn renew(&mut self, pages: Pages)
        ensures { Rewrites readied pages.first pages.count (replicate block_pages 0) self.new.words }
    {
        self.ready = window::renew(&mut self.words, pages);
    }

    // Makes the pages of a range ready, as far as the leaf goes, and keeps their entries.
    #[inline(never)]
    pub(crate) fn reserve(&mut self, pages: Pages)
        ensures { Rewrites readied pages.first pages.count self.old.words self.new.words }
    {
        self.ready += window::reserve(&mut self.words, pages);
    }

    // Makes the pages of a range unready and absent, as far as the leaf goes. Answers whether none is ready any more.
    #[inline(never)]
    pub(crate) fn release(&mut self, pages: Pages) -> bool
        ensures words { Rewrites unreadied pages.first pages.count self.old.words self.new.words }
        ensures empty { result ≡ (ready_in self.new.words == 0) }
    {
        let lost = window::release(&mut self.words, pages);
        self.ready -= lost;
        self.ready == 0
    }
}

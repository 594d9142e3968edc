// The two levels: the directory that finds a block's leaf, and the leaves.
ghost use Rattle.std.specs.Prelude.{◌≡◌, ◌<◌, ◌≤◌, length, replicate, None, MatchResult, nat_eq, option_map};
ghost use Rattle.paging.specs.declared.page.PageState.TheVariants.{Ready};
ghost use Rattle.paging.specs.Blocks.{between, blocks, in_block, leaf_count, Meets};
ghost use Rattle.paging.specs.Directory.{Attached, held, holds, leaf_of};
ghost use Rattle.paging.specs.Lacking.{checked, first_without, free_leaves, span_lacks, two_level_fault};
ghost use Rattle.paging.specs.Leaves.{Used, words_in};
ghost use Rattle.paging.specs.States.{made_ready, made_unready};
ghost use Rattle.paging.specs.Window.{put_answer};

use crate::directory::{Directory, LEAVES};
use crate::leaf::Leaf;
use crate::page::{Entry, Fault, PageState};
use crate::place::{Block, PAGES, Place, Span};
use crate::range::PageRange;
use crate::window::PutError;

#[derive(Drop)]
pub(crate) struct Levels {
    directory: Directory,
    // A block holds the number of one of these and not a box: the table's memory is fixed.
    leaves: [Leaf; LEAVES],
    ghost sized: { length leaves ≡ leaf_count },
    // A leaf that a block holds has a ready page.
    ghost used: { Used directory.slots (words_in leaves) },
}

// A method that lends a leaf for writing first takes `self` apart: the checker cannot lend an element of a field for writing while a struct with ghost fields is whole.
impl Levels {
    // Not above the struct, whose ghost fields these definitions are about.
    ghost use Rattle.paging.specs.TwoLevel.{Changed, place_state, slots_of, words_of};

    // No block holds a leaf.
    pub(crate) fn new() -> Self
        ensures { slots_of result ≡ replicate blocks None }
    {
        Levels {
            directory: Directory::new(),
            leaves: [Leaf::empty(); LEAVES],
        }
    }

    // The state of the page at a place.
    pub(crate) fn look(&self, place: Place) -> PageState
        ensures { result ≡ place_state self.now place.index }
    {
        match self.directory.leaf_of(place.block()) {
            Some(leaf) => self.leaves[usize::from(leaf)].look(place.page()),
            None => PageState::Unready,
        }
    }

    // Replaces the entry of a ready page.
    pub(crate) fn put(&mut self, place: Place, entry: Entry) -> Result<(), PutError>
        ensures answer { result ≡ put_answer (place_state self.old place.index) entry }
        ensures slots { slots_of self.new ≡ slots_of self.old }
        ensures states { MatchResult result (λ _. Changed (λ _. Ready entry) (λ x. nat_eq x place.index) self.old self.new) (λ _. words_of self.new ≡ words_of self.old) }
    {
        let Levels { directory, leaves } = self;
        match directory.leaf_of(place.block()) {
            Some(leaf) => leaves[usize::from(leaf)].put(place.page(), entry),
            None => Err(PutError::Unready),
        }
    }

    // Makes the pages of the block ready that lie in the span, of which there are some. A block that lacks a leaf gets one.
    fn reserve_in(&mut self, block: Block, span: Span)
        requires some { Meets block.number span.start span.end }
        requires free { leaf_of (slots_of self.old) block.number ≡ None → held (slots_of self.old) < leaf_count }
        ensures states { Changed made_ready (in_block block.number span.start span.end) self.old self.new }
        ensures attached { Attached block.number (slots_of self.old) (slots_of self.new) }
    {
        let pages = block.pages_in(span);
        let Levels { directory, leaves } = self;
        match directory.leaf_of(block) {
            Some(leaf) => leaves[usize::from(leaf)].reserve(pages),
            None => leaves[usize::from(directory.attach(block))].renew(pages),
        }
    }

    // Makes the pages of the block unready that lie in the span. A leaf without a ready page is given back.
    fn release_in(&mut self, block: Block, span: Span)
        ensures { Changed made_unready (in_block block.number span.start span.end) self.old self.new }
    {
        let pages = block.pages_in(span);
        let Levels { directory, leaves } = self;
        if let Some(leaf) = directory.leaf_of(block) {
            if leaves[usize::from(leaf)].release(pages) {
                directory.detach(block);
            }
        }
    }

    // The first block of the span that gets no leaf: those that hold one are passed over, and each other one takes a free one. A `for`, as what is left is counted off on the way.
    fn first_without(&self, span: Span) -> Option<Block>
        ensures { option_map (λ block. block.number) result ≡ first_without (holds (slots_of self.now)) span.start span.end }
    {
        let mut left = self.directory.free_leaves();
        for number in span.first_block()..span.past_block() {
            let block = Block { number };
            let lacked = self.directory.lacking(block);
            if lacked > left {
                return Some(block);
            }
            left -= lacked;
        }
        None
    }

    // Whether a range fits, or else its fault.
    pub(crate) fn check(&self, range: PageRange) -> Result<(), Fault>
        ensures { result ≡ checked (two_level_fault (holds (slots_of self.now)) range.process range.pages.first range.pages.count) }
    {
        if range.is_ruled_out(PAGES) {
            return Err(range.fault());
        }
        match self.first_without(Span::from(range)) {
            Some(block) => Err(Fault {
                process: range.process,
                page: block.first_page(),
            }),
            None => Ok(()),
        }
    }

    // Makes the pages of the span ready. There are leaves for the blocks that lack one.
    pub(crate) fn reserve(&mut self, span: Span)
        requires some { span.start < span.end }
        requires free { span_lacks (holds (slots_of self.old)) span.start span.end ≤ free_leaves (holds (slots_of self.old)) }
        ensures { Changed made_ready (between span.start span.end) self.old self.new }
    {
        for number in span.first_block()..span.past_block() {
            self.reserve_in(Block { number }, span);
        }
    }

    // Makes the pages of the span unready and absent.
    pub(crate) fn release(&mut self, span: Span)
        ensures { Changed made_unready (between span.start span.end) self.old self.new }
    {
        for number in span.first_block()..span.past_block() {
            self.release_in(Block { number }, span);
        }
    }
}

// The directory: the leaf that each block holds, and the leaves that none holds, listed so that one is found without a search.
ghost use Rattle.std.specs.Prelude.{◌≡◌, ℕ, ◌+◌, ◌<◌, length, replicate, if◌then◌else◌, Some, None, slice_set};
ghost use Rattle.paging.specs.Directory.{held, holders, holds, leaf_of, times};
ghost use Rattle.paging.specs.Lacking.{free_leaves, lacks};
ghost use Rattle.paging.specs.Blocks.{blocks, leaf_count};

use crate::place::{BLOCKS, Block};
use arrayvec::ArrayVec;
use std::array;

// The number of a leaf. Each number of the type is one.
pub(crate) type LeafNumber = u8;

// How many leaves there are.
pub(crate) const LEAVES: usize = 256;

#[derive(Drop)]
pub(crate) struct Directory {
    slots: [Option<LeafNumber>; BLOCKS],
    free: ArrayVec<LeafNumber, LEAVES>,
    ghost sized: { length slots ≡ blocks },
    // Each leaf is held by one block, or is listed as free once.
    ghost once: { (l : ℕ) → l < leaf_count → holders slots l + times l free.items ≡ 1 },
    // So as many are free as no block holds: kept, and not summed anew.
    ghost all: { length free.items + held slots ≡ leaf_count },
}

impl Directory {
    // No block holds a leaf.
    pub(crate) fn new() -> Self
        ensures { result.slots ≡ replicate blocks None }
    {
        Directory {
            slots: [None; BLOCKS],
            free: ArrayVec::from(array::from_fn(|leaf| leaf as LeafNumber)),
        }
    }

    // The leaf that the block holds.
    pub(crate) fn leaf_of(&self, block: Block) -> Option<LeafNumber>
        ensures { result ≡ leaf_of self.now.slots block.number }
    {
        self.slots[block.number]
    }

    // How many leaves no block holds.
    pub(crate) fn free_leaves(&self) -> usize
        ensures { result ≡ free_leaves (holds self.now.slots) }
    {
        self.free.len()
    }

    // How many leaves the block lacks: one, or none.
    pub(crate) fn lacking(&self, block: Block) -> usize
        ensures { result ≡ (if lacks (holds self.now.slots) block.number then 1 else 0) }
    {
        match self.leaf_of(block) {
            Some(_) => 0,
            None => 1,
        }
    }

    // Gives the block the leaf that was listed last.
    pub(crate) fn attach(&mut self, block: Block) -> LeafNumber
        requires lacks { leaf_of self.old.slots block.number ≡ None }
        requires free { held self.old.slots < leaf_count }
        ensures was { holders self.old.slots result ≡ 0 }
        ensures now { self.new.slots ≡ slice_set self.old.slots block.number (Some result) }
    {
        let leaf = self.free.pop().unwrap();
        self.slots[block.number] = Some(leaf);
        leaf
    }

    // Takes the block's leaf from it, and lists it as free.
    pub(crate) fn detach(&mut self, block: Block)
        ensures { self.new.slots ≡ slice_set self.old.slots block.number None }
    {
        if let Some(leaf) = self.leaf_of(block) {
            self.slots[block.number] = None;
            self.free.push(leaf);
        }
    }
}

// The stored word of a page's state, and what each word means: the conversions there and back.
ghost use Rattle.std.specs.Prelude.{◌≡◌, Some};
ghost use Rattle.std.specs.Result.{result_ok};
ghost use Rattle.paging.specs.Shown.{frame_too_large_text};
ghost use Rattle.paging.specs.Word.{Exact, state_of, word_of};

use crate::page::{Entry, PageState};
use std::error::Error;
use std::fmt;

// A word as a table stores it.
pub type Word = u16;

// From the low end: the frame, the accessed bit, the write bit, and two bits for the kind of state.
const FRAME_BITS: u32 = 12;

const ACCESSED_BIT: u32 = FRAME_BITS;

const WRITE_BIT: u32 = ACCESSED_BIT + 1;

const KIND_BIT: u32 = WRITE_BIT + 1;

// The kinds: 0 is unready, and 3 has no use. Numbers, as they are bits of the word: an enum of them would be PageState once more, told apart by the same numbers.
const ABSENT: Word = 1;

const PRESENT: Word = 2;

// The words of the two states that map nothing.
pub(crate) const UNREADY: Word = 0;

pub(crate) const READY_ABSENT: Word = ABSENT << KIND_BIT;

// How many frames an entry can name.
const FRAMES: Word = 1 << FRAME_BITS;

// The greatest frame that an entry can hold.
pub const MAX_FRAME: u32 = FRAMES as u32 - 1;

// Why a state has no word: its frame is greater than any that an entry can hold.
#[derive(Clone, Copy, PartialEq, Eq, Debug)]
pub struct FrameTooLarge;

impl fmt::Display for FrameTooLarge {
    ghost output = { λ _. Some frame_too_large_text };

    fn fmt<W: fmt::Write>(&self, f: &mut fmt::Formatter<W>) -> fmt::Result {
        f.write_str("the frame is too large for an entry")
    }
}

impl Error for FrameTooLarge {}

// The word of a state.
impl TryFrom<PageState> for Word {
    type Error = FrameTooLarge;

    ghost try_from_gives = { λ state r. result_ok r ≡ word_of state };

    fn try_from(state: PageState) -> Result<Word, FrameTooLarge> {
        match state {
            PageState::Unready => Ok(UNREADY),
            PageState::Ready(Entry::Absent) => Ok(READY_ABSENT),
            PageState::Ready(
                Entry::Present {
                    frame,
                    write,
                    accessed,
                },
            ) => {
                if frame > MAX_FRAME {
                    return Err(FrameTooLarge);
                }
                let flags = (Word::from(write) << WRITE_BIT)
                    + (Word::from(accessed) << ACCESSED_BIT);
                Ok((PRESENT << KIND_BIT) + flags + frame as Word)
            }
        }
    }
}

// What a word means: a word that no state has counts as unready.
impl From<Word> for PageState {
    ghost from_gives = { λ word state. state ≡ state_of word };

    fn from(word: Word) -> Self {
        match word >> KIND_BIT {
            ABSENT if word == READY_ABSENT => PageState::Ready(Entry::Absent),
            PRESENT => PageState::Ready(Entry::Present {
                frame: u32::from(word % FRAMES),
                write: (word >> WRITE_BIT) % 2 == 1,
                accessed: (word >> ACCESSED_BIT) % 2 == 1,
            }),
            _ => PageState::Unready,
        }
    }
}

// Going there and back is the identity, and no second word has the same meaning.
pub fn codec_is_exact()
    ensures { Exact }
{}

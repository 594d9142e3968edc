// A window: the stored words of some pages, one after the other. A page past its end counts as unready.
ghost use Rattle.std.specs.Prelude.{◌≡◌, ◌+◌, ◌<◌, true, length, map, replicate, MatchResult};
ghost use Rattle.paging.specs.declared.window.PutError.TheVariants.{FrameTooLarge as too_large};
ghost use Rattle.paging.specs.States.{is_ready};
ghost use Rattle.paging.specs.Window.{put_answer, readied, ready_in, replaced, Rewrites, unreadied, window_state};

use crate::codec::{FrameTooLarge, READY_ABSENT, UNREADY, Word};
use crate::page::{Entry, PageState};
use crate::range::Pages;

// Why an entry cannot be put at a page.
#[derive(Clone, Copy, PartialEq, Eq, Debug)]
pub(crate) enum PutError {
    Unready,
    FrameTooLarge,
}

impl From<FrameTooLarge> for PutError {
    ghost from_gives = { λ _ error. error ≡ too_large };

    fn from(_: FrameTooLarge) -> Self {
        PutError::FrameTooLarge
    }
}

// The state of a page.
pub(crate) fn look(window: &[Word], page: u32) -> PageState
    ensures value { result ≡ window_state window.now page }
    ensures within { is_ready result ≡ true → page < length window.now }
{
    match window.get(page as usize) {
        Some(word) => PageState::from(*word),
        None => PageState::Unready,
    }
}

// Replaces the entry of a ready page.
pub(crate) fn put(window: &mut [Word], page: u32, entry: Entry) -> Result<(), PutError>
    ensures answer { result ≡ put_answer (window_state window.old page) entry }
    ensures after { MatchResult result (λ _. Rewrites (replaced entry) page 1 window.old window.new) (λ _. window.new ≡ window.old) }
{
    let PageState::Ready(_) = look(window, page) else {
        return Err(PutError::Unready);
    };
    let word = Word::try_from(PageState::Ready(entry))?;
    window[page as usize] = word;
    Ok(())
}

// The word of a page once it is ready: it keeps its entry, and one that was not ready is absent.
fn ready(word: Word) -> Word
    ensures { result ≡ readied word }
{
    match PageState::from(word) {
        PageState::Unready => READY_ABSENT,
        PageState::Ready(_) => word,
    }
}

// Makes the page of each word ready. Answers how many were not.
fn make_ready(words: &mut [Word]) -> usize
    ensures words { words.new ≡ map readied words.old }
    ensures gained { result + ready_in words.old ≡ length words.old }
{
    let mut gained = 0;
    for word in words.iter_mut() {
        // A word that changes is of a page that was not ready.
        gained += usize::from(ready(*word) != *word);
        *word = ready(*word);
    }
    gained
}

// Makes the page of each word unready. Answers how many were ready.
fn make_unready(words: &mut [Word]) -> usize
    ensures words { words.new ≡ map unreadied words.old }
    ensures lost { result ≡ ready_in words.old }
{
    let mut lost = 0;
    for word in words.iter_mut() {
        lost += usize::from(PageState::from(*word).is_ready());
        *word = UNREADY;
    }
    lost
}

// Makes the window anew: the pages of a range are ready and absent, as far as it goes, and no other is ready. Answers how many are.
#[tactic(auto, using(crate::proofs::Windows::part_filled, crate::proofs::ReadyCounts::all_filled))]
pub(crate) fn renew(window: &mut [Word], pages: Pages) -> usize
    ensures words { Rewrites readied pages.first pages.count (replicate (length window.old) 0) window.new }
    ensures ready { result ≡ ready_in window.new }
{
    let renewed = pages.within(window.len());
    window.fill(UNREADY);
    let ready = &mut window[renewed];
    ready.fill(READY_ABSENT);
    ready.len()
}

// Makes the pages of a range ready, as far as the window goes, and keeps their entries. Answers how many were not.
#[tactic(auto, using(crate::proofs::Windows::part_rewritten, crate::proofs::ReadyCounts::part_gained))]
pub(crate) fn reserve(window: &mut [Word], pages: Pages) -> usize
    ensures words { Rewrites readied pages.first pages.count window.old window.new }
    ensures gained { ready_in window.new ≡ ready_in window.old + result }
{
    let reserved = pages.within(window.len());
    make_ready(&mut window[reserved])
}

// Makes the pages of a range unready and absent, as far as the window goes. Answers how many were ready.
#[tactic(auto, using(crate::proofs::Windows::part_rewritten, crate::proofs::ReadyCounts::part_lost))]
pub(crate) fn release(window: &mut [Word], pages: Pages) -> usize
    ensures words { Rewrites unreadied pages.first pages.count window.old window.new }
    ensures lost { ready_in window.new + result ≡ ready_in window.old }
{
    let released = pages.within(window.len());
    make_unready(&mut window[released])
}

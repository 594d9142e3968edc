// The stored word.
ghost use Rattle.std.specs.Prelude.{◌≡◌};
ghost use Rattle.paging.specs.declared.page.Entry.TheVariants.{Present};
ghost use Rattle.paging.specs.declared.page.PageState.TheVariants.{Ready};

use crate::answers::FRAME_7;
use paging::{Entry, MAX_FRAME, PageState, Word};

// A page that is ready and present.
fn present(frame: u32, write: bool, accessed: bool) -> PageState
    ensures { result ≡ Ready (Present frame write accessed) }
{
    PageState::Ready(Entry::present(frame, write, accessed))
}

#[test]
fn lawful_words(rt: HostRuntime) {
    assert_eq!(rt; PageState::from(0), PageState::Unready);
    assert_eq!(rt; PageState::from(0x4000), PageState::Ready(Entry::Absent));
    assert_eq!(rt; PageState::from(0x8000), present(0, false, false));
    assert_eq!(rt; PageState::from(0x9003), present(3, false, true));
    assert_eq!(rt; PageState::from(0xa003), present(3, true, false));
    assert_eq!(rt; PageState::from(0xbfff), present(MAX_FRAME, true, true));
}

#[test]
fn entry_of_a_state(rt: HostRuntime) {
    assert_eq!(rt; PageState::Unready.entry(), Entry::Absent);
    assert_eq!(rt; PageState::Ready(Entry::Absent).entry(), Entry::Absent);
    assert_eq!(rt; PageState::from(0xa007).entry(), FRAME_7);
}

#[test]
fn any_other_word_counts_as_unready(rt: HostRuntime) {
    // Unready, and ready and absent, with another bit set; and the kind without a use.
    for word in [
        1 as Word, 0x0fff, 0x1000, 0x2000, 0x3fff, 0x4001, 0x5000, 0x6000, 0x7fff, 0xc000, 0xd003,
        0xffff,
    ] {
        assert_eq!(rt; PageState::from(word), PageState::Unready);
    }
}

#[test]
fn frames_that_have_a_word(rt: HostRuntime) {
    assert_eq!(rt;
        Word::try_from(present(4095, true, false)).ok(),
        Some(0xafff)
    );
    assert_eq!(rt; Word::try_from(present(4096, true, false)).ok(), None);
    assert_eq!(rt; Word::try_from(present(u32::MAX, false, true)).ok(), None);
}

#[test]
fn there_and_back_over_every_word(rt: HostRuntime) {
    let lawful = (0..=Word::MAX)
        .filter(|word| Word::try_from(PageState::from(*word)).ok() == Some(*word))
        .count();
    // Unready, ready and absent, and 4,096 frames with two bits each.
    assert_eq!(rt; lawful, 2 + 4 * 4096);
}

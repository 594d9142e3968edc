// The flat table: a word for each page of each process, in memory that its owner hands over.
ghost use Rattle.std.specs.Prelude.{◌≡◌};
ghost use Rattle.paging.specs.Effects.{Puts, Releases, Reserves};
ghost use Rattle.paging.specs.Flat.{flat, flat_pages, flat_state, window_start, Wrote, WroteIf};
ghost use Rattle.paging.specs.FlatLawful.{flat_lawful};
ghost use Rattle.paging.specs.Window.{readied, replaced, unreadied};

use crate::codec::Word;
use crate::page::{Entry, Fault, PageState};
use crate::range::PageRange;
use crate::table::{PROCESSES, PageTable};
use crate::window;

// A process's window has a word for each of its pages.
const WINDOW: usize = 1024;

// A page table in lent memory. The memory is its owner's again when the table is let go.
#[derive(Drop)]
pub struct FlatTable<'a> {
    words: &'a mut [Word],
}

impl<'a> FlatTable<'a> {
    // How many words the table takes.
    pub const WORDS: usize = WINDOW * PROCESSES as usize;

    // A table over the memory as it stands: nothing is cleared.
    pub fn new(words: &'a mut [Word]) -> Self
        ensures lent { result.words ≡ words.entry }
        ensures means { flat result.words.now ≡ flat words.old }
    {
        FlatTable { words }
    }
}

// That the lender stays the same is said of each call that changes the table: a field of one value could not say it.
impl<'a> PageTable for FlatTable<'a> {
    const PAGES: u32 = WINDOW as u32;

    ghost pages = { flat_pages };

    ghost meaning = { λ t. flat t.words.now };

    ghost lawful = { λ t. flat_lawful t.words.now };

    fn most_pages() -> u32
        ensures { result ≡ flat_pages }
    {
        Self::PAGES
    }

    fn reserve(&mut self, process: u32, first: u32, count: u32) -> Result<(), Fault>
        ensures reserves { Reserves (flat self.old.words.now) process first count result (flat self.new.words.now) }
        ensures wrote { WroteIf result readied process first count self.old.words.now self.new.words.now }
        ensures lender { self.new.words.ghost_name ≡ self.old.words.ghost_name }
    {
        reserve_in(self.words, PageRange::new(process, first, count))
    }

    fn release(&mut self, process: u32, first: u32, count: u32)
        ensures releases { Releases (flat self.old.words.now) process first count (flat self.new.words.now) }
        ensures wrote { Wrote unreadied process first count self.old.words.now self.new.words.now }
        ensures lender { self.new.words.ghost_name ≡ self.old.words.ghost_name }
    {
        release_in(self.words, PageRange::new(process, first, count));
    }

    fn look(&self, process: u32, page: u32) -> Entry {
        look_in(self.words, process, page).entry()
    }

    fn put(&mut self, process: u32, page: u32, entry: Entry) -> Result<(), Fault>
        ensures puts { Puts (flat self.old.words.now) process page entry result (flat self.new.words.now) }
        ensures wrote { WroteIf result (replaced entry) process page 1 self.old.words.now self.new.words.now }
        ensures lender { self.new.words.ghost_name ≡ self.old.words.ghost_name }
    {
        put_in(self.words, process, page, entry)
    }
}

// Where the process's window begins; none where the memory is too short or the process too large.
fn window_start(words: &[Word], process: u32) -> Option<usize>
    ensures { result ≡ window_start words.now process }
{
    if words.len() < FlatTable::WORDS || process >= PROCESSES {
        return None;
    }
    Some(process as usize * WINDOW)
}

// The memory goes whole to each of the functions below, which hands one process's window on. Process and page stay the two numbers that came in.

// Without a window the page is unready.
fn look_in(words: &[Word], process: u32, page: u32) -> PageState
    ensures { result ≡ flat_state words.now process page }
{
    let Some(start) = window_start(words, process) else {
        return PageState::Unready;
    };
    window::look(&words[start..start + WINDOW], page)
}

// Without a window there is no page to put an entry at.
fn put_in(words: &mut [Word], process: u32, page: u32, entry: Entry) -> Result<(), Fault>
    ensures puts { Puts (flat words.old) process page entry result (flat words.new) }
    ensures wrote { WroteIf result (replaced entry) process page 1 words.old words.new }
{
    let fault = Fault { process, page };
    let Some(start) = window_start(words, process) else {
        return Err(fault);
    };
    window::put(&mut words[start..start + WINDOW], page, entry).map_err(|_| fault)
}

// Without a window, or where the range is ruled out, nothing is reserved.
fn reserve_in(words: &mut [Word], range: PageRange) -> Result<(), Fault>
    ensures reserves { Reserves (flat words.old) range.process range.pages.first range.pages.count result (flat words.new) }
    ensures wrote { WroteIf result readied range.process range.pages.first range.pages.count words.old words.new }
{
    let fault = range.fault();
    if range.is_ruled_out(<FlatTable<'_> as PageTable>::PAGES) {
        return Err(fault);
    }
    let Some(start) = window_start(words, range.process) else {
        return Err(fault);
    };
    window::reserve(&mut words[start..start + WINDOW], range.pages);
    Ok(())
}

// Without a window there is nothing to release.
fn release_in(words: &mut [Word], range: PageRange)
    ensures { Wrote unreadied range.process range.pages.first range.pages.count words.old words.new }
{
    if let Some(start) = window_start(words, range.process) {
        window::release(&mut words[start..start + WINDOW], range.pages);
    }
}

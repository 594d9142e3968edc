// The interface of a page table. Its meaning is all that the code above it sees.
ghost use Rattle.std.specs.Prelude.{◌≡◌, ℕ};
ghost use Rattle.paging.specs.Effects.{Puts, Releases, Reserves};
ghost use Rattle.paging.specs.Meaning.{Lawful, Meaning};

use crate::page::{Entry, Fault};

// Page tables know the processes below this number.
pub const PROCESSES: u32 = 32;

// Every operation takes any numbers at all, as they come: a struct of them would have nothing to check, and be made at each call.
pub trait PageTable {
    // The most pages of a process.
    const PAGES: u32;

    // The same, for contracts. One of the constant's own name would be tied to it, and `most_pages` written once for all tables, but the check does not state that tie for an implementation with a lifetime.
    ghost pages: { ℕ };

    // What a table means: its entries, its ready pages and which ranges fit.
    ghost meaning: { Self → Meaning };

    // The laws, of every table.
    ghost lawful: { (t : Self) → Lawful pages (meaning t) };

    // PAGES, with a contract.
    fn most_pages() -> u32
        ensures { result ≡ pages };

    // Makes `count` pages from `first` ready and keeps their entries, or answers the fault of a range that does not fit.
    fn reserve(&mut self, process: u32, first: u32, count: u32) -> Result<(), Fault>
        ensures { Reserves (meaning self.old) process first count result (meaning self.new) };

    // Makes `count` pages from `first` unready and absent.
    fn release(&mut self, process: u32, first: u32, count: u32)
        ensures { Releases (meaning self.old) process first count (meaning self.new) };

    // The entry of a page: absent where the page is not ready.
    fn look(&self, process: u32, page: u32) -> Entry
        ensures { result ≡ (meaning self.now).entries process page };

    // Replaces the entry of a ready page. The fault of a page that is not, or of a frame that is too large, names the page.
    fn put(&mut self, process: u32, page: u32, entry: Entry) -> Result<(), Fault>
        ensures { Puts (meaning self.old) process page entry result (meaning self.new) };
}

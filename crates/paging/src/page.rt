// What a page table says of a page.
ghost use Rattle.std.specs.Prelude.{◌≡◌, Some};
ghost use Rattle.paging.specs.Shown.{entry_text, fault_text, flag_text};
ghost use Rattle.paging.specs.States.{entry_of, is_ready};

use std::fmt;

// What a page maps: nothing, or a frame with its two bits. Not an Option: an entry is printed, and only a type of the crate's own can say how.
#[derive(Clone, Copy, PartialEq, Eq, Debug)]
pub enum Entry {
    Absent,
    Present {
        frame: u32,
        write: bool,
        accessed: bool,
    },
}

impl Entry {
    // The frame with its two bits.
    pub fn present(frame: u32, write: bool, accessed: bool) -> Self
        ensures { result ≡ Entry.Present frame write accessed }
    {
        Entry::Present {
            frame,
            write,
            accessed,
        }
    }
}

// A page in a table: not ready for an entry, or ready with the one that it has. Not an Option: only a type of the crate's own can have conversions from and to a word.
#[derive(Clone, Copy, PartialEq, Eq, Debug)]
pub enum PageState {
    Unready,
    Ready(Entry),
}

impl PageState {
    // The entry: absent where the page is not ready. Not a From, since it forgets whether the page is ready.
    pub fn entry(self) -> Entry
        ensures { result ≡ entry_of self }
    {
        match self {
            PageState::Unready => Entry::Absent,
            PageState::Ready(entry) => entry,
        }
    }

    // Whether the page is ready.
    pub(crate) fn is_ready(self) -> bool
        ensures { result ≡ is_ready self }
    {
        matches!(self, PageState::Ready(_))
    }
}

// The process and the page that a table names when it refuses.
#[derive(Clone, Copy, PartialEq, Eq, Debug)]
pub struct Fault {
    pub process: u32,
    pub page: u32,
}

// The letter where the flag is set, else a dash.
fn letter(set: bool, name: &str) -> &str
    ensures { result.now ≡ flag_text set name.now }
{
    if set { name } else { "-" }
}

impl fmt::Display for Entry {
    ghost output = { λ e. Some (entry_text e) };

    fn fmt<W: fmt::Write>(&self, f: &mut fmt::Formatter<W>) -> fmt::Result {
        match self {
            Entry::Absent => f.write_str("absent"),
            Entry::Present {
                frame,
                write,
                accessed,
            } => {
                let w = letter(*write, "w");
                let a = letter(*accessed, "a");
                write!(f, "{frame}:{w}{a}")
            }
        }
    }
}

impl fmt::Display for Fault {
    ghost output = { λ f. Some (fault_text f) };

    fn fmt<W: fmt::Write>(&self, f: &mut fmt::Formatter<W>) -> fmt::Result {
        write!(f, "{}:{}", self.process, self.page)
    }
}

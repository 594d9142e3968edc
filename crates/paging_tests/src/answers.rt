// What the examples expect.
ghost use Rattle.std.specs.Prelude.{◌≡◌, Err, is_ok};

use paging::{Entry, Fault};
use std::fmt::Debug;
use std::test::Fail;

// Frame 7, which may be written and was not accessed.
pub(crate) const FRAME_7: Entry = Entry::Present {
    frame: 7,
    write: true,
    accessed: false,
};

// A frame that is too large.
pub(crate) const FRAME_4096: Entry = Entry::Present {
    frame: 4096,
    write: true,
    accessed: false,
};

// A refusal that names the page, by the numbers that the test passes.
pub(crate) fn at(process: u32, page: u32) -> Result<(), Fault>
    ensures { result ≡ Err (record { process = process; page = page }) }
{
    Err(Fault { process, page })
}

// Fails and shows both values where they differ.
pub(crate) fn same<T: PartialEq + Debug + Drop>(found: T, expected: T) -> Result<(), Fail>
    ensures { is_ok result ≡ T.eq found expected }
{
    if found == expected {
        return Ok(());
    }
    Err(Fail::new(format_args!("found {found:?}, expected {expected:?}")))
}

// Page tables: the entry of a page, the word that stores it, the interface that every table keeps, the flat table and the two-level table.
#![tactic(auto)]

mod codec;
mod directory;
mod flat;
mod leaf;
mod levels;
mod page;
mod place;
mod range;
mod table;
mod two_level;
mod window;

pub use codec::{FrameTooLarge, MAX_FRAME, Word, codec_is_exact};
pub use flat::FlatTable;
pub use page::{Entry, Fault, PageState};
pub use table::{PROCESSES, PageTable};
pub use two_level::TwoLevelTable;

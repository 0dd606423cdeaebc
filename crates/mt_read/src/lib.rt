//! Reads of a shared tree beside its writer, without the lock.
#![tactic(auto)]

mod bounds;
mod cursor;
mod descent;
mod entries;
mod lasts;
mod laws;
mod many;
mod neighbours;
mod queries;
mod reads;
mod sections;
mod seeks;
mod ways;

pub use cursor::Cursor;
pub use many::load_many;
pub use neighbours::Moved;
pub use queries::{find, load, load_range};
pub use sections::Section;
pub use ways::{Way, near};

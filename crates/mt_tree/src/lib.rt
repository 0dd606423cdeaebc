//! The tree that threads share. It has one history of calls (its linearization order), of which each pass (handle) knows a
//! beginning, and a lock for writers.
//!
//! ```
//! let kind = Kind::Range;
//! let (rows, passes, calls) = (64, 1, 100);
//! let shape = Shape {
//!     kind,
//!     rows,
//!     passes,
//!     calls,
//! };
//! let (tree, mut passes) = Tree::make(rt.alloc(), shape)?;
//! let mut pass = passes.pop().ok_or("the tree has no pass")?;
//!
//! // The first call of the tree's history.
//! let stored = tree.store_range(&rt, &mut pass, 10, 19, 7)?;
//! same(&rt, (stored.call, stored.reply), (1, Reply::Ok), "stored");
//!
//! // A read without the lock, after that call.
//! let read = tree.ask(&mut pass, &Query::Load { index: 12 })?;
//! let found = read.value.map(|range| range.entry);
//! same(&rt, (read.lo, read.hi, found), (1, 1, Some(7)), "read");
//! ```
#![tactic(auto)]

mod allocs;
mod asks;
mod batches;
mod behind;
mod copies;
mod counts;
mod cursors;
mod images;
mod inspects;
mod kept;
pub mod laws;
mod locked;
mod looks;
mod make;
mod many;
mod overwrites;
mod reads;
mod receipts;
mod reserve;
mod rows_for;
mod settle;
mod shaped;
mod shapes;
mod trees;
mod tried;
mod tries;
mod turns;
mod walks;
mod works;
mod writes;
mod zeros;

pub use batches::{Asked, Request};
pub use behind::WriterState;
pub use copies::copy_into;
pub use counts::{Change, change_of, counted};
pub use cursors::Cursor;
pub use images::image_of;
pub use kept::Kept;
pub use locked::{HoldsLock, Locked, Write};
pub use mt_base::{
    Call, Done, Holder, Kind, MOST_CALLS, MOST_PASSES, MOST_ROWS, NoMemory, Query, Range, Read,
    Reply, Shortage, Steps, Worn,
};
pub use mt_check::Form;
pub use mt_engine::RangePlace;
pub use mt_read::{Cursor as Walk, Moved};
pub use mt_rows::PlainRows;
pub use mt_rule::{Busy, Note, Pass};
pub use overwrites::tell_met;
pub use receipts::Look;
pub use reserve::{ReserveVerdict, is_reserve, verdict_of};
pub use rows_for::rows_enough;
pub use shapes::{DupError, Field, MakeError, Shape, Stats};
pub use trees::Tree;
pub use zeros::Zeros;

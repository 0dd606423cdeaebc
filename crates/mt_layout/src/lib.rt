//! The words of a row (a node): its name, and the items that its columns hold.
#![tactic(auto)]

mod items;
mod laws;
mod layout;
mod names;
mod sizes;
mod spans;

pub use items::{Item, Run, gap_of, longest_under};
pub use laws::{
    items_are_in_own_columns, names_are_read_back, what_is_not_read_is_no_name,
    what_is_read_is_a_name,
};
pub use layout::Layout;
pub use names::{Name, RowKind, is_dead_mark, kind_of, name_of, parent_word, row_of};
pub use sizes::{MOST_SLOTS, MOST_WORDS, RUN_ROOM, gaps, items_of, least_items, slots, words_of};
pub use spans::Span;

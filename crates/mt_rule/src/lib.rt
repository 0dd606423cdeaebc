//! The rule of a shared tree's table, by which each caller knows a beginning of the tree's one history, and the turn of
//! its writers.
#![tactic(auto)]

mod busy;
pub mod laws;
mod notes;
mod passes;
mod pens;
mod places;
mod rule;
mod sections;
mod table;
mod turn;
mod views;
mod wide;
mod writes;

pub use busy::Busy;
pub use notes::Note;
pub use passes::Pass;
pub use pens::Pen;
pub use places::RowAt;
pub use table::{MtTable, opening_words};
pub use turn::{OfTable, Taken, Turn};
pub use views::{
    Moment, NotePart, PassPart, PenPart, SectionWord, Shape, TableStart, TurnView, View,
};
pub use wide::{LongRows, OfWidth, ShortRows};

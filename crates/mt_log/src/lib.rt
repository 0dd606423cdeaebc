//! The log that the program reads, the transcript that it writes, and when a transcript is a run of a log.
#![tactic(auto)]

mod answers;
mod areas;
mod between_phases;
mod cuts;
mod faults;
mod fields;
mod items;
mod keywords;
mod kinds;
mod line_ends;
mod lines;
mod lists;
mod names;
mod numbers;
mod printing;
mod reader;
mod reading;
mod rendering;
mod transcripts;
mod trees;

pub use answers::shown;
pub use faults::{LogError, Why};
pub use line_ends::{LineEnd, ROOM};
pub use lines::{Item, Line, Log};
pub use lists::ListOf;
pub use names::Word;
pub use printing::print_log;
pub use reading::read_log;
pub use rendering::{put_kind, put_range, put_reply, render};
pub use transcripts::{Answer, Entry, Listing, Said, Transcript};
pub use trees::KnownTree;

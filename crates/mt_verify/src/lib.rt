//! Whether the text of a transcript is that of a run of a log.
#![tactic(auto)]

mod answers;
mod asking;
mod calls;
mod counts;
mod declared;
mod gone;
mod heard;
mod hearing;
mod lanes;
pub mod laws;
mod lines;
mod looks;
mod merged;
mod noted;
mod openings;
mod replays;
mod shortages;
pub mod small;
mod stops;
mod tracks;
mod trees;
mod verdicts;
mod verifying;
mod wants;
mod windows;

pub use asking::calls_of;
pub use heard::shortage_in;
pub use lines::look_told;
pub use looks::{ToldRead, is_true};
pub use shortages::is_short;
pub use verdicts::Verdict;
pub use verifying::verify;
pub use wants::wants_rows;
pub use windows::windows_keep;

//! What the program's commands print. The text of a run on trees that threads share, or an image of its first tree. The listing
//! of an image's tree, and an image of a tree that is built from its ranges. The text of a made log, and the result of a run of
//! it. And numbers drawn in turn on one tree (cyclic allocation), each given back after more draws, with the result in one
//! line.
#![tactic(auto)]

mod built;
mod images;
pub mod laws;
mod tallies;
mod texts;
mod trees;
mod turns;
mod walks;

pub use built::built_image;
pub use images::image_listing;
pub use texts::{answers, image_of_run, made_text, trial_text};
pub use trees::LaneTree;
pub use turns::ids_text;

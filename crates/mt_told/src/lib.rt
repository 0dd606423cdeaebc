//! What the text of a transcript (a history of responses) says of the steps of a log. And the listing of a tree, read back from
//! its text.
#![tactic(auto)]

mod answers;
mod comparing;
mod errors;
mod fronts;
mod heads;
mod listings;
mod numbers;
mod ranges;
mod reading;
mod scans;
mod steps;
mod told;

pub use comparing::{is_number, is_reply, listing_in_front};
pub use errors::ListingError;
pub use fronts::{behind_word, number_before};
pub use listings::read_listing;
pub use numbers::number_in_front;
pub use reading::{Account, read_told};
pub use told::{ToldLine, What};

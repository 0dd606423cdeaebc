//! The desks of a phase's lanes: what each lane does on trees that several share.
#![tactic(auto)]

mod dealing;
mod desks;
pub mod laws;
mod own_lines;
mod passes;
mod passing;
pub mod phase_lines;
mod phases;
mod scans;
mod shared;
mod turns;
mod walks;

pub use dealing::{lane_after, lanes_in};
pub use desks::LaneDesk;
pub use own_lines::{Needs, OwnLines, needs_of};
pub use phases::run_phase;
pub use scans::scan;
pub use shared::{Passage, Shared};
pub use turns::put_back;
pub use walks::Walks;

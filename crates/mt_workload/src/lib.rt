//! The log (workload) that is made from a number (seed), and the result of a run of it in one line.
#![tactic(auto)]

mod draws;
pub mod laws;
mod made_lines;
mod making;
mod steps;
mod summaries;

pub use making::made_log;
pub use summaries::{Summary, summarise};

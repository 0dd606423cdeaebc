//! How the passes (threads' handles) of a log's trees go on from phase to phase, so that the whole is a run of the log: each
//! tree's steps are linearizable.
#![tactic(auto)]

pub mod lanes;
pub mod laws;
pub mod log_lines;
pub mod one_thread;

//! Trials of streams and of the lanes of a phase: the threads, a desk that reads beside a lock that is held, and workers of a bulk
//! build.
#![tactic(auto)]

#[cfg(test)]
mod asserts;
#[cfg(test)]
mod bulk;
#[cfg(test)]
mod lanes;
#[cfg(test)]
mod locked;
#[cfg(test)]
mod meetings;
#[cfg(test)]
mod streams;

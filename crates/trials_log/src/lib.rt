//! Trials of texts: logs that are read and printed, texts that are those of runs of a log and others, listings, and the words
//! of commands.
#![tactic(auto)]

#[cfg(test)]
mod asserts;
#[cfg(test)]
mod listings;
#[cfg(test)]
mod log;
#[cfg(test)]
mod verdicts;
#[cfg(test)]
mod words;

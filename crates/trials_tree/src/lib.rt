//! Trials of the tree that threads share: what its callers ask and do, and readers beside its writer, that walk on while ranges
//! are stored, and whose open sections hold nodes.
#![tactic(auto)]

#[cfg(test)]
mod asserts;
#[cfg(test)]
mod batches;
#[cfg(test)]
mod errors;
#[cfg(test)]
mod example;
#[cfg(test)]
mod images;
#[cfg(test)]
mod locked;
#[cfg(test)]
mod readers;
#[cfg(test)]
mod shared;

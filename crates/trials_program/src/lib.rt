//! Trials of the program over streams in memory: streams that fail, how far an input is read, and lanes and workers that a gate
//! holds.
#![tactic(auto)]

#[cfg(test)]
mod faults;
#[cfg(test)]
mod gates;
#[cfg(test)]
mod reach;
#[cfg(test)]
mod runs;

//! Trials of the tree on one thread: its answers beside those of a sorted list, and the nodes that its stores take and leave;
//! of the words of nodes, the ways through them, and what searches, checks and copies them, or makes images of them; and of the
//! sorted list itself.
#![tactic(auto)]

#[cfg(test)]
mod asserts;
#[cfg(test)]
mod checks;
#[cfg(test)]
mod copies;
#[cfg(test)]
mod images;
#[cfg(test)]
mod leaf;
#[cfg(test)]
mod names;
#[cfg(test)]
mod paths;
#[cfg(test)]
mod room;
#[cfg(test)]
mod rows;
#[cfg(test)]
mod small_trees;
#[cfg(test)]
mod tests;

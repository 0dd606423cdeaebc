//! The words after the program's name: which lists of them are commands, and which commands they are.
#![tactic(auto)]

mod commands;
mod grammar;
mod numbers;
mod words;

pub use commands::Command;
pub use words::read_words;

//! Whether the words of a tree are well-formed (well-formed), and which law they break first.
#![tactic(auto)]

mod checks;
mod faults;
pub mod laws;
mod reads;
mod row_laws;
mod walks;

pub use checks::{check, form_of};
pub use faults::{Fault, Form, Law};

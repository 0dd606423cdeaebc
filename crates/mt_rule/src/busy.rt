//! That a lock was found taken.

use crate::views::TurnView;
use atomic_table::Badge;

/// The receipt of finding a turn's value away. Only a step at the turn makes one, and it has no bytes.
#[derive(Drop)]
pub struct Busy {
    pub(crate) seat: Badge<TurnView>,
}

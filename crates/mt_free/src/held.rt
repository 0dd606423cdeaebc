ghost use Rattle.std.specs.Prelude.{◌≡◌, ◌<◌, ◌≤◌, ◌+◌, [], ◌∷◌, ◌++◌, length, slice_get, IfNone, IfSome};

use circular_buffer::HeapCircularBuffer;
use std::marker::Model;

/// A node that was replaced, and the number of the call that replaced it.
#[derive(Drop)]
pub struct HeldRow {
    pub row: u32,
    pub stamp: u64,
}

impl Model for HeldRow {
    ghost use Rattle.mt_free.specs.Book.{StampedRow};

    ghost Value = { StampedRow };

    ghost view = { λ h. record { row = h.row; stamp = h.stamp } };
}

/// Puts a node after the held ones. There has to be room for it.
pub fn push_held(held: &mut HeapCircularBuffer<HeldRow>, row: u32, stamp: u64)
    requires { length held.old.items < held.old.capacity }
    ensures items { held.new.items ≡ held.old.items ++ record { row = row; stamp = stamp } ∷ [] }
    ensures capacity { held.new.capacity ≡ held.old.capacity }
{
    match held.try_push_back(HeldRow { row, stamp }) {
        Ok(()) => {}
        Err(_) => unreachable!(),
    }
}

/// Takes out the first held node, if it was replaced by the call `least` at the latest.
pub fn pop_due(held: &mut HeapCircularBuffer<HeldRow>, least: u64) -> Option<HeldRow>
    ensures due { IfSome result (λ h. (held.old.items ≡ h ∷ held.new.items) × (h.stamp ≤ least)) }
    ensures none_due { IfNone result (held.new.items ≡ held.old.items) }
    ensures later { IfNone result (IfSome (slice_get held.old.items 0) (λ h. least < h.stamp)) }
    ensures capacity { held.new.capacity ≡ held.old.capacity }
{
    if held.front()?.stamp > least {
        return None;
    }
    held.pop_front()
}

ghost use Rattle.std.specs.Prelude.{◌≡◌, ◌≤◌, length};
ghost use Rattle.mt_layout.specs.Columns.{RiseFrom};
ghost use Rattle.mt_leaf.specs.Places.{slot_reaching, slot_above, first_of};

use mt_layout::Item;

/// The first slot that reaches this index, and the first index of its item. The first item begins at `min`. If no item reaches
/// that far, it is the slot after them.
#[tactic(auto, using(crate::proofs::Slots::slots))]
pub fn slot_and_first(items: &[Item], min: u64, index: u64) -> (usize, u64)
    requires { RiseFrom min items.now }
    ensures slot { result.0 ≡ slot_reaching items.now index }
    ensures first { result.1 ≡ first_of min items.now result.0 }
{
    let slot = slot_reaching(items, index);
    let first = if slot == 0 {
        min
    } else {
        items[slot - 1].last + 1
    };
    (slot, first)
}

fn slot_reaching(items: &[Item], index: u64) -> usize
    requires { RiseFrom 0 items.now }
    ensures slot { result ≡ slot_reaching items.now index }
    ensures within { result ≤ length items.now }
{
    items.partition_point(|item| item.last < index)
}

/// The first slot that ends above this index.
pub fn slot_above(items: &[Item], index: u64) -> usize
    requires { RiseFrom 0 items.now }
    ensures slot { result ≡ slot_above items.now index }
    ensures within { result ≤ length items.now }
{
    items.partition_point(|item| item.last <= index)
}

//! Stores for which nodes are found free beforehand.

ghost use Rattle.std.specs.Prelude.{◌≡◌};
ghost use Rattle.mt_base.specs.declared.calls.Call.TheVariants.{StorePre};
ghost use Rattle.mt_c.specs.Preparing.{Prepared, PreCalled, pre_status, pre_word};

use crate::handle::TreeHandle;
use crate::told::{EBADF, ENOMEM, status_of, word_of};
use mt_base::Reply;
use std::alloc::Global;

/// The number that C gets for a store for which nodes were to be at hand.
pub fn pre_status(made: Option<Option<Reply>>) -> u32
    ensures { result ≡ pre_status made }
{
    match made {
        None => ENOMEM,
        Some(made) => status_of(made),
    }
}

/// The word of such a store, or 0.
pub fn pre_word(made: Option<Option<Reply>>) -> u64
    ensures { result ≡ pre_word made }
{
    match made {
        None => 0,
        Some(made) => word_of(made),
    }
}

/// Makes a tree ready for a store, if the nodes that no section holds are enough. It is no call of the tree.
#[unsafe(no_mangle)]
pub extern "C" fn maple_preallocate(alloc: Global, tree: &mut TreeHandle) -> u32
    ensures { Prepared tree.old.kept.value tree.new.kept.value result }
{
    let Some(mut whole) = tree.take(alloc) else {
        return EBADF;
    };
    let is_ready = whole.preallocate();
    tree.put(whole);
    if is_ready { 0 } else { ENOMEM }
}

/// Makes one store for which the tree is ready, as `maple_store_pre`: it is not refused for lack of nodes.
#[tactic(auto, using(crate::proofs::Telling::pre_open))]
#[unsafe(no_mangle)]
pub extern "C" fn maple_store_prealloc(
    alloc: Global,
    tree: &mut TreeHandle,
    first: u64,
    last: u64,
    entry: u64,
    old: &mut u64,
) -> u32
    ensures { PreCalled (StorePre first last entry)
        tree.old.kept.value tree.new.kept.value result old.new }
{
    let Some(mut whole) = tree.take(alloc) else {
        *old = 0;
        return EBADF;
    };
    let made = whole.store_prealloc(first, last, entry);
    tree.put(whole);
    *old = pre_word(made);
    pre_status(made)
}

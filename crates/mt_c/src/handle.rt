//! A tree as C has it.

ghost use Rattle.std.specs.Prelude.{◌≡◌, Option, Some, None, MatchOption};
ghost use Rattle.mt_c.specs.Owned.{open_count};

use crate::kept::KeptTree;
use crate::own_tree::OwnTree;
use std::alloc::Global;

/// A tree as C has it: `struct maple_tree`, of two words. If both are 0 it is closed. The second is how many trees it has. It
/// cannot be dropped: what it keeps is taken out.
#[repr(C)]
pub struct TreeHandle {
    pub kept: KeptTree,
    is_open: u64,
    ghost counted: { is_open ≡ open_count kept.value },
}

impl TreeHandle {
    /// A closed one.
    pub fn closed() -> TreeHandle
        ensures { result.kept.value ≡ None }
    {
        TreeHandle {
            kept: KeptTree::closed(),
            is_open: 0,
        }
    }

    /// One with this tree.
    pub fn of(whole: Box<OwnTree>) -> TreeHandle
        ensures { result.kept.value ≡ Some whole.value }
    {
        TreeHandle {
            kept: KeptTree::of(whole),
            is_open: 1,
        }
    }

    /// Makes another one of a closed one.
    pub fn set(&mut self, other: TreeHandle)
        requires { self.old.kept.value ≡ None }
        ensures { self.new.kept.value ≡ other.kept.value }
    {
        let TreeHandle { kept, is_open: _ } = std::mem::replace(self, other);
        kept.end();
    }

    /// Puts a tree into a closed one.
    pub fn put(&mut self, whole: Box<OwnTree>)
        requires { self.old.kept.value ≡ None }
        ensures { self.new.kept.value ≡ Some whole.value }
    {
        self.set(TreeHandle::of(whole));
    }

    /// Takes the tree out, where it is open, and leaves it closed.
    #[tactic(auto, using(crate::proofs::Keeping::none_kept, crate::proofs::Keeping::some_kept))]
    pub fn take(&mut self, alloc: Global) -> Option<Box<OwnTree>>
        ensures tree { MatchOption result
            (self.old.kept.value ≡ None) (λ whole. self.old.kept.value ≡ Some whole.value) }
        ensures closed { self.new.kept.value ≡ None }
    {
        let TreeHandle { kept, is_open } = std::mem::replace(self, TreeHandle::closed());
        if is_open == 0 {
            kept.end();
            return None;
        }
        Some(kept.into_box(alloc))
    }
}

//! What C keeps of a tree: a pointer.

ghost use Rattle.std.specs.Prelude.{◌≡◌, Option, Some, None};
ghost use Rattle.mt_c.specs.Owned.{kept_owns, IsOpenHandle};
ghost use Rattle.mt_c.specs.Own.{OwnTree};
ghost use Rattle.mt_c.specs.contracts.own_tree.OwnTree.{the_row};

use crate::own_tree::OwnTree;
use crate::parts::Parts;
use std::alloc::Global;
use std::marker::Model;

/// The box of a tree as one pointer, whose type names no other: C may keep it, and sees nothing inside. It cannot be dropped.
#[repr(C)]
pub struct KeptTree {
    at: *mut (),
    pub ghost value: { Option OwnTree },
}

impl Model for KeptTree {
    ghost also_owns = { λ k. kept_owns the_row k.at k.value };
}

impl KeptTree {
    /// Nothing is kept.
    pub fn closed() -> KeptTree
        ensures { result.value ≡ None }
    {
        KeptTree {
            at: std::ptr::null_mut(),
        }
    }

    /// The end of one that keeps nothing. One that keeps something has none: its box is taken out.
    pub fn end(self)
        requires { self.value ≡ None }
    {
        let KeptTree { at: _ } = self;
    }

    fn of_parts(parts: Parts<OwnTree, Global>) -> KeptTree
        ensures { result.value ≡ Some parts.value }
    {
        let Parts { ptr, alloc: _ } = parts;
        KeptTree { at: ptr as *mut () }
    }

    fn into_parts(self, alloc: Global) -> Parts<OwnTree, Global>
        requires { IsOpenHandle self.value }
        ensures { self.value ≡ Some result.value }
    {
        let KeptTree { at } = self;
        Parts {
            ptr: at as *mut OwnTree,
            alloc,
        }
    }

    /// Keeps a box.
    pub fn of(value: Box<OwnTree>) -> KeptTree
        ensures { result.value ≡ Some value.value }
    {
        KeptTree::of_parts(Parts::of(value))
    }

    /// The box that is kept.
    pub fn into_box(self, alloc: Global) -> Box<OwnTree>
        requires { IsOpenHandle self.value }
        ensures { self.value ≡ Some result.value }
    {
        self.into_parts(alloc).into_box()
    }
}

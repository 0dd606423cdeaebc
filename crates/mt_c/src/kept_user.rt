//! What C keeps of a user of a shared tree: a pointer.

ghost use Rattle.std.specs.Coded.{codes};
ghost use Rattle.std.specs.Prelude.{◌≡◌, Option, Some, None};
ghost use Rattle.mt_c.specs.Walkers.{walks_coded};
ghost use Rattle.mt_c.specs.Owned.{kept_owns, IsOpenHandle};
ghost use Rattle.mt_c.specs.declared.user.User.{User};
ghost use Rattle.mt_c.specs.contracts.user.User.{the_row};

use crate::parts::Parts;
use crate::user::User;
use std::alloc::Global;
use std::marker::Model;

/// The box of a user as one pointer, whose type names no other: C may keep it, and sees nothing inside. It cannot be dropped.
#[repr(C)]
pub struct KeptUser {
    at: *mut (),
    pub ghost value: { Option User } by { Prim.hlevel (walks_coded, codes) },
}

impl Model for KeptUser {
    ghost also_owns = { λ k. kept_owns the_row k.at k.value };
}

unsafe impl Send for KeptUser {}

impl KeptUser {
    /// Nothing is kept.
    pub fn closed() -> KeptUser
        ensures { result.value ≡ None }
    {
        KeptUser {
            at: std::ptr::null_mut(),
        }
    }

    /// The end of one that keeps nothing. One that keeps something has none: its box is taken out.
    pub fn end(self)
        requires { self.value ≡ None }
    {
        let KeptUser { at: _ } = self;
    }

    fn of_parts(parts: Parts<User, Global>) -> KeptUser
        ensures { result.value ≡ Some parts.value }
    {
        let Parts { ptr, alloc: _ } = parts;
        KeptUser { at: ptr as *mut () }
    }

    fn into_parts(self, alloc: Global) -> Parts<User, Global>
        requires { IsOpenHandle self.value }
        ensures { self.value ≡ Some result.value }
    {
        let KeptUser { at } = self;
        Parts {
            ptr: at as *mut User,
            alloc,
        }
    }

    /// Keeps a box.
    pub fn of(value: Box<User>) -> KeptUser
        ensures { result.value ≡ Some value.value }
    {
        KeptUser::of_parts(Parts::of(value))
    }

    /// The box that is kept.
    pub fn into_box(self, alloc: Global) -> Box<User>
        requires { IsOpenHandle self.value }
        ensures { self.value ≡ Some result.value }
    {
        self.into_parts(alloc).into_box()
    }
}

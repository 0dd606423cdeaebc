//! A user of a shared tree as C has it.

ghost use Rattle.std.specs.Prelude.{◌≡◌, ◌==◌, ℕ, Option, Some, None, MatchOption};
ghost use Rattle.mt_c.specs.Owned.{is_kept, refusal, unopened};

use crate::kept_user::KeptUser;
use crate::told::{EALREADY, EBADF, EDEADLK};
use crate::user::User;
use std::alloc::Global;

/// A user as C has it: `struct maple_user`, of two words. Where both are 0 it is closed. The second is 1 where it has a user, and
/// another number while a call works on that. It cannot be dropped: what it keeps is taken out.
#[repr(C)]
pub struct UserHandle {
    pub kept: KeptUser,
    pub state: u64,
    ghost counted: { (state == 1) ≡ is_kept kept.value },
}

/// It is closed.
const CLOSED: u64 = 0;

/// It has a user.
const OPEN: u64 = 1;

/// A call works on its user.
const AT_WORK: u64 = 2;

/// Writes the second word by itself: a handler that comes between finds the first word as it fits.
#[inline(never)]
fn mark(state: &mut u64, to: u64)
    ensures { state.new ≡ to }
{
    *state = to;
}

impl UserHandle {
    /// A closed one.
    pub fn closed() -> UserHandle
        ensures value { result.kept.value ≡ None }
        ensures state { result.state ≡ 0 }
    {
        UserHandle {
            kept: KeptUser::closed(),
            state: CLOSED,
        }
    }

    /// One with this user.
    pub fn of(whole: Box<User>) -> UserHandle
        ensures { result.kept.value ≡ Some whole.value }
    {
        UserHandle {
            kept: KeptUser::of(whole),
            state: OPEN,
        }
    }

    /// Makes another one of one that has no user.
    pub fn set(&mut self, other: UserHandle)
        requires { self.old.kept.value ≡ None }
        ensures value { self.new.kept.value ≡ other.kept.value }
        ensures state { self.new.state ≡ other.state }
    {
        let UserHandle { kept, state: _ } = std::mem::replace(self, other);
        kept.end();
    }

    /// The number for one that has no user: it is closed, or a call works on that.
    #[tactic(auto, using(crate::proofs::Keeping::refusal_closed, crate::proofs::Keeping::refusal_other))]
    pub fn refusal(&self) -> u32
        ensures { result ≡ refusal self.now.state }
    {
        if self.state == CLOSED { EBADF } else { EDEADLK }
    }

    /// The number for one that is to be opened and is not closed: it has a user, or a call works on that.
    #[tactic(auto, using(crate::proofs::Keeping::none_there, crate::proofs::Keeping::unopened_open, crate::proofs::Keeping::unopened_other))]
    pub fn unopened(&self) -> Option<u32>
        ensures closed { MatchOption result (self.now.kept.value ≡ None) (λ _. Unit {0}) }
        ensures state { MatchOption result (self.now.state ≡ 0) (λ _. Unit {0}) }
        ensures status { MatchOption result
            (Unit {0}) (λ status. unopened self.now.state ≡ Some status) }
    {
        if self.state == CLOSED {
            return None;
        }
        if self.state == OPEN {
            return Some(EALREADY);
        }
        Some(EDEADLK)
    }

    /// Puts a user into one that has none.
    #[inline(never)]
    pub fn put(&mut self, whole: Box<User>)
        requires { self.old.kept.value ≡ None }
        ensures { self.new.kept.value ≡ Some whole.value }
    {
        let none = std::mem::replace(&mut self.kept, KeptUser::of(whole));
        none.end();
        mark(&mut self.state, OPEN);
    }

    /// Closes one that has no user.
    pub fn close(&mut self)
        requires { self.old.kept.value ≡ None }
        ensures value { self.new.kept.value ≡ None }
        ensures state { self.new.state ≡ 0 }
    {
        self.state = CLOSED;
    }

    /// Takes the user out, where it has one. A call works on that then.
    #[inline(never)]
    #[tactic(auto, using(crate::proofs::Keeping::none_there, crate::proofs::Keeping::some_there))]
    pub fn take(&mut self, alloc: Global) -> Option<Box<User>>
        ensures user { MatchOption result
            (self.old.kept.value ≡ None) (λ whole. self.old.kept.value ≡ Some whole.value) }
        ensures same { MatchOption result (self.new ≡ self.old) (λ _. Unit {0}) }
        ensures state { MatchOption result (Unit {0}) (λ _. self.new.state ≡ 2) }
        ensures closed { self.new.kept.value ≡ None }
    {
        if self.state != OPEN {
            return None;
        }
        mark(&mut self.state, AT_WORK);
        let kept = std::mem::replace(&mut self.kept, KeptUser::closed());
        Some(kept.into_box(alloc))
    }
}

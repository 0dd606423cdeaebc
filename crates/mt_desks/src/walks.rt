//! A walk over the ranges of a tree that several share.

ghost use Rattle.std.specs.Prelude.{◌≡◌, ◌+◌, ◌≤◌, None};
ghost use Rattle.mt_desks.specs.Walks.{Walk, HasWalkedOn};

use mt_base::{Range, Read};

/// A walk over the ranges of a tree `T`, from an index up to a bound, by one handle and in one section.
///
/// Its meanings are `walk`, how far it has come; `on`, that it goes over this tree; and `own`, that its handle has no section
/// open but the walk's own.
pub trait Walks<T> {
    ghost walk: { Self → Walk };

    ghost on: { Self → T → Type 0 };

    ghost own: { Self → Type 0 };

    /// Reads the first range from the walk's place on, and moves the place after it. The section is open then.
    fn step(&mut self) -> Read<Option<Range>>
        requires { own self.old }
        ensures own { own self.new }
        ensures on { (tree : T) → on self.old tree → on self.new tree }
        ensures walked { HasWalkedOn result.lo result.hi result.value (walk self.old) (walk self.new) };

    /// Closes the section, by one step.
    fn close(&mut self)
        ensures own { own self.new }
        ensures on { (tree : T) → on self.old tree → on self.new tree }
        ensures closed { walk self.new ≡ record (walk self.old) { pass = record (walk self.old).pass { standing = None }; steps = (walk self.new).steps } }
        ensures few { (walk self.new).steps ≤ (walk self.old).steps + 1 };
}

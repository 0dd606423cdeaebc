//! A pass (handle) of a shared tree, and the walk that it is on.

ghost use Rattle.std.specs.Prelude.{IfSome};
ghost use Rattle.mt_c.specs.KeptWalks.{IsKeptWalk, walks_prop};

use mt_tree::{Pass, Walk};

/// A handle, and the walk whose section it holds open. One thread at a time uses it.
#[derive(Drop)]
pub struct Walker {
    pub pass: Pass,
    pub walk: Option<Walk>,
    ghost walks: { IfSome walk (IsKeptWalk pass) } by { walks_prop pass walk },
}

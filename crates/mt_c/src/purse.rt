//! A tree that its users own together, and the passes (handles) that none of them has.

ghost use Rattle.std.specs.Prelude.{◌≡◌};

use mt_keep::{Keep, Placed};
use mt_tree::{Pass, Tree};

/// Passes (handles) of one tree, for users to come. None has a section open.
#[derive(Drop)]
pub struct Purse {
    pub passes: Vec<Pass>,
}

impl Placed<Tree> for Purse {
    ghost use Rattle.std.specs.Prelude.{All};
    ghost use Rattle.mt_c.specs.Spares.{IsSparePass};

    ghost fits = { λ tree purse. All (IsSparePass tree) purse.passes.items };
}

/// A tree and the purse (pool) of its free handles.
#[derive(Drop)]
pub struct Common {
    pub tree: Tree,
    pub purse: Keep<Purse, Tree>,
    ghost of: { purse.table.shared.key.place.value ≡ tree },
}

//! The window of a level that is to be replaced, and what will be in its place.

ghost use Rattle.std.specs.Prelude.{◌≡◌, ◌<◌, length};
ghost use Rattle.mt_path.specs.Paths.{step_at};

use arrayvec::ArrayVec;
use mt_base::DEEPEST;
use mt_layout::{RowKind, Run};
use mt_leaf::Towards;
use mt_path::{Path, PathStep};

/// The paths to the first and to the last node of a window.
#[derive(Drop)]
pub struct Ways {
    pub left: Path,
    pub right: Path,
}

/// The items that will be in a window's place, and where among these the change is.
#[derive(Drop)]
pub struct Gathered {
    pub run: Run,
    pub towards: Towards,
}

/// The first and the last node of a window that is replaced.
#[derive(Clone, Copy, Debug, Default, PartialEq, Eq)]
pub struct Window {
    pub first: PathStep,
    pub last: PathStep,
}

/// The windows of a replacement, from the leaves up.
pub type Windows = ArrayVec<Window, DEEPEST>;

/// The kind of the nodes of a level, and of those above it.
#[derive(Clone, Copy, Debug, PartialEq, Eq)]
pub struct Level {
    pub kind: RowKind,
    pub above: RowKind,
}

/// Where the first of the items of a level begins, and the places at which they are cut into nodes.
#[derive(Drop)]
pub struct Pieces {
    pub first: u64,
    pub ends: ArrayVec<u32, 3>,
}

/// A path's step at a level, the root's level being 0.
pub fn step_on(path: &Path, depth: u32) -> PathStep
    requires { depth < length path.now.items }
    ensures { result ≡ step_at path.now.items depth }
{
    path[depth as usize]
}

/// The window of the paths on a level.
pub fn window_on(ways: &Ways, depth: u32) -> Window
    requires left { depth < length ways.now.left.items }
    requires right { depth < length ways.now.right.items }
    ensures first { result.first ≡ step_at ways.now.left.items depth }
    ensures last { result.last ≡ step_at ways.now.right.items depth }
{
    Window {
        first: step_on(&ways.left, depth),
        last: step_on(&ways.right, depth),
    }
}

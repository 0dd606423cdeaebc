//! Ways from the root to a leaf, as lists of steps.

ghost use Rattle.std.specs.Prelude.{◌≡◌, ◌↔◌, [], IsTrue, IfSome, IfNone};
ghost use Rattle.std.specs.List.{AllByRecursion};
ghost use Rattle.mt_path.specs.Paths.{Covers, IsDeepestOver};

use arrayvec::ArrayVec;
use mt_base::DEEPEST;

/// A node on the way to an index: its number, the slot that the way takes, and the first and the last index that the node
/// covers.
#[derive(Clone, Copy, Debug, Default, PartialEq, Eq)]
pub struct PathStep {
    pub row: u32,
    pub slot: u32,
    pub min: u64,
    pub max: u64,
}

/// The way from the root, which is its first step, to a leaf.
pub type Path = ArrayVec<PathStep, DEEPEST>;

/// Puts a path's steps into an empty path.
pub fn copy_into(path: &Path, copy: &mut Path)
    requires { copy.old.items ≡ [] }
    ensures { copy.new.items ≡ path.now.items }
{
    match copy.try_extend_from_slice(path.as_slice()) {
        Ok(()) => {}
        Err(_) => unreachable!(),
    }
}

/// A path with the same steps.
pub fn copy_of(path: &Path) -> Path
    ensures { result.items ≡ path.now.items }
{
    let mut copy = Path::new();
    copy_into(path, &mut copy);
    copy
}

/// Whether the node of a step covers an index.
fn covers(step: PathStep, index: u64) -> bool
    ensures { IsTrue result ↔ Covers step index }
{
    step.min <= index && index <= step.max
}

/// Takes off the steps from the deepest on whose node covers an index, and returns that one. If there is none, all are taken
/// off.
pub(crate) fn pop_to(path: &mut Path, index: u64) -> Option<PathStep>
    ensures some { IfSome result (λ step. IsDeepestOver path.old.items path.new.items index step) }
    ensures none { IfNone result (AllByRecursion (λ s. Covers s index → ⊥) path.old.items) }
    ensures emptied { IfNone result (path.new.items ≡ []) }
{
    while let Some(step) = path.pop() {
        if covers(step, index) {
            return Some(step);
        }
    }
    None
}

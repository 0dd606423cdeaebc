//! What a tree was made of.

ghost use Rattle.std.specs.Prelude.{◌≡◌, None};
ghost use Rattle.mt_tree.specs.Shapes.{first_bad};
ghost use Rattle.mt_tree.specs.Trees.{limit_of, opened, passes_of};

use crate::shapes::Shape;
use crate::trees::Tree;

impl Tree {
    /// What the tree was made of.
    pub fn shape(&self) -> Shape
        ensures kind { result.kind ≡ (opened self.now).kind }
        ensures rows { result.rows ≡ (opened self.now).rows }
        ensures passes { result.passes ≡ passes_of self.now }
        ensures calls { result.calls ≡ limit_of self.now }
        ensures in_range { first_bad result ≡ None }
    {
        self.shape
    }
}

ghost use Rattle.std.specs.Prelude.{◌≡◌, ◌≢◌, [], true, false};
ghost use Rattle.std.specs.List.{list_any};
ghost use Rattle.std.specs.Option.{is_some};
ghost use Rattle.mt_log.specs.Trees.{tree_declared_by, trees_of};

use mt_log::{Item, Line};

/// Whether a line declares a tree, where none was declared before it: no copy does.
fn is_first(line: &Line) -> bool
    ensures { result ≡ is_some (tree_declared_by [] line.now.item) }
{
    match line.item {
        Item::Tree { .. } => true,
        Item::Lane { .. }
        | Item::Join
        | Item::Dup { .. }
        | Item::Check { .. }
        | Item::Write { .. }
        | Item::Ask { .. }
        | Item::Scan { .. } => false,
    }
}

/// Whether one of these lines does.
fn has_first(lines: &[Line]) -> bool
    ensures { result ≡ list_any (λ line. is_some (tree_declared_by [] line.item)) lines.now }
{
    lines.iter().any(is_first)
}

/// Whether the lines of a log declare a tree.
pub fn declares_tree(lines: &[Line]) -> bool
    ensures some { result ≡ true → trees_of lines.now ≢ [] }
    ensures none { result ≡ false → trees_of lines.now ≡ [] }
{
    has_first(lines)
}

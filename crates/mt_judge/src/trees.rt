//! The trees of a log, and what a transcript reports of one.

use mt_base::{Kind, NoMemory};
use mt_log::{Item, Line, Word};
use mt_told::{ToldLine, What};
use std::alloc::Global;

/// The greatest number of trees, and of lanes, of a log.
pub const MOST_TREES: u32 = 16;

/// A tree of a log: the number of the line that declares it, its name and its kind.
#[derive(Clone, Copy)]
pub struct DeclaredTree {
    pub line: u64,
    pub name: Word,
    pub kind: Kind,
}

/// The tree that a line declares, where these were declared before it.
fn declared_by(trees: &[DeclaredTree], line: &Line) -> Option<DeclaredTree> {
    let (name, kind) = match line.item {
        Item::Tree { name, kind } => (name, kind),
        Item::Dup { from, name } => (name, trees.get(from as usize)?.kind),
        _ => return None,
    };
    Some(DeclaredTree {
        line: line.number,
        name,
        kind,
    })
}

/// The trees that these lines declare.
pub fn trees_of(alloc: Global, lines: &[Line]) -> Result<Vec<DeclaredTree>, NoMemory> {
    let mut trees = Vec::new(alloc);
    for line in lines {
        if let Some(tree) = declared_by(&trees, line) {
            trees.push(tree)?;
        }
    }
    Ok(trees)
}

/// Whether a line reports a call on a tree.
pub fn is_call_on(told: &ToldLine, tree: u32) -> bool {
    told.tree == tree && matches!(told.what, What::Wrote { .. })
}

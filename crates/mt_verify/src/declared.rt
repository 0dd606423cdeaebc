//! The trees that a log declares, with how each of them opens.

ghost use Rattle.std.specs.Prelude.{◌≡◌, IfOk, OnOk, ◌++◌, length};
ghost use Rattle.std.specs.Option.{option_to_list};
ghost use Rattle.mt_log.specs.Trees.{declared_by, trees_of};

use mt_base::{Kind, NoMemory};
use mt_log::{Item, Line, Word};
use std::alloc::Global;
use std::marker::Model;

/// The declared tree is a copy of this tree, as it is when this phase begins.
#[derive(Clone, Copy)]
pub struct DeclaredSource {
    pub tree: u32,
    pub phase: u64,
}

/// A tree that a log declares: its name and kind, and what it is a copy of, if it is one.
#[derive(Drop)]
pub struct Declared {
    pub name: Word,
    pub kind: Kind,
    pub source: Option<DeclaredSource>,
}

impl Model for Declared {
    ghost use Rattle.mt_log.specs.Trees as trees;
    ghost use Rattle.mt_verify.specs.Declaring.{opening_of};

    ghost Value = { trees.Declared };

    ghost view = { λ d. record { tree = record { name = d.name; kind = d.kind }; opening = opening_of d.source } };
}

/// The tree that a line of this phase declares, where these were declared before it.
fn declared_by(trees: &[Declared], phase: u64, item: &Item) -> Option<Declared>
    ensures { result ≡ declared_by trees.now phase item.now }
{
    match *item {
        Item::Tree { name, kind } => Some(Declared {
            name,
            kind,
            source: None,
        }),
        Item::Dup { from, name } => {
            let source = trees.get(from as usize)?;
            Some(Declared {
                name,
                kind: source.kind,
                source: Some(DeclaredSource { tree: from, phase }),
            })
        }
        _ => None,
    }
}

/// The trees that these lines declare.
pub fn trees_of(alloc: Global, lines: &[Line]) -> Result<Vec<Declared>, NoMemory>
    ensures { IfOk result (λ trees. trees.items ≡ trees_of lines.now) }
{
    let mut trees = Vec::new(alloc);
    let mut phase = 0;
    for line in lines {
        if let Some(tree) = declared_by(&trees, phase, &line.item) {
            trees.push(tree)?;
        }
        if let Item::Join = line.item {
            phase += 1;
        }
    }
    Ok(trees)
}
